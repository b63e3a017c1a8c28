// Why a text was not read. A run fails for one reason more, so it has a type of its own. The conversions are written
// out, since a derived one promises nothing.
ghost use Rattle.std.specs.Prelude.{◌≡◌, alloc_error};
ghost use Rattle.formtext.specs.declared.faults.ReadFault.TheVariants.{Memory, Form};

use std::alloc::{AllocError, AllocFailed};
use textline::FormFault;

#[derive(Clone, Copy, Debug)]
pub enum ReadFault {
    // No memory for the events.
    Memory(AllocError),
    // The text is no schedule.
    Form(FormFault),
}

impl From<AllocError> for ReadFault {
    ghost from_gives = { λ e r. r ≡ Memory e };

    fn from(e: AllocError) -> ReadFault {
        ReadFault::Memory(e)
    }
}

impl<T: Drop> From<AllocFailed<T>> for ReadFault {
    ghost from_gives = { λ _ r. r ≡ Memory alloc_error };

    fn from(failed: AllocFailed<T>) -> ReadFault {
        ReadFault::Memory(AllocError::from(failed))
    }
}

impl From<FormFault> for ReadFault {
    ghost from_gives = { λ f r. r ≡ Form f };

    fn from(f: FormFault) -> ReadFault {
        ReadFault::Form(f)
    }
}
