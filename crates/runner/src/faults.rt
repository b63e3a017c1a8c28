// Why a schedule did not run to its end. The conversions are written out, since a derived one promises nothing.
ghost use Rattle.std.specs.Prelude.{◌≡◌};
ghost use Rattle.runner.specs.declared.faults.RunFault.TheVariants.{Memory, Form, Sizes};

use door::fault::Unfit;
use lock::fault::SizeFault;
use schedule::FormFault;
use std::alloc::AllocError;

#[derive(Clone, Copy)]
pub enum RunFault {
    // No memory for what is printed.
    Memory(AllocError),
    // The text is no schedule.
    Form(FormFault),
    // No board has these sizes.
    Sizes(SizeFault),
}

impl From<AllocError> for RunFault {
    ghost from_gives = { λ e r. r ≡ Memory e };

    fn from(e: AllocError) -> RunFault {
        RunFault::Memory(e)
    }
}

impl From<FormFault> for RunFault {
    ghost from_gives = { λ f r. r ≡ Form f };

    fn from(f: FormFault) -> RunFault {
        RunFault::Form(f)
    }
}

impl<M: Drop> From<Unfit<M>> for RunFault {
    ghost from_gives = { λ u r. r ≡ Sizes u.fault };

    fn from(unfit: Unfit<M>) -> RunFault {
        RunFault::Sizes(unfit.fault)
    }
}
