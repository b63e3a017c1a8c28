// Why a text is no schedule.
ghost use Rattle.std.specs.Prelude.{◌≡◌, IfOk, Some, string_bytes};
ghost use Rattle.textline.specs.Faults.{form_number, form_line, form_words, bad_line};

use std::alloc::{AllocError, Global};
use std::fmt;

#[derive(Clone, Copy, Debug)]
pub enum FormFault {
    // The text has more than 65,535 bytes: judged before all else.
    TooLong,
    // A line is not of its form, is missing or is extra; lines are counted from 1.
    BadLine { line: u32 },
}

impl FormFault {
    // The fault's number in every report. A match says it, since one of the faults has a line with it.
    pub fn number(&self) -> u16
        ensures { result ≡ form_number self.now }
    {
        match *self {
            FormFault::TooLong => 32,
            FormFault::BadLine { .. } => 31,
        }
    }

    // The line that is at fault; 0 where it is the whole text, which is what every report prints of it.
    pub fn line(&self) -> u32
        ensures { result ≡ form_line self.now }
    {
        match *self {
            FormFault::TooLong => 0,
            FormFault::BadLine { line } => line,
        }
    }
}

impl fmt::Display for FormFault {
    ghost output = { λ f. Some (form_words f) };

    fn fmt<W: fmt::Write>(&self, f: &mut fmt::Formatter<W>) -> fmt::Result {
        let line = self.line();
        let number = self.number();
        write!(f, "bad {line} {number}")
    }
}

// The fault as a line of a report.
pub fn bad_line(heap: Global, fault: FormFault) -> Result<String, AllocError>
    ensures { IfOk result (λ s. string_bytes s ≡ bad_line fault) }
{
    format!(in heap; "{fault}\n")
}
