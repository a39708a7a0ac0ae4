// What a sheet says of one track, and why marks make no sheet.
ghost use Rattle.std.specs.Prelude.{Some};

use std::error::Error;
use std::fmt;

// A track is shut; or a bridge (a single lead); or one of a cut class (mates), with the lead and the size of the class; or alone,
// where it is open and none of these.
#[derive(Clone, Copy, PartialEq, Eq, Debug)]
pub enum Mark {
    Shut,
    Single,
    Mates { lead: u16, size: u16 },
    Alone,
}

// Marks make no sheet: they are more than 2,048, or one of mates is not led well.
#[derive(Clone, Copy, PartialEq, Eq, Debug)]
pub enum MarksError {
    TooMany,
    NotLed,
}

impl fmt::Display for MarksError {
    ghost use Rattle.sheet.specs.Errors.{error_text};

    ghost output = { λ error. Some (error_text error) };

    fn fmt<W: fmt::Write>(&self, f: &mut fmt::Formatter<W>) -> fmt::Result {
        match self {
            MarksError::TooMany => write!(f, "more than 2,048 marks"),
            MarksError::NotLed => write!(f, "a mark of mates is not led well"),
        }
    }
}

impl Error for MarksError {}
