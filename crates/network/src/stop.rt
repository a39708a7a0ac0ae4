// Why something cannot be made.
ghost use Rattle.std.specs.Prelude.{◌≡◌, Some};
ghost use Rattle.network.specs.declared.stop.Stop.TheVariants.{Refused, NoMemory};

use crate::track::Refusal;
use std::alloc::{AllocError, AllocFailed};
use std::error::Error;
use std::fmt;

// It is refused, or there is no memory for it. The conversions are written out, since contracts name what `?` makes by them.
#[derive(Clone, Copy, PartialEq, Eq, Debug)]
pub enum Stop {
    Refused(Refusal),
    NoMemory,
}

impl From<Refusal> for Stop {
    ghost from_gives = { λ e r. r ≡ Refused e };

    fn from(refusal: Refusal) -> Stop {
        Stop::Refused(refusal)
    }
}

impl From<AllocError> for Stop {
    ghost from_gives = { λ _ r. r ≡ NoMemory };

    fn from(_: AllocError) -> Stop {
        Stop::NoMemory
    }
}

impl<T: Drop> From<AllocFailed<T>> for Stop {
    ghost from_gives = { λ _ r. r ≡ NoMemory };

    fn from(failed: AllocFailed<T>) -> Stop {
        drop(failed);
        Stop::NoMemory
    }
}

impl fmt::Display for Stop {
    ghost use Rattle.network.specs.Stops.{stop_text};

    ghost output = { λ stop. Some (stop_text stop) };

    fn fmt<W: fmt::Write>(&self, f: &mut fmt::Formatter<W>) -> fmt::Result {
        match self {
            Stop::Refused(why) => write!(f, "{why}"),
            Stop::NoMemory => write!(f, "out of memory"),
        }
    }
}

impl Error for Stop {}
