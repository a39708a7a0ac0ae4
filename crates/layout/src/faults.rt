// What can be wrong with a number, with a line and with a file.
ghost use Rattle.std.specs.Prelude.{◌≡◌};
ghost use Rattle.layout.specs.Faults.{fault_refusal, fault_number, placed};
ghost use Rattle.layout.specs.declared.faults.LineFault.TheVariants.{Number};
ghost use Rattle.network.specs.Refusals.{refusal_number};

use network::track::Refusal;

// A number is missing, is not written in 1 to 4 digits or is out of its range, or something follows the last.
#[derive(Clone, Copy, PartialEq, Eq, Debug)]
pub enum NumberFault {
    Wrong,
}

// A line is of no known kind, stands where it may not, or has a wrong number: the first of these that is so.
#[derive(Clone, Copy, PartialEq, Eq, Debug)]
pub enum LineFault {
    UnknownKind,
    OutOfPlace,
    Number(NumberFault),
}

// A fault and the number of its line, from 1.
#[derive(Clone, Copy, PartialEq, Eq, Debug)]
pub struct FaultAt {
    pub fault: LineFault,
    pub line: usize,
}

// Why a file is refused, and the number of the first faulty line, from 1.
#[derive(Clone, Copy, PartialEq, Eq, Debug)]
pub struct FileFault {
    pub refusal: Refusal,
    pub line: usize,
}

impl LineFault {
    // The refusal of a file that has this fault: a `From` would not say of what.
    pub fn refusal(self) -> Refusal
        ensures value { result ≡ fault_refusal self }
        ensures number { refusal_number result ≡ fault_number self }
    {
        match self {
            LineFault::UnknownKind => Refusal::UnknownLine,
            LineFault::OutOfPlace => Refusal::OutOfPlace,
            LineFault::Number(_) => Refusal::WrongNumber,
        }
    }
}

impl From<NumberFault> for LineFault {
    ghost from_gives = { λ e r. r ≡ Number e };

    fn from(fault: NumberFault) -> LineFault {
        LineFault::Number(fault)
    }
}

impl From<FaultAt> for FileFault {
    ghost from_gives = { λ f r. r ≡ placed f.fault f.line };

    fn from(found: FaultAt) -> FileFault {
        FileFault {
            refusal: found.fault.refusal(),
            line: found.line,
        }
    }
}
