// One track of a network, and what is refused.
ghost use Rattle.std.specs.Prelude.{◌≡◌, not, Some};

use std::error::Error;
use std::fmt;

// A track joins two points, and is open or shut. Where both points are the same it is a loop. Its layout is that of a C struct.
#[repr(C)]
#[derive(Clone, Copy, PartialEq, Eq, Debug)]
pub struct Track {
    pub first: u16,
    pub second: u16,
    pub shut: bool,
}

impl Track {
    ghost use Rattle.network.specs.Tracks.{open_track};

    // An open track between two points.
    pub fn open(first: u16, second: u16) -> Track
        ensures { result ≡ open_track first second }
    {
        Track {
            first,
            second,
            shut: false,
        }
    }

    // Its first and its second point.
    pub fn ends(self) -> (u16, u16)
        ensures { result ≡ (self.first, self.second) }
    {
        (self.first, self.second)
    }

    pub fn is_open(self) -> bool
        ensures { result ≡ not self.shut }
    {
        !self.shut
    }
}

// Why a call is refused. Each refusal is known by its number.
#[derive(Clone, Copy, PartialEq, Eq, Debug)]
pub enum Refusal {
    NoSuchTrack = 1,
    AlreadyShut = 2,
    AlreadyOpen = 3,
    NoSuchPoint = 4,
    Full = 5,
    NoSuchSize = 6,
    WrongLength = 7,
    TooFewWords = 8,
    Unbalanced = 9,
    DrawAgain = 10,
    UnknownLine = 12,
    OutOfPlace = 13,
    WrongNumber = 14,
    TooFewBytes = 15,
}

impl fmt::Display for Refusal {
    ghost use Rattle.network.specs.Refusals.{refusal_text};

    ghost output = { λ refusal. Some (refusal_text refusal) };

    fn fmt<W: fmt::Write>(&self, f: &mut fmt::Formatter<W>) -> fmt::Result {
        let number = *self as u8;
        write!(f, "refused with {number}")
    }
}

impl Error for Refusal {}
