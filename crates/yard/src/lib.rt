// Yards: a list of tracks within the limits, as a type of its own, and what is asked of it.
//
// `Yard::of` makes one from any network, by its interface alone, and takes its memory at once.
#![tactic(auto)]

ghost use Rattle.std.specs.Prelude.{◌≤◌, vec_len};
ghost use Rattle.network.specs.Tracks.{Points};

use network::track::Track;

mod making;
mod partition;
mod questions;

pub use questions::is_chord;

// Contracts see a yard by `yard_tracks` and not by a Model, whose callers would not know the limits: labelling and judging need them.
#[derive(Drop)]
pub struct Yard {
    records: Vec<Track>,
    ghost few: { vec_len records ≤ 2048 },
    ghost points: { Points records.items },
}

// A cut class: its lowest track number, and how many tracks it has.
#[derive(Clone, Copy, PartialEq, Eq, Debug)]
pub struct Class {
    pub lead: usize,
    pub size: usize,
}
