// The sheet: a letter, and a mark for each track.
ghost use Rattle.std.specs.Prelude.{◌≤◌, vec_len, vec_capacity};
ghost use Rattle.sheet.specs.Marks.{WellLed};

use crate::mark::Mark;

// In every sheet a lead is a track marked mates with itself as lead, and no track's lead is above its own number. Callers know this of
// each sheet by its ghost fields; a Model's invariant they would not know.
#[derive(Drop)]
pub struct Sheet {
    pub(crate) letter: u8,
    pub(crate) marks: Vec<Mark>,
    ghost few: { vec_len marks ≤ 2048 },
    ghost room: { 2048 ≤ vec_capacity marks },
    ghost led: { WellLed marks.items },
}
