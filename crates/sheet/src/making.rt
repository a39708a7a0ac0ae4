// How a sheet is made and rewritten.
ghost use Rattle.std.specs.Prelude.{◌≡◌, ℕ, ◌<◌, ◌≤◌, ◌↔◌, true, [], length, is_ok, IsOk, IfOk, Err, if◌then◌else◌, Decides};
ghost use Rattle.sheet.specs.Marks.{mark_at, is_mates, LedWell, WellLed};
ghost use Rattle.sheet.specs.Meaning.{sheet_marks, sheet_letter};

use crate::mark::{Mark, MarksError};
use crate::record::Sheet;
use network::TRACKS;
use std::alloc::{AllocError, Global};

// Whether the mark of a track is led well, where it is mates.
fn is_led(marks: &[Mark], number: usize, mark: Mark) -> bool
    requires there { number < length marks.now }
    requires own { mark ≡ mark_at marks.now number }
    ensures { Decides result (is_mates mark ≡ true → LedWell marks.now number) }
{
    match mark {
        Mark::Mates { lead, .. } => lead as usize <= number && marks[lead as usize] == mark,
        _ => true,
    }
}

// Whether all marks are.
fn are_led(marks: &[Mark]) -> bool
    ensures { Decides result (WellLed marks.now) }
{
    marks
        .iter()
        .enumerate()
        .all(|(number, mark)| is_led(marks, number, *mark))
}

impl Sheet {
    // A blank sheet: no marks, and the letter 0, which is not asked for before there are marks. It has room for the marks of 2,048 tracks.
    pub fn blank(heap: Global) -> Result<Sheet, AllocError>
        ensures marks { IfOk result (λ s. sheet_marks s ≡ []) }
        ensures letter { IfOk result (λ s. sheet_letter s ≡ 0) }
    {
        let marks = Vec::with_capacity(heap, TRACKS)?;
        Ok(Sheet { letter: 0, marks })
    }

    // Gives the sheet a letter and marks; where there are more than 2,048 marks, or else where one of mates is not led well, says
    // so and leaves the sheet as it was.
    pub fn rewrite(&mut self, letter: u8, marks: &[Mark]) -> Result<(), MarksError>
        ensures ok { IsOk result ↔ ((length marks.now ≤ 2048) × WellLed marks.now) }
        ensures too_many { (result ≡ Err MarksError.TooMany) ↔ (2048 < length marks.now) }
        ensures not_led { (result ≡ Err MarksError.NotLed) ↔ ((length marks.now ≤ 2048) × (¬ WellLed marks.now)) }
        ensures marks { sheet_marks self.new ≡ (if is_ok result then marks.now else sheet_marks self.old) }
        ensures letter { sheet_letter self.new ≡ (if is_ok result then letter else sheet_letter self.old) }
    {
        if marks.len() > TRACKS {
            return Err(MarksError::TooMany);
        }
        if !are_led(marks) {
            return Err(MarksError::NotLed);
        }
        // a sheet has room for 2,048 marks
        self.marks.clear();
        self.marks.extend_from_slice(marks).unwrap();
        self.letter = letter;
        Ok(())
    }
}
