// Sheets: the marks of the tracks of a yard, and what is asked of them.
//
// A sheet is made blank, with its memory taken at once, and is then given its letter and marks.
#![tactic(auto)]

ghost use Rattle.sheet.specs.Marks.{MarkLaws};

mod asked;
mod counting;
mod making;
pub mod mark;
pub mod record;
pub mod total;

// The definitions give each track of a yard one mark.
pub fn mark_laws()
    ensures { MarkLaws }
{}
