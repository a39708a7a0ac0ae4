// Counting over the marks of a sheet.
ghost use Rattle.std.specs.Prelude.{◌≡◌, List, length};
ghost use Rattle.network.specs.declared.track.Track.{Track};
ghost use Rattle.sheet.specs.Asked.{TotalsOf, TotalsTold};
ghost use Rattle.sheet.specs.Marks.{MarksOf};
ghost use Rattle.sheet.specs.Meaning.{sheet_marks, sheet_letter};

use crate::mark::Mark;
use crate::record::Sheet;
use crate::total::Totals;
use network::TRACKS;

impl Sheet {
    // How many tracks are marked single, how many classes and pairs of mates there are, and the letter. A track of a class makes a
    // pair with each track of the class before it.
    pub fn totals(&self) -> Totals
        ensures counts { TotalsOf (sheet_marks self.now) (length (sheet_marks self.now)) result }
        ensures letter { result.letter ≡ sheet_letter self.now }
        ensures told { (y : List Track) → MarksOf y (sheet_marks self.now) → TotalsTold y result }
    {
        let mut totals = Totals {
            singles: 0,
            classes: 0,
            pairs: 0,
            letter: self.letter,
        };
        let mut seen = [0u16; TRACKS];
        for (number, mark) in self.marks.iter().enumerate() {
            match *mark {
                Mark::Single => totals.singles += 1,
                Mark::Mates { lead, .. } => {
                    if lead as usize == number {
                        totals.classes += 1;
                    }
                    totals.pairs += seen[lead as usize] as usize;
                    seen[lead as usize] += 1;
                }
                _ => {}
            }
        }
        totals
    }
}
