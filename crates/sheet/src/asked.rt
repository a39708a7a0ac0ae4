// What is asked of a sheet.
ghost use Rattle.std.specs.Prelude.{◌≡◌, ◌*◌, ◌<◌, ◌≤◌, true, List, length};
ghost use Rattle.network.specs.Refusals.{numbered};
ghost use Rattle.network.specs.declared.track.Track.{Track};
ghost use Rattle.sheet.specs.Asked.{mark_answer, MarkTold, is_single, parting_by, parting_answer, PartingTold, TotalsOf, TotalsTold};
ghost use Rattle.sheet.specs.Marks.{MarksOf, is_mates, lead_in};
ghost use Rattle.sheet.specs.Meaning.{sheet_marks, sheet_letter};

use crate::mark::Mark;
use crate::record::Sheet;
use network::track::Refusal;

// Whether the marks of two tracks say that they part the yard.
fn is_parting(t: usize, u: usize, m: Mark, n: Mark) -> bool
    ensures { result ≡ parting_by t u m n }
{
    match (m, n) {
        (Mark::Single, _) | (_, Mark::Single) => true,
        (Mark::Mates { lead: a, .. }, Mark::Mates { lead: b, .. }) => t != u && a == b,
        _ => false,
    }
}

impl Sheet {
    // The letter of the labels judged.
    pub fn letter(&self) -> u8
        ensures { result ≡ sheet_letter self.now }
    {
        self.letter
    }

    // The marks, in rising number of the tracks.
    pub fn marks(&self) -> &[Mark]
        ensures { result.now ≡ sheet_marks self.now }
    {
        self.marks.as_slice()
    }

    // The mark of a track, or 1 where there is no such track.
    pub fn mark(&self, track: usize) -> Result<Mark, Refusal>
        ensures value { numbered result ≡ mark_answer (sheet_marks self.now) track }
        ensures told { (y : List Track) → MarksOf y (sheet_marks self.now) → MarkTold y track (numbered result) }
    {
        self.marks.get(track).copied().ok_or(Refusal::NoSuchTrack)
    }

    // Whether two tracks, perhaps the same or shut, part the yard together, or 1 where one of them is absent.
    pub fn are_parting(&self, t: usize, u: usize) -> Result<bool, Refusal>
        ensures value { numbered result ≡ parting_answer (sheet_marks self.now) t u }
        ensures told { (y : List Track) → MarksOf y (sheet_marks self.now) → PartingTold y t u (numbered result) }
    {
        let m = self.mark(t)?;
        let n = self.mark(u)?;
        Ok(is_parting(t, u, m, n))
    }
}
