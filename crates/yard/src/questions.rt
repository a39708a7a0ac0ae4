// What is asked of a yard.
ghost use Rattle.std.specs.Prelude.{◌≡◌, ℕ, ◌<◌, false, not, ◌&&◌, [], ◌∷◌, length, Decides, slice_index_or};
ghost use Rattle.network.specs.Refusals.{numbered};
ghost use Rattle.graph.specs.Forests.{WordsNeeded};
ghost use Rattle.graph.specs.Groups.{Touched, GroupCount};
ghost use Rattle.graph.specs.Representing.{Represents};
ghost use Rattle.graph.specs.Yards.{shut_also, Open, Joined, Parts, Bridge};
ghost use Rattle.yard.specs.Asked.{Recorded, AskOne, AskTwo, ClassAnswer, list_answer, ForestTold};
ghost use Rattle.yard.specs.Meaning.{yard_tracks};
ghost use Rattle.graph.specs.Classes.{Fellow};

use crate::partition::Partition;
use crate::{Class, Yard};
use network::track::{Refusal, Track};
use network::{POINTS, are_points};

// Whether a track is a chord, by whether it is in the forest: it is open, and joins nothing more.
pub fn is_chord(one: Track, in_forest: bool) -> bool
    ensures { result ≡ not one.shut && not in_forest }
{
    !one.shut && !in_forest
}

impl Yard {
    // The track with a number, or 1 where there is no such track.
    fn record(&self, number: usize) -> Result<Track, Refusal>
        ensures { Recorded (yard_tracks self.now) number result }
    {
        self.records
            .get(number)
            .copied()
            .ok_or(Refusal::NoSuchTrack)
    }

    // Whether there is a track with a number, and it is open.
    fn is_open(&self, number: usize) -> bool
        ensures { Decides result (Open (yard_tracks self.now) number) }
    {
        self.records.get(number).is_some_and(|one| !one.shut)
    }

    // The points as the open tracks join them, with these tracks shut as well.
    fn partition_without(&self, also: &[usize]) -> Partition
        ensures { Represents result.reps (shut_also (yard_tracks self.now) also.now) }
    {
        let mut points = Partition::new();
        for (number, one) in self.records.iter().enumerate() {
            if !also.contains(&number) {
                let _ = points.take_in(*one);
            }
        }
        points
    }

    // Whether open tracks lead from a to b. A point above 511 is joined to itself alone.
    pub fn are_joined(&self, a: u16, b: u16) -> bool
        ensures { Decides result (Joined (yard_tracks self.now) a b) }
    {
        if !are_points(a, b) {
            return a == b;
        }
        self.partition_without(&[]).same(a, b)
    }

    // Whether a track is a bridge, or 1 where there is no such track.
    pub fn is_bridge(&self, number: usize) -> Result<bool, Refusal>
        ensures { AskOne (yard_tracks self.now) number (Bridge (yard_tracks self.now) number) (numbered result) }
    {
        let one = self.record(number)?;
        Ok(self.partition_without(&[number]).splits(one))
    }

    // Whether two tracks, perhaps the same or shut, part the yard together, or 1 where one of them is absent.
    pub fn are_parting(&self, t: usize, u: usize) -> Result<bool, Refusal>
        ensures { AskTwo (yard_tracks self.now) t u (Parts (yard_tracks self.now) (t ∷ u ∷ [])) (numbered result) }
    {
        let first = self.record(t)?;
        let second = self.record(u)?;
        let points = self.partition_without(&[t, u]);
        Ok(points.splits(first) || points.splits(second))
    }

    // How many words a labelling needs: one for each open track outside the forest.
    pub fn words_needed(&self) -> usize
        ensures { WordsNeeded (yard_tracks self.now) result }
    {
        let mut points = Partition::new();
        let mut words = 0;
        for one in &self.records {
            let joins = points.take_in(*one);
            if is_chord(*one, joins) {
                words += 1;
            }
        }
        words
    }

    // Tells of each track whether it is in the forest, in a list as long as the track list, or refuses with 7 and leaves it.
    pub fn forest(&self, flags: &mut [bool]) -> Result<(), Refusal>
        ensures value { numbered result ≡ list_answer (yard_tracks self.now) flags.old }
        ensures told { ForestTold (yard_tracks self.now) flags.old flags.new (numbered result) }
    {
        if flags.len() != self.records.len() {
            return Err(Refusal::WrongLength);
        }
        let mut points = Partition::new();
        // over the tracks alone: of what goes through `iter_mut().zip(..)` a proof knows nothing
        for (number, one) in self.records.iter().enumerate() {
            flags[number] = points.take_in(*one);
        }
        Ok(())
    }

    // Which points an open track touches.
    fn touched(&self) -> [bool; POINTS]
        ensures long { length result ≡ 512 }
        ensures value { (p : ℕ) → p < 512 → Decides (slice_index_or result p false) (Touched (yard_tracks self.now) p) }
    {
        let mut touched = [false; POINTS];
        for one in &self.records {
            if !one.shut {
                touched[one.first as usize] = true;
                touched[one.second as usize] = true;
            }
        }
        touched
    }

    // How many groups there are: points that an open track touches share one exactly when they are joined.
    pub fn group_count(&self) -> usize
        ensures { GroupCount (yard_tracks self.now) result }
    {
        let touched = self.touched();
        self.partition_without(&[]).count_marked(&touched)
    }

    // Whether a track is this one, which is open and no bridge, or makes a cut pair with it.
    fn is_fellow(&self, number: usize, other: usize) -> bool
        requires open { Open (yard_tracks self.now) number }
        requires kept { ¬ Bridge (yard_tracks self.now) number }
        ensures { Decides result (Fellow (yard_tracks self.now) number other) }
    {
        if other == number {
            return true;
        }
        let one = self.records[number];
        self.is_open(other) && self.partition_without(&[number, other]).splits(one)
    }

    // The class of a track by its lead and its size, none for a track in no class, or 1 where there is no such track.
    pub fn class_of(&self, number: usize) -> Result<Option<Class>, Refusal>
        ensures { ClassAnswer (yard_tracks self.now) number (numbered result) }
    {
        if self.is_bridge(number)? || !self.is_open(number) {
            return Ok(None);
        }
        let mut lead = number;
        let mut size = 0;
        for other in 0..self.records.len() {
            if self.is_fellow(number, other) {
                lead = lead.min(other);
                size += 1;
            }
        }
        if size < 2 {
            return Ok(None);
        }
        Ok(Some(Class { lead, size }))
    }
}
