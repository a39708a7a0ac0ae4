// A partition of the points: a representative for each, the same for points that are joined.
ghost use Rattle.std.specs.Prelude.{◌≡◌, ℕ, ◌<◌, not, ◌&&◌, length, if◌then◌else◌, ◌==◌, nat_eq, slice_index};
ghost use Rattle.graph.specs.Counts.{Count};
ghost use Rattle.network.specs.Tracks.{Within, each_point};
ghost use Rattle.yard.specs.Partitions.{Below, FirstOf, split, TakenIn};

use network::track::Track;
use network::{POINTS, each_point};

#[derive(Drop)]
pub(crate) struct Partition {
    reps: [u16; POINTS],
    ghost whole: { length reps ≡ 512 },
    ghost within: { Below reps },
}

// Gives the points whose representative is u the representative v.
fn replace(reps: &mut [u16], u: u16, v: u16)
    ensures { (p : ℕ) → p < length reps.old → slice_index reps.new p ≡ (if nat_eq (slice_index reps.old p) u then v else slice_index reps.old p) }
{
    for rep in reps.iter_mut() {
        if *rep == u {
            *rep = v;
        }
    }
}

// Whether a point is marked and its representative was not seen.
fn is_first(marked: bool, seen: bool) -> bool
    ensures { result ≡ marked && not seen }
{
    marked && !seen
}

impl Partition {
    // Each point by itself.
    pub(crate) fn new() -> Partition
        ensures { result.reps ≡ each_point }
    {
        Partition { reps: each_point() }
    }

    // Whether two points have the same representative.
    pub(crate) fn same(&self, a: u16, b: u16) -> bool
        requires { (a < 512) × (b < 512) }
        ensures { result ≡ (slice_index self.now.reps a == slice_index self.now.reps b) }
    {
        self.reps[a as usize] == self.reps[b as usize]
    }

    // Whether a track is open and its ends have different representatives.
    pub(crate) fn splits(&self, one: Track) -> bool
        requires { Within one }
        ensures { result ≡ split self.now.reps one }
    {
        !one.shut && !self.same(one.first, one.second)
    }

    // Takes a track in after those before it: it joins its ends, if it is open. Tells whether they were apart.
    pub(crate) fn take_in(&mut self, one: Track) -> bool
        requires { Within one }
        ensures { TakenIn self.old.reps self.new.reps one result }
    {
        if one.shut {
            return false;
        }
        let u = self.reps[one.first as usize];
        let v = self.reps[one.second as usize];
        if u == v {
            return false;
        }
        replace(&mut self.reps, u, v);
        true
    }

    // How many representatives the marked points have: each is counted at the first point that has it.
    pub(crate) fn count_marked(&self, marked: &[bool]) -> usize
        requires { length marked.now ≡ 512 }
        ensures { Count (FirstOf self.now.reps marked.now) 512 result }
    {
        let mut seen = [false; POINTS];
        let mut count = 0;
        for (rep, is_marked) in self.reps.iter().zip(marked) {
            let rep = *rep as usize;
            if is_first(*is_marked, seen[rep]) {
                seen[rep] = true;
                count += 1;
            }
        }
        count
    }
}
