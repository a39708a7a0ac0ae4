// The tracks of the forest that have no label yet, and how many of them each point has.
ghost use Rattle.std.specs.Prelude.{◌≡◌, ℕ, ◌<◌, true, false, length, slice_set, IfSome, IfNone};
ghost use Rattle.graph.specs.Degrees.{flagged, Alone, NoneAlone};
ghost use Rattle.graph.specs.Forests.{InForest};
ghost use Rattle.labelling.specs.Degrees.{Degrees};
ghost use Rattle.yard.specs.Meaning.{yard_tracks};

use crate::degrees::Degree;
use crate::forest::Forest;
use network::{POINTS, TRACKS};
use yard::Yard;

// For each track whether it is left, and for each point the tracks that are left at it.
#[derive(Drop)]
pub(crate) struct Leaves<'a> {
    yard: &'a Yard,
    left: [bool; TRACKS],
    degrees: [Degree; POINTS],
    ghost room: { length left ≡ 2048 },
    ghost whole: { length degrees ≡ 512 },
    ghost forest: { (t : ℕ) → flagged left t ≡ true → InForest (yard_tracks yard.now) t },
    ghost counted: { Degrees (yard_tracks yard.now) left degrees (length (yard_tracks yard.now)) },
}

impl<'a> Leaves<'a> {
    // All tracks of the forest are left.
    pub(crate) fn of(forest: &Forest<'a>) -> Leaves<'a>
        ensures yard { yard_tracks result.yard.now ≡ yard_tracks forest.now.yard.now }
        ensures left { result.left ≡ forest.now.flags }
    {
        let yard = forest.yard;
        let left = forest.flags;
        let mut degrees = [Degree {
            count: 0,
            numbers: 0,
        }; POINTS];
        // the flag by its number: a third pattern in the head of the loop is no plainer
        for (number, one) in yard.tracks().iter().enumerate() {
            if left[number] {
                degrees[one.first as usize].add(number as u16);
                degrees[one.second as usize].add(number as u16);
            }
        }
        Leaves {
            yard,
            left,
            degrees,
        }
    }

    // The track that is left at a point, where it is alone.
    pub(crate) fn alone_at(&self, point: u16) -> Option<usize>
        requires { point < 512 }
        ensures some { IfSome result (Alone (yard_tracks self.now.yard.now) self.now.left point) }
        ensures none { IfNone result (NoneAlone (yard_tracks self.now.yard.now) self.now.left point) }
    {
        let degree = self.degrees[point as usize];
        if degree.count == 1 {
            Some(degree.numbers as usize)
        } else {
            None
        }
    }

    // Takes off a track that is left.
    pub(crate) fn take_off(&mut self, number: usize)
        requires { flagged self.old.left number ≡ true }
        ensures yard { yard_tracks self.new.yard.now ≡ yard_tracks self.old.yard.now }
        ensures left { self.new.left ≡ slice_set self.old.left number false }
    {
        let one = self.yard.tracks()[number];
        self.left[number] = false;
        self.degrees[one.first as usize].remove(number as u16);
        self.degrees[one.second as usize].remove(number as u16);
    }
}
