// The labels of the forest, from leaves to roots.
ghost use Rattle.std.specs.Prelude.{◌≡◌, ℕ, ◌<◌, ◌⊎◌, List, length, if◌then◌else◌, nat_eq, slice_set};
ghost use Rattle.graph.specs.Degrees.{NoneAlone};
ghost use Rattle.circulation.specs.Labellings.{owed};
ghost use Rattle.circulation.specs.Labels.{Balanced};
ghost use Rattle.labelling.specs.Settled.{Known};
ghost use Rattle.yard.specs.Meaning.{yard_tracks};

use crate::forest::Forest;
use crate::incidence::Incidence;
use crate::leaves::Leaves;
use label::Label;
use network::POINTS;
use network::track::Track;

// The other end of a track.
fn other_end(one: Track, point: u16) -> u16
    ensures { result ≡ (if nat_eq one.first point then one.second else one.first) }
{
    if one.first == point {
        one.second
    } else {
        one.first
    }
}

// Gives a track what balances one of its ends: it carries zero, and all others at that point have their labels.
fn settle<K: Label>(incidence: &Incidence, labels: &mut [K], number: usize, point: u16)
    requires long { length labels.old ≡ length (yard_tracks incidence.now.yard.now) }
    requires there { number < length labels.old }
    requires at { point < 512 }
    ensures { labels.new ≡ slice_set labels.old number (owed K.group (yard_tracks incidence.now.yard.now) labels.old number point) }
{
    let (out, into) = incidence.sums_at(labels, point as usize);
    let owed = if incidence.yard.tracks()[number].first == point {
        into.sum(&out.opposite())
    } else {
        out.sum(&into.opposite())
    };
    labels[number] = owed;
}

// Goes on from a point as long as one track is left there: settles it, takes it off, and goes to its other end.
fn follow<K: Label>(incidence: &Incidence, leaves: &mut Leaves, labels: &mut [K], start: u16)
    requires yard { yard_tracks leaves.old.yard.now ≡ yard_tracks incidence.now.yard.now }
    requires long { length labels.old ≡ length (yard_tracks incidence.now.yard.now) }
    requires start { start < 512 }
    ensures yard { yard_tracks leaves.new.yard.now ≡ yard_tracks incidence.now.yard.now }
    ensures known { (L : List K) → Balanced K.group (yard_tracks incidence.now.yard.now) L → Known K.group L labels.old leaves.old.left → Known K.group L labels.new leaves.new.left }
    ensures done { (p : ℕ) → p < 512 → (p ≡ start) ⊎ NoneAlone (yard_tracks incidence.now.yard.now) leaves.old.left p → NoneAlone (yard_tracks incidence.now.yard.now) leaves.new.left p }
{
    let mut at = start;
    while let Some(number) = leaves.alone_at(at) {
        settle(incidence, labels, number, at);
        leaves.take_off(number);
        at = other_end(incidence.yard.tracks()[number], at);
    }
}

// Settles all tracks of the forest: labels that balance and agree with what is settled at first are then written whole.
pub(crate) fn settle_forest<K: Label>(forest: &Forest, labels: &mut [K])
    requires { length labels.old ≡ length (yard_tracks forest.now.yard.now) }
    ensures { (L : List K) → Balanced K.group (yard_tracks forest.now.yard.now) L → Known K.group L labels.old forest.now.flags → labels.new ≡ L }
{
    let incidence = Incidence::of(forest.yard);
    let mut leaves = Leaves::of(forest);
    for point in 0..POINTS {
        follow(&incidence, &mut leaves, labels, point as u16);
    }
}
