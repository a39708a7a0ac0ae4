// Whether labels balance.
ghost use Rattle.std.specs.Prelude.{◌≡◌, ℕ, true, length, Decides};
ghost use Rattle.graph.specs.Yards.{track};
ghost use Rattle.yard.specs.Meaning.{yard_tracks};
ghost use Rattle.circulation.specs.Labels.{label as carried, total, leaves_from, enters_at, Balanced};

use crate::incidence::Incidence;
use label::Label;
use network::POINTS;
use network::track::Track;
use yard::Yard;

// Whether every shut track carries zero.
fn shut_carry_zero<K: Label>(tracks: &[Track], labels: &[K]) -> bool
    requires { length labels.now ≡ length tracks.now }
    ensures { Decides result ((t : ℕ) → (track tracks.now t).shut ≡ true → carried K.group labels.now t ≡ K.group.zero) }
{
    let zero = K::zero();
    tracks
        .iter()
        .zip(labels)
        .all(|(one, label)| !one.shut || label.same(&zero))
}

// Whether at each point the labels of the open tracks with that first point sum to the same as those with that second point.
fn each_point_balances<K: Label>(yard: &Yard, labels: &[K]) -> bool
    requires { length labels.now ≡ length (yard_tracks yard.now) }
    ensures { Decides result ((p : ℕ) → total K.group (leaves_from p) (yard_tracks yard.now) labels.now ≡ total K.group (enters_at p) (yard_tracks yard.now) labels.now) }
{
    let incidence = Incidence::of(yard);
    (0..POINTS).all(|point| incidence.balances_at(labels, point))
}

// Whether labels balance on a yard: there is one for each track, every shut track carries zero, and at each point the
// labels of the open tracks with that first point sum to the same as those with that second point.
pub fn balances<K: Label>(yard: &Yard, labels: &[K]) -> bool
    ensures { Decides result (Balanced K.group (yard_tracks yard.now) labels.now) }
{
    let tracks = yard.tracks();
    labels.len() == tracks.len()
        && shut_carry_zero(tracks, labels)
        && each_point_balances(yard, labels)
}
