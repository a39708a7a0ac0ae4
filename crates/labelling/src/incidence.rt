// The open tracks of a yard by both their ends, and what their labels sum to at a point.
ghost use Rattle.std.specs.Prelude.{◌≡◌, ◌<◌, length, Decides};
ghost use Rattle.circulation.specs.Labels.{total, leaves_from, enters_at};
ghost use Rattle.labelling.specs.declared.ends.End.TheVariants.{First, Second};
ghost use Rattle.yard.specs.Meaning.{yard_tracks};

use crate::chains::Chains;
use crate::ends::End;
use label::Label;
use yard::Yard;

// The tracks that leave each point, and those that enter it.
#[derive(Drop)]
pub(crate) struct Incidence<'a> {
    pub(crate) yard: &'a Yard,
    leaving: Chains<'a>,
    entering: Chains<'a>,
    ghost leave: { leaving.end ≡ First },
    ghost enter: { entering.end ≡ Second },
    ghost left_yard: { yard_tracks leaving.yard.now ≡ yard_tracks yard.now },
    ghost entered_yard: { yard_tracks entering.yard.now ≡ yard_tracks yard.now },
}

impl<'a> Incidence<'a> {
    pub(crate) fn of(yard: &'a Yard) -> Incidence<'a>
        ensures { yard_tracks result.yard.now ≡ yard_tracks yard.now }
    {
        Incidence {
            yard,
            leaving: Chains::of(yard, End::First),
            entering: Chains::of(yard, End::Second),
        }
    }

    // The sum of the labels of the open tracks that leave a point, and of those that enter it.
    pub(crate) fn sums_at<K: Label>(&self, labels: &[K], point: usize) -> (K, K)
        requires point { point < 512 }
        requires long { length labels.now ≡ length (yard_tracks self.now.yard.now) }
        ensures out { result.0 ≡ total K.group (leaves_from point) (yard_tracks self.now.yard.now) labels.now }
        ensures into { result.1 ≡ total K.group (enters_at point) (yard_tracks self.now.yard.now) labels.now }
    {
        (
            self.leaving.sum_at(labels, point),
            self.entering.sum_at(labels, point),
        )
    }

    // Whether the labels of the open tracks that leave a point sum to the same as those of the tracks that enter it.
    pub(crate) fn balances_at<K: Label>(&self, labels: &[K], point: usize) -> bool
        requires point { point < 512 }
        requires long { length labels.now ≡ length (yard_tracks self.now.yard.now) }
        ensures { Decides result (total K.group (leaves_from point) (yard_tracks self.now.yard.now) labels.now ≡ total K.group (enters_at point) (yard_tracks self.now.yard.now) labels.now) }
    {
        let (out, into) = self.sums_at(labels, point);
        out.same(&into)
    }
}
