// The open tracks at each point, as chains.
ghost use Rattle.std.specs.Prelude.{◌≡◌, ◌<◌, length};
ghost use Rattle.circulation.specs.Chains.{Chained};
ghost use Rattle.circulation.specs.Labels.{total};
ghost use Rattle.labelling.specs.Ends.{at_end};
ghost use Rattle.yard.specs.Meaning.{yard_tracks};

use crate::ends::End;
use label::Label;
use network::{POINTS, TRACKS};
use yard::Yard;

// For each point the highest open track of a yard that has that end there, and for each open track the next lower one at
// the same point. Each number stands one higher, and 0 is the end of a chain: with `Option<u16>` the labelling of 2,048
// tracks took a third longer, past twice the time of a plain one.
#[derive(Drop)]
pub(crate) struct Chains<'a> {
    yard: &'a Yard,
    end: End,
    heads: [u16; POINTS],
    links: [u16; TRACKS],
    ghost whole: { length heads ≡ 512 },
    ghost room: { length links ≡ 2048 },
    ghost chained: { Chained (at_end end) (yard_tracks yard.now) heads links (length (yard_tracks yard.now)) },
}

impl<'a> Chains<'a> {
    // Chains the open tracks of a yard by one of their ends.
    pub(crate) fn of(yard: &'a Yard, end: End) -> Chains<'a>
        ensures yard { yard_tracks result.yard.now ≡ yard_tracks yard.now }
        ensures end { result.end ≡ end }
    {
        let mut heads = [0; POINTS];
        let mut links = [0; TRACKS];
        // over the tracks alone: of what goes through `iter_mut().zip(..)` a proof knows nothing
        for (number, one) in yard.tracks().iter().enumerate() {
            if !one.shut {
                let point = end.of(*one) as usize;
                links[number] = heads[point];
                heads[point] = number as u16 + 1;
            }
        }
        Chains {
            yard,
            end,
            heads,
            links,
        }
    }

    // The sum of the labels of the chained tracks at a point.
    pub(crate) fn sum_at<K: Label>(&self, labels: &[K], point: usize) -> K
        requires point { point < 512 }
        requires long { length labels.now ≡ length (yard_tracks self.now.yard.now) }
        ensures { result ≡ total K.group (at_end self.now.end point) (yard_tracks self.now.yard.now) labels.now }
    {
        let mut sum = K::zero();
        let mut at = self.heads[point];
        while at != 0 {
            let track = at as usize - 1;
            sum = sum.sum(&labels[track]);
            at = self.links[track];
        }
        sum
    }
}
