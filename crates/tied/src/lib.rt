// A layer over any network, which shows each point as the one that stands for it.
#![tactic(auto)]

ghost use Rattle.std.specs.Prelude.{◌≡◌, ◌<◌, length};
ghost use Rattle.network.specs.Refusals.{numbered};
ghost use Rattle.network.specs.Tracks.{each_point};
ghost use Rattle.tied.specs.Standing.{stand_in, Standing, tied, tie_answer, tie_after};
ghost use Rattle.tied.specs.Ties.{limits_tied};

use network::track::Refusal;
use network::{Network, POINTS, are_points, each_point};

#[derive(Drop)]
pub struct Tied<N> {
    below: N,
    // for each point the one that stands for it
    stands: [u16; POINTS],
    ghost whole: { length stands ≡ 512 },
    ghost standing: { Standing stands },
}

impl<N: Network> Tied<N> {
    // The network below, with each point standing for itself, so that it shows the same tracks.
    pub fn new(below: N) -> Tied<N>
        ensures below { result.below ≡ below }
        ensures stands { result.stands ≡ each_point }
        ensures same { tied result.stands (N.tracks result.below) ≡ N.tracks below }
    {
        let stands = each_point();
        Tied { below, stands }
    }

    // The network below, as it is now.
    pub fn into_below(self) -> N
        ensures { result ≡ self.below }
    {
        let Tied { below, stands: _ } = self;
        below
    }

    // Lets `by` stand for `point`, or refuses with 4 and changes nothing.
    pub fn tie(&mut self, point: u16, by: u16) -> Result<(), Refusal>
        ensures value { numbered result ≡ tie_answer point by }
        ensures below { self.new.below ≡ self.old.below }
        ensures stands { self.new.stands ≡ tie_after self.old.stands point by }
    {
        if !are_points(point, by) {
            return Err(Refusal::NoSuchPoint);
        }
        self.stands[usize::from(point)] = by;
        Ok(())
    }

    // The point that stands for `point`.
    fn stand_in(&self, point: u16) -> u16
        requires { point < 512 }
        ensures { result ≡ stand_in self.now.stands point }
    {
        let place = usize::from(point);
        self.stands[place]
    }
}

impl<N: Network> Network for Tied<N> {
    ghost tracks = { λ t. tied t.stands (N.Network.tracks t.below) };

    ghost limits = { λ n. limits_tied _ _ n.standing (N.Network.limits n.below) };

    fn count(&self) -> usize {
        self.below.count()
    }

    fn ends(&self, track: usize) -> Option<(u16, u16)> {
        let (first, second) = self.below.ends(track)?;
        Some((self.stand_in(first), self.stand_in(second)))
    }

    fn is_open(&self, track: usize) -> bool {
        self.below.is_open(track)
    }

    fn set_state(&mut self, track: usize, shut: bool) -> Result<(), Refusal> {
        self.below.set_state(track, shut)
    }
}
