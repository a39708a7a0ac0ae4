// A layer over any network, with up to 64 tracks of its own above those below.
//
// `Annex::new` takes the memory for its own tracks at once; no later call needs any.
#![tactic(auto)]

ghost use Rattle.std.specs.Prelude.{◌≡◌, ◌-◌, ◌≤◌, min, [], length, IfOk, IfErr, vec_len, vec_capacity, refl};
ghost use Rattle.network.specs.Refusals.{numbered};
ghost use Rattle.network.specs.Tracks.{Points, track_at};
ghost use Rattle.annex.specs.Annexed.{annexed, annexed_after, add_answer, add_after, own_answer, own_after};
ghost use Rattle.annex.specs.Joins.{limits_annexed};

use network::track::{Refusal, Track};
use network::{Network, TRACKS, are_points, change};
use std::alloc::{AllocFailed, Global};

const MOST_OWN: usize = 64;

// Contracts name its two parts, since the tracks below are the meaning of `below`, which is of any type.
#[derive(Drop)]
pub struct Annex<N> {
    below: N,
    own: Vec<Track>,
    ghost few: { vec_len own ≤ 64 },
    ghost room: { 64 ≤ vec_capacity own },
    ghost points: { Points own.items },
}

impl<N: Network> Annex<N> {
    // The network below, with no track of its own yet, or handed back where there is no memory.
    pub fn new(heap: Global, below: N) -> Result<Annex<N>, AllocFailed<N>>
        ensures made { IfOk result (λ a. (a.below ≡ below) × (a.own.items ≡ [])) }
        ensures refused { IfErr result (λ x. x.value ≡ below) }
    {
        match Vec::with_capacity(heap, MOST_OWN) {
            Ok(own) => Ok(Annex { below, own }),
            Err(_) => Err(AllocFailed { value: below }),
        }
    }

    // The network below, as it is now.
    pub fn into_below(self) -> N
        ensures { result ≡ self.below }
    {
        let Annex { below, own } = self;
        drop(own);
        below
    }

    // Adds an open track of its own, or refuses with 4 or 5 and changes nothing.
    pub fn add(&mut self, first: u16, second: u16) -> Result<(), Refusal>
        ensures value { numbered result ≡ add_answer (N.tracks self.old.below) self.old.own.items first second }
        ensures below { self.new.below ≡ self.old.below }
        ensures own { self.new.own.items ≡ add_after (N.tracks self.old.below) self.old.own.items first second }
        ensures after { annexed (N.tracks self.new.below) self.new.own.items ≡ annexed_after (N.tracks self.old.below) self.old.own.items first second }
    {
        if !are_points(first, second) {
            return Err(Refusal::NoSuchPoint);
        }
        if self.own.len() >= MOST_OWN || self.count() >= TRACKS {
            return Err(Refusal::Full);
        }
        self.own.push_reserved(Track::open(first, second));
        Ok(())
    }

    // How many of the own tracks are shown above `below` others.
    fn shown(&self, below: usize) -> usize
        requires { below ≤ 2048 }
        ensures { result ≡ min (vec_len self.now.own) (2048 - below) }
    {
        self.own.len().min(TRACKS - below)
    }

    // The own track with a number above those below, or None where it is not shown.
    fn own_at(&self, track: usize) -> Option<Track>
        requires { length (N.tracks self.now.below) ≤ track }
        ensures { result ≡ track_at (annexed (N.tracks self.now.below) self.now.own.items) track }
    {
        let below = self.below.count();
        let shown = self.shown(below);
        self.own.as_slice()[..shown].get(track - below).copied()
    }

    // Shuts or reopens the own track at a place among the first `shown`, or refuses and changes nothing.
    fn set_own(&mut self, shown: usize, place: usize, shut: bool) -> Result<(), Refusal>
        requires { shown ≤ vec_len self.old.own }
        ensures value { numbered result ≡ own_answer shut shown self.old.own.items place }
        ensures below { self.new.below ≡ self.old.below }
        ensures own { self.new.own.items ≡ own_after shut shown self.old.own.items place }
    {
        if place >= shown {
            return Err(Refusal::NoSuchTrack);
        }
        change(shut, self.own[place].shut)?;
        self.own[place].shut = shut;
        Ok(())
    }
}

impl<N: Network> Network for Annex<N> {
    ghost tracks = { λ a. annexed (N.Network.tracks a.below) a.own.items };

    ghost limits = { λ n. limits_annexed _ _ _ _ _ refl n.own.ok.0 refl (N.Network.limits n.below) n.points };

    fn count(&self) -> usize {
        let below = self.below.count();
        below + self.shown(below)
    }

    fn ends(&self, track: usize) -> Option<(u16, u16)> {
        if track < self.below.count() {
            return self.below.ends(track);
        }
        self.own_at(track).map(|own| own.ends())
    }

    fn is_open(&self, track: usize) -> bool {
        if track < self.below.count() {
            return self.below.is_open(track);
        }
        self.own_at(track).is_some_and(|own| own.is_open())
    }

    fn set_state(&mut self, track: usize, shut: bool) -> Result<(), Refusal> {
        let below = self.below.count();
        if track < below {
            return self.below.set_state(track, shut);
        }
        let shown = self.shown(below);
        self.set_own(shown, track - below, shut)
    }
}
