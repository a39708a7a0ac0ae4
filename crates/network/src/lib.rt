// Track networks: what one means, and the interface that every network answers by.
//
// A network has the points 0 to 511 and up to 2,048 tracks, numbered from 0 without gaps. Code over
// networks takes any `N: Network`, and is proved from the meaning `tracks` alone.
#![tactic(auto)]

ghost use Rattle.std.specs.Prelude.{◌≡◌, true, false, List, length};
ghost use Rattle.network.specs.Refusals.{refusal_number, numbered};
ghost use Rattle.network.specs.Tracks.{Limits, track_at, ends_at, open_at, state_answer, state_after, are_points, each_point, change_answer};
ghost use Rattle.network.specs.declared.track.Refusal.{Refusal};
ghost use Rattle.network.specs.declared.track.Track.{Track};

pub mod stop;
pub mod track;

use std::array;
use track::{Refusal, Track};

pub const POINTS: usize = 512;

// No network has more.
pub const TRACKS: usize = 2048;

pub trait Network {
    // what the network means: its tracks, in rising number
    ghost tracks: { Self → List Track };

    // How many tracks there are.
    fn count(&self) -> usize
        ensures { result ≡ length (tracks self.now) };

    // The first and the second point of a track, or None where there is no such track.
    fn ends(&self, track: usize) -> Option<(u16, u16)>
        ensures { result ≡ ends_at (tracks self.now) track };

    // Whether a track is there and open.
    fn is_open(&self, track: usize) -> bool
        ensures { result ≡ open_at (tracks self.now) track };

    // Shuts (`true`) or reopens (`false`) a track, or refuses and changes nothing: the flag is the state that the track is to have.
    fn set_state(&mut self, track: usize, shut: bool) -> Result<(), Refusal>
        ensures value { numbered result ≡ state_answer shut (tracks self.old) track }
        ensures after { tracks self.new ≡ state_after shut (tracks self.old) track };

    // Shuts an open track, or refuses with 1 or 2 and changes nothing.
    fn shut(&mut self, track: usize) -> Result<(), Refusal>
        ensures value { numbered result ≡ state_answer true (tracks self.old) track }
        ensures after { tracks self.new ≡ state_after true (tracks self.old) track }
    {
        self.set_state(track, true)
    }

    // Reopens a shut track, or refuses with 1 or 3 and changes nothing.
    fn reopen(&mut self, track: usize) -> Result<(), Refusal>
        ensures value { numbered result ≡ state_answer false (tracks self.old) track }
        ensures after { tracks self.new ≡ state_after false (tracks self.old) track }
    {
        self.set_state(track, false)
    }

    // at most 2,048 tracks, between points below 512
    ghost limits: { (n : Self) → Limits (tracks n) };
}

impl Refusal {
    // The number that the refusal is known by. No two refusals share one. `u8::from(refusal)` would not say which number it is.
    pub fn number(self) -> u8
        ensures value { result ≡ refusal_number self }
        ensures own { (other : Refusal) → result ≡ refusal_number other → other ≡ self }
    {
        self as u8
    }
}

// Whether a track may join these two points: both are below 512.
pub fn are_points(first: u16, second: u16) -> bool
    ensures { result ≡ are_points first second }
{
    first < 512 && second < 512
}

// The 512 points, each at its own place.
pub fn each_point() -> [u16; POINTS]
    ensures { result ≡ each_point }
{
    array::from_fn(|point| point as u16)
}

// The answer to a call that is to shut, or else to reopen, a track that is there and is shut or open. Both flags are states of a track.
pub fn change(wanted: bool, shut: bool) -> Result<(), Refusal>
    ensures { numbered result ≡ change_answer wanted shut }
{
    if wanted != shut {
        Ok(())
    } else if wanted {
        Err(Refusal::AlreadyShut)
    } else {
        Err(Refusal::AlreadyOpen)
    }
}

// Any network: the track with a number, as one record, or None where there is no such track.
pub fn track_at<N: Network>(network: &N, number: usize) -> Option<Track>
    ensures { result ≡ track_at (N.tracks network.now) number }
{
    let (first, second) = network.ends(number)?;
    let shut = !network.is_open(number);
    Some(Track {
        first,
        second,
        shut,
    })
}
