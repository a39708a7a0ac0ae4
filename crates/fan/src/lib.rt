// A network of parallel roads whose neighbouring ends are joined. It stores no points, only the states.
#![tactic(auto)]

ghost use Rattle.std.specs.Prelude.{◌≡◌, ◌<◌, true, length, is_some};
ghost use Rattle.network.specs.Refusals.{numbered};
ghost use Rattle.network.specs.Tracks.{track_at, put_state};
ghost use Rattle.fan.specs.Roads.{Roads, road_tracks, road_ends, open_roads, size_answer, size_after};

use network::track::{Refusal, Track};
use network::{Network, change};

const MOST_ROADS: usize = 256;

const MOST: usize = 766;

// The states lie in an array of the most tracks, since a fan takes no memory: the first of them are those of its tracks.
// Contracts see a fan by `fan_tracks` and not by a Model, whose callers would not know the limits: the law of `Network` needs them.
#[derive(Drop)]
pub struct Fan {
    roads: usize,
    shut: [bool; MOST],
    ghost sized: { Roads roads },
    ghost whole: { length shut ≡ 766 },
}

impl Fan {
    ghost use Rattle.fan.specs.Fanned.{fan_tracks};

    // One open road.
    pub fn new() -> Fan
        ensures { fan_tracks result ≡ open_roads 1 }
    {
        Fan {
            roads: 1,
            shut: [false; MOST],
        }
    }

    // Sets the number of roads and opens every track, or refuses with 6 and changes nothing.
    pub fn size(&mut self, roads: usize) -> Result<(), Refusal>
        ensures value { numbered result ≡ size_answer roads }
        ensures after { fan_tracks self.new ≡ size_after (fan_tracks self.old) roads }
    {
        if roads < 1 || roads > MOST_ROADS {
            return Err(Refusal::NoSuchSize);
        }
        *self = Fan {
            roads,
            shut: [false; MOST],
        };
        Ok(())
    }

    // How many tracks there are.
    fn track_count(&self) -> usize
        ensures { result ≡ road_tracks self.now.roads }
    {
        3 * self.roads - 2
    }

    // The two points of a track.
    fn track_ends(&self, track: usize) -> (u16, u16)
        requires { track < road_tracks self.now.roads }
        ensures { result ≡ road_ends self.now.roads track }
    {
        let roads = self.roads;
        if track < roads {
            let k = track as u16;
            (k, 256 + k)
        } else if track < 2 * roads - 1 {
            let k = (track - roads) as u16;
            (k, k + 1)
        } else {
            let k = (track - (2 * roads - 1)) as u16;
            (256 + k, 257 + k)
        }
    }

    // The track with a number, or None where there is no such track.
    fn record(&self, track: usize) -> Option<Track>
        ensures { result ≡ track_at (fan_tracks self.now) track }
    {
        if track >= self.track_count() {
            return None;
        }
        let (first, second) = self.track_ends(track);
        let shut = self.shut[track];
        Some(Track {
            first,
            second,
            shut,
        })
    }

    // Sets the state of a track that is there.
    fn put_state(&mut self, track: usize, shut: bool)
        requires { is_some (track_at (fan_tracks self.old) track) ≡ true }
        ensures { fan_tracks self.new ≡ put_state shut (fan_tracks self.old) track }
    {
        self.shut[track] = shut;
    }
}

impl Network for Fan {
    ghost use Rattle.fan.specs.Fanned.{fan_tracks};
    ghost use Rattle.fan.specs.Fans.{limits_fanned};

    ghost tracks = { fan_tracks };

    ghost limits = { λ n. limits_fanned _ _ n.sized };

    fn count(&self) -> usize {
        self.track_count()
    }

    fn ends(&self, track: usize) -> Option<(u16, u16)> {
        self.record(track).map(|record| record.ends())
    }

    fn is_open(&self, track: usize) -> bool {
        self.record(track).is_some_and(|record| record.is_open())
    }

    fn set_state(&mut self, track: usize, shut: bool) -> Result<(), Refusal> {
        let record = self.record(track).ok_or(Refusal::NoSuchTrack)?;
        change(shut, record.shut)?;
        self.put_state(track, shut);
        Ok(())
    }
}
