// How a yard is made.
ghost use Rattle.std.specs.Prelude.{◌≡◌, IfOk};
ghost use Rattle.yard.specs.Meaning.{yard_tracks};

use crate::Yard;
use network::track::Track;
use network::{Network, track_at};
use std::alloc::{AllocError, Global};

impl Yard {
    // The tracks of a network, as they are now.
    pub fn of<N: Network>(heap: Global, network: &N) -> Result<Yard, AllocError>
        ensures { IfOk result (λ y. yard_tracks y ≡ N.tracks network.now) }
    {
        let count = network.count();
        let mut records = Vec::with_capacity(heap, count)?;
        for number in 0..count {
            if let Some(track) = track_at(network, number) {
                records.push_reserved(track);
            }
        }
        Ok(Yard { records })
    }

    // The tracks, in rising number.
    pub fn tracks(&self) -> &[Track]
        ensures { result.now ≡ yard_tracks self.now }
    {
        self.records.as_slice()
    }
}
