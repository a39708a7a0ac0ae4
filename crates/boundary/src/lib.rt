// Tracks as callers in C or Rust give them, as a list, and the yard of such tracks.
//
// A status tells such callers what went wrong: 4 for a point above 511, 5 for more than 2,048 tracks, 255 for want of memory.
#![tactic(auto)]

ghost use Rattle.std.specs.Prelude.{◌≡◌, ◌<◌, [], ◌∷◌, ◌++◌, length, MatchResult};
ghost use Rattle.network.specs.Tracks.{Within, Limits};
ghost use Rattle.table.specs.Laying.{table_tracks};
ghost use Rattle.yard.specs.Meaning.{yard_tracks};
ghost use Rattle.boundary.specs.Told.{status_of, Judged, Unmade};

use network::stop::Stop;
use network::track::{Refusal, Track};
use network::{Network, TRACKS, are_points};
use std::alloc::Global;
use table::Table;
use yard::Yard;

// Want of memory is no refusal, so its status is none of their numbers.
pub const NO_MEMORY: u8 = 255;

// The status of an answer: 0 where it was accepted, or else why not.
pub fn status_of(answer: Result<(), Stop>) -> u8
    ensures { result ≡ status_of answer }
{
    match answer {
        Ok(()) => 0,
        Err(Stop::Refused(why)) => why.number(),
        Err(Stop::NoMemory) => NO_MEMORY,
    }
}

// Whether tracks can make a yard: not where they are too many, or else where one has a point above 511.
pub fn judge(tracks: &[Track]) -> Result<(), Refusal>
    ensures { Judged tracks.now result }
{
    if tracks.len() > TRACKS {
        return Err(Refusal::Full);
    }
    if !tracks.iter().all(|one| are_points(one.first, one.second)) {
        return Err(Refusal::NoSuchPoint);
    }
    Ok(())
}

// Lays one more track in a table that has room for it.
fn put(table: &mut Table, one: &Track)
    requires within { Within one.now }
    requires room { length (table_tracks table.old) < TRACKS }
    ensures { table_tracks table.new ≡ table_tracks table.old ++ one.now ∷ [] }
{
    let number = table.count();
    let _ = table.lay(one.first, one.second);
    if one.shut {
        let _ = table.shut(number);
    }
}

// The yard of some tracks, or why there is none.
pub fn yard_of(heap: Global, tracks: &[Track]) -> Result<Yard, Stop>
    ensures { MatchResult result (λ y. Limits tracks.now × (yard_tracks y ≡ tracks.now)) (Unmade tracks.now) }
{
    judge(tracks)?;
    let mut table = Table::new(heap)?;
    for one in tracks {
        put(&mut table, one);
    }
    Ok(Yard::of(heap, &table)?)
}
