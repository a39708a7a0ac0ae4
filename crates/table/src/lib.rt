// A network that is laid track by track and keeps a record of each.
//
// `Table::new` takes the memory for all 2,048 tracks at once; no later call needs any.
#![tactic(auto)]

ghost use Rattle.std.specs.Prelude.{◌≡◌, ◌≤◌, [], IfOk, vec_len, vec_capacity};
ghost use Rattle.network.specs.Refusals.{numbered};
ghost use Rattle.network.specs.Tracks.{Points, with_state};

use network::track::{Refusal, Track};
use network::{Network, TRACKS, are_points, change};
use std::alloc::{AllocError, Global};

// Contracts see a table by `table_tracks` and not by a Model, whose callers would not know the limits: the law of `Network` needs them.
#[derive(Drop)]
pub struct Table {
    records: Vec<Track>,
    ghost few: { vec_len records ≤ 2048 },
    ghost room: { 2048 ≤ vec_capacity records },
    ghost points: { Points records.items },
}

impl Table {
    ghost use Rattle.table.specs.Laying.{table_tracks, lay_answer, lay_after};

    // An empty table, with the memory for all the tracks that it can take.
    pub fn new(heap: Global) -> Result<Table, AllocError>
        ensures { IfOk result (λ t. table_tracks t ≡ []) }
    {
        let records = Vec::with_capacity(heap, TRACKS)?;
        Ok(Table { records })
    }

    // Lays an open track after the others, or refuses with 4 or 5 and changes nothing.
    pub fn lay(&mut self, first: u16, second: u16) -> Result<(), Refusal>
        ensures value { numbered result ≡ lay_answer (table_tracks self.old) first second }
        ensures after { table_tracks self.new ≡ lay_after (table_tracks self.old) first second }
    {
        if !are_points(first, second) {
            return Err(Refusal::NoSuchPoint);
        }
        if self.records.len() >= TRACKS {
            return Err(Refusal::Full);
        }
        self.records.push_reserved(Track::open(first, second));
        Ok(())
    }

    // Takes all tracks away.
    pub fn clear(&mut self)
        ensures { table_tracks self.new ≡ [] }
    {
        self.records.clear();
    }
}

// Sets the state of one record.
fn set_shut(one: &mut Track, shut: bool)
    ensures { one.new ≡ with_state shut one.old }
{
    one.shut = shut;
}

impl Network for Table {
    ghost use Rattle.table.specs.Laying.{table_tracks};
    ghost use Rattle.table.specs.Held.{limits_table};

    ghost tracks = { table_tracks };

    ghost limits = { limits_table };

    fn count(&self) -> usize {
        self.records.len()
    }

    fn ends(&self, track: usize) -> Option<(u16, u16)> {
        self.records.get(track).map(|record| record.ends())
    }

    fn is_open(&self, track: usize) -> bool {
        self.records
            .get(track)
            .is_some_and(|record| record.is_open())
    }

    // Lends the one record of the track to the function that sets its state.
    fn set_state(&mut self, track: usize, shut: bool) -> Result<(), Refusal> {
        let record = self.records.get_mut(track).ok_or(Refusal::NoSuchTrack)?;
        change(shut, record.shut)?;
        set_shut(record, shut);
        Ok(())
    }
}
