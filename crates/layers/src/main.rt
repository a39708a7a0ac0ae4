// Layers on layers: a table, tied and annexed, and a fan, through the one interface.
#![tactic(auto)]

ghost use Rattle.std.specs.Prelude.{◌≡◌, true, [], ◌∷◌, is_ok, IfOk};
ghost use Rattle.annex.specs.Annexed.{annexed};
ghost use Rattle.tied.specs.Standing.{tied};
ghost use Rattle.network.specs.Refusals.{numbered};
ghost use Rattle.network.specs.Tracks.{open_track, state_answer, state_after};
ghost use Rattle.network.specs.declared.track.Refusal.{Refusal};
ghost use Rattle.network.specs.declared.stop.Stop.TheVariants.{Refused, NoMemory};
ghost use Rattle.layers.specs.declared.Fault.TheVariants.{Memory, Answered};
ghost use Rattle.layers.specs.Counts.{open_count};
ghost use Rattle.layers.specs.Piles.{pile_tracks};

use annex::Annex;
use fan::Fan;
use network::Network;
use network::stop::Stop;
use network::track::Refusal;
use std::alloc::Global;
use std::io;
use table::Table;
use tied::Tied;

// Why the program ends early. A type of its own, since the names of its cases are what is printed then.
#[derive(Debug, Drop)]
enum Fault {
    Memory,
    Answered(Refusal),
    Io,
}

impl From<Stop> for Fault {
    ghost from_gives = { λ stop fault. (stop ≡ NoMemory → fault ≡ Memory) × ((refusal : Refusal) → stop ≡ Refused refusal → fault ≡ Answered refusal) };

    fn from(stop: Stop) -> Fault {
        match stop {
            Stop::Refused(refusal) => Fault::Answered(refusal),
            Stop::NoMemory => Fault::Memory,
        }
    }
}

impl From<Refusal> for Fault {
    ghost from_gives = { λ refusal fault. fault ≡ Answered refusal };

    fn from(refusal: Refusal) -> Fault {
        Fault::Answered(refusal)
    }
}

impl From<io::Error> for Fault {
    fn from(_: io::Error) -> Fault {
        Fault::Io
    }
}

// How many tracks of any network are open.
fn open_count<N: Network>(network: &N) -> usize
    ensures { result ≡ open_count (N.tracks network.now) }
{
    // a loop: tried as a chain over the numbers, which the proof does not tie to the list of tracks
    let mut open = 0;
    for track in 0..network.count() {
        if network.is_open(track) {
            open += 1;
        }
    }
    open
}

// Shuts a track of this pile, by the interface alone.
fn shut_in_pile(pile: &mut Annex<Tied<Table>>, track: usize) -> Result<(), Refusal>
    ensures value { numbered result ≡ state_answer true (pile_tracks pile.old) track }
    ensures after { pile_tracks pile.new ≡ state_after true (pile_tracks pile.old) track }
{
    pile.shut(track)
}

// The same over any network below.
fn shut_above<N: Network>(pile: &mut Annex<Tied<N>>, track: usize) -> Result<(), Refusal>
    ensures { numbered result ≡ state_answer true (annexed (tied pile.old.below.stands (N.tracks pile.old.below.below)) pile.old.own.items) track }
{
    pile.shut(track)
}

// Two networks of one meaning answer alike, and mean the same after.
fn shut_both<N: Network, M: Network>(left: &mut N, right: &mut M, track: usize) -> bool
    requires { N.Network.tracks left.old ≡ M.Network.tracks right.old }
    ensures value { result ≡ is_ok (state_answer true (N.Network.tracks left.old) track) }
    ensures after { N.Network.tracks left.new ≡ M.Network.tracks right.new }
{
    let first = left.shut(track);
    let second = right.shut(track);
    first.is_ok() && second.is_ok()
}

fn open_in_pile(pile: &Annex<Tied<Table>>) -> usize
    ensures { result ≡ open_count (pile_tracks pile.now) }
{
    open_count(pile)
}

// Two tracks in a table, with 7 standing for the point 1, and a third track above.
fn build(heap: Global) -> Result<Annex<Tied<Table>>, Stop>
    ensures { IfOk result (λ p. pile_tracks p ≡ open_track 0 7 ∷ open_track 7 2 ∷ open_track 1 6 ∷ []) }
{
    let mut table = Table::new(heap)?;
    table.lay(0, 1)?;
    table.lay(1, 2)?;
    let mut tied = Tied::new(table);
    tied.tie(1, 7)?;
    let mut pile = Annex::new(heap, tied)?;
    pile.add(1, 6)?;
    Ok(pile)
}

// Two layers of one kind over a fan.
fn tower(heap: Global) -> Result<usize, Stop>
    ensures { IfOk result (λ n. n ≡ 8) }
{
    let mut fan = Fan::new();
    fan.size(3)?;
    let mut low = Annex::new(heap, Tied::new(fan))?;
    low.add(0, 511)?;
    let high = Tied::new(low);
    Ok(high.count())
}

// Tells the answer to the shutting of a track.
fn tell_shutting(rt: &impl Print, track: usize, answer: Result<(), Refusal>) -> Result<(), Fault> {
    match answer {
        Ok(()) => println!(rt; "shut track {track}: accepted")?,
        Err(refusal) => println!(rt; "shut track {track}: {refusal}")?,
    }
    Ok(())
}

// Tells the tracks of the pile, and how many are open.
fn tell_tracks(rt: &impl Print, pile: &Annex<Tied<Table>>) -> Result<(), Fault> {
    let count = pile.count();
    for track in 0..count {
        if let Some((first, second)) = pile.ends(track) {
            println!(rt; "track {track}: {first} to {second}")?;
        }
    }
    let open = open_in_pile(pile);
    println!(rt; "{count} tracks, {open} open")?;
    Ok(())
}

// Shuts a track of the pile, and again, and some beyond, and tells the answers.
fn tell_answers(rt: &impl Print, pile: &mut Annex<Tied<Table>>) -> Result<(), Fault> {
    shut_in_pile(pile, 2)?;
    let open = open_in_pile(pile);
    println!(rt; "shut track 2: accepted, {open} open")?;
    for track in 2..4 {
        tell_shutting(rt, track, pile.shut(track))?;
    }
    tell_shutting(rt, 7, shut_above(pile, 7))
}

// Tells that a fan and a tied one answer alike, and the tracks of a tower.
fn tell_fans(rt: &impl Print, heap: Global) -> Result<(), Fault> {
    let mut fan = Fan::new();
    let mut same = Tied::new(Fan::new());
    let both = shut_both(&mut fan, &mut same, 0);
    println!(rt; "a fan and a tied fan shut track 0 alike: {both}")?;
    let high = tower(heap)?;
    println!(rt; "a fan of 3, tied, annexed and tied again: {high} tracks")?;
    Ok(())
}

fn main(rt: HostRuntime) -> Result<(), Fault> {
    println!(rt; "a table of two tracks, with 7 standing for 1, and an annex of one track")?;
    let mut pile = build(rt.alloc())?;
    tell_tracks(&rt, &pile)?;
    tell_answers(&rt, &mut pile)?;
    tell_fans(&rt, rt.alloc())
}
