// Yards for callers that are written in C or Rust: the tracks come as a list, and an answer is asked for a number of times.
//
// Each function makes a yard of the tracks, once, and answers 0, or why it could not: 4 for a point above 511, 5 for more than 2,048
// tracks, 7 for a list of flags that is not as long as the tracks, 255 for want of memory. One that does not answer 0 writes nothing.
// C cannot pass a method as a question, so each question has a call of its own.
// The C interface passes heap, tracks and the rest one by one, and so they go on.
#![tactic(auto)]

ghost use Rattle.std.specs.Prelude.{◌≡◌, length};
ghost use Rattle.std.specs.Fn.{FnReturnsAt};
ghost use Rattle.graph.specs.Forests.{WordsNeeded};
ghost use Rattle.graph.specs.Groups.{GroupCount};
ghost use Rattle.yard.specs.Meaning.{yard_tracks};
ghost use Rattle.boundary.specs.Told.{Tells};
ghost use Rattle.yard_c.specs.Told.{AsksCount, Timed, Marked, CountOf, Summed, Flagged};

use boundary::{judge, status_of, yard_of};
use network::stop::Stop;
use network::track::{Refusal, Track};
use std::alloc::Global;
use yard::Yard;

// What a question answers of a yard, so many times over.
fn sum_asked<F: Fn(&Yard) -> usize>(yard: &Yard, times: u32, ask: F) -> u64
    requires asked { F.IsAlwaysCallable ask }
    requires count { AsksCount (FnReturnsAt F.Fn ask) }
    ensures { Timed (FnReturnsAt F.Fn ask yard.now) times result }
{
    let mut sum = 0;
    for _turn in 0..times {
        sum += ask(yard) as u64;
    }
    sum
}

// The same, of the yard of these tracks.
fn sum_given<F: Fn(&Yard) -> usize>(
    heap: Global,
    tracks: &[Track],
    times: u32,
    ask: F,
    sum: &mut u64,
) -> Result<(), Stop>
    requires asked { F.IsAlwaysCallable ask }
    requires count { AsksCount (FnReturnsAt F.Fn ask) }
    ensures { Summed (CountOf (FnReturnsAt F.Fn ask)) tracks.now times sum.old sum.new result }
{
    let yard = yard_of(heap, tracks)?;
    *sum = sum_asked(&yard, times, ask);
    Ok(())
}

// Tells the forest of a yard, so many times.
fn mark_forest(yard: &Yard, times: u32, flags: &mut [bool])
    requires { length flags.old ≡ length (yard_tracks yard.now) }
    ensures { Marked (yard_tracks yard.now) times flags.old flags.new }
{
    for _round in 0..times {
        let _ = yard.forest(flags);
    }
}

// The same, of the yard of these tracks.
fn flag_given(heap: Global, tracks: &[Track], times: u32, flags: &mut [bool]) -> Result<(), Stop>
    ensures { Flagged tracks.now times flags.old flags.new result }
{
    judge(tracks)?;
    if flags.len() != tracks.len() {
        return Err(Stop::Refused(Refusal::WrongLength));
    }
    let yard = yard_of(heap, tracks)?;
    mark_forest(&yard, times, flags);
    Ok(())
}

// Writes the words that the yard of these tracks needs, so many times over.
#[unsafe(no_mangle)]
pub extern "C" fn yard_words_needed(heap: Global, tracks: &[Track], times: u32, sum: &mut u64) -> u8
    ensures { Tells (Summed WordsNeeded tracks.now times sum.old sum.new) result }
{
    status_of(sum_given(heap, tracks, times, Yard::words_needed, sum))
}

// Writes the number of groups in the yard of these tracks, so many times over.
#[unsafe(no_mangle)]
pub extern "C" fn yard_group_count(heap: Global, tracks: &[Track], times: u32, sum: &mut u64) -> u8
    ensures { Tells (Summed GroupCount tracks.now times sum.old sum.new) result }
{
    status_of(sum_given(heap, tracks, times, Yard::group_count, sum))
}

// Tells of each of these tracks whether it is in the forest of their yard, so many times.
#[unsafe(no_mangle)]
pub extern "C" fn yard_forest(heap: Global, tracks: &[Track], times: u32, flags: &mut [bool]) -> u8
    ensures { Tells (Flagged tracks.now times flags.old flags.new) result }
{
    status_of(flag_given(heap, tracks, times, flags))
}
