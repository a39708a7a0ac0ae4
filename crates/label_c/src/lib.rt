// Labels for callers that are written in C or Rust: the tracks, the words and the labels come as lists.
//
// Each function makes a yard of the tracks, once, and answers 0, or why it could not: 4 for a point above 511, 5 for more than 2,048
// tracks, 255 for want of memory, 7 for a list of labels that is not as long as the tracks, 8 for too few words. One that does not
// answer 0 writes nothing. C has no type parameters, so each kind has calls of its own.
// The C interface passes heap, tracks and the rest one by one, and so they go on.
#![tactic(auto)]

ghost use Rattle.std.specs.Prelude.{◌≡◌, length, slice_index};
ghost use Rattle.label.specs.Kinds.{xors, sums, word_label, low_bits};
ghost use Rattle.yard.specs.Meaning.{yard_tracks};
ghost use Rattle.boundary.specs.Told.{Tells};
ghost use Rattle.label_c.specs.Told.{Repeated, Labelled, Weighed};

use boundary::{status_of, yard_of};
use label::Label;
use label::sum::Sum32;
use label::xor::Xor;
use labelling::{balances, label_tracks};
use network::stop::Stop;
use network::track::{Refusal, Track};
use std::alloc::Global;
use yard::Yard;

// Labels the tracks of a yard, so many times.
fn label_times<K: Label>(
    yard: &Yard,
    words: &[u64],
    times: u32,
    labels: &mut [K],
) -> Result<(), Refusal>
    ensures { Repeated K.group (yard_tracks yard.now) (λ i. K.drawn (slice_index words.now i)) (length words.now) times labels.old labels.new result }
{
    for _round in 0..times {
        label_tracks(yard, words, labels)?;
    }
    Ok(())
}

// The same, of the yard of these tracks.
fn label_given<K: Label>(
    heap: Global,
    tracks: &[Track],
    words: &[u64],
    times: u32,
    labels: &mut [K],
) -> Result<(), Stop>
    ensures { Labelled K.group tracks.now (λ i. K.drawn (slice_index words.now i)) (length words.now) times labels.old labels.new result }
{
    let yard = yard_of(heap, tracks)?;
    label_times(&yard, words, times, labels)?;
    Ok(())
}

// Writes whether labels balance on these tracks.
fn weigh_given<K: Label>(
    heap: Global,
    tracks: &[Track],
    labels: &[K],
    balanced: &mut bool,
) -> Result<(), Stop>
    ensures { Weighed K.group tracks.now labels.now balanced.old balanced.new result }
{
    let yard = yard_of(heap, tracks)?;
    *balanced = balances(&yard, labels);
    Ok(())
}

// Writes the labelling of these tracks in kind X that the words draw, so many times.
#[unsafe(no_mangle)]
pub extern "C" fn label_xor(
    heap: Global,
    tracks: &[Track],
    words: &[u64],
    times: u32,
    labels_x: &mut [Xor],
) -> u8
    ensures { Tells (Labelled xors tracks.now (λ i. word_label (slice_index words.now i)) (length words.now) times labels_x.old labels_x.new) result }
{
    status_of(label_given(heap, tracks, words, times, labels_x))
}

// Writes the labelling of these tracks in kind S that the words draw, so many times.
#[unsafe(no_mangle)]
pub extern "C" fn label_sum(
    heap: Global,
    tracks: &[Track],
    words: &[u64],
    times: u32,
    labels_s: &mut [Sum32],
) -> u8
    ensures { Tells (Labelled sums tracks.now (λ i. low_bits (slice_index words.now i)) (length words.now) times labels_s.old labels_s.new) result }
{
    status_of(label_given(heap, tracks, words, times, labels_s))
}

// Writes whether labels of kind X balance on these tracks.
#[unsafe(no_mangle)]
pub extern "C" fn xor_balances(
    heap: Global,
    tracks: &[Track],
    labels_x: &[Xor],
    balanced: &mut bool,
) -> u8
    ensures { Tells (Weighed xors tracks.now labels_x.now balanced.old balanced.new) result }
{
    status_of(weigh_given(heap, tracks, labels_x, balanced))
}

// Writes whether labels of kind S balance on these tracks.
#[unsafe(no_mangle)]
pub extern "C" fn sum_balances(
    heap: Global,
    tracks: &[Track],
    labels_s: &[Sum32],
    balanced: &mut bool,
) -> u8
    ensures { Tells (Weighed sums tracks.now labels_s.now balanced.old balanced.new) result }
{
    status_of(weigh_given(heap, tracks, labels_s, balanced))
}
