// What is printed: a line for each track with its labels, or why there are none.
//
// A yard and words go on by themselves: each is used by one call, and a struct of two references would say no more.
ghost use Rattle.std.specs.Prelude.{◌≡◌, ◌<◌, ◌≤◌, ◌++◌, length, IfOk, OnOk, string_bytes};
ghost use Rattle.network.specs.Refusals.{refusal_number};
ghost use Rattle.yard.specs.Meaning.{yard_tracks};
ghost use Rattle.labels.specs.Draws.{Labels, OneEach};
ghost use Rattle.labels.specs.Printed.{Drawing, LabelsText, Printed};
ghost use Rattle.labels.specs.Rows.{header, row, rows, balance_words, too_few_text};

use crate::drawing::Drawn;
use label::both::Both;
use label::sum::Sum32;
use label::xor::Xor;
use listing::{MOST_BYTES, TOO_LONG, TrackFields, read_file, refused_text};
use network::stop::Stop;
use network::track::{Refusal, Track};
use std::alloc::{AllocError, Global};
use table::Table;
use yard::Yard;

// Appends the line of a track with its labels.
fn push_row(
    text: &mut String,
    number: usize,
    track: Track,
    x: &Xor,
    s: &Sum32,
    b: &Both<Xor, Sum32>,
) -> Result<(), AllocError>
    requires { number < 2048 }
    ensures { OnOk result (string_bytes text.new ≡ string_bytes text.old ++ row number track x.now s.now b.now) }
{
    let fields = TrackFields {
        number: number + 1,
        track,
    };
    let bits = x.bits;
    let value = s.value;
    let left = b.left.bits;
    let right = b.right.value;
    write!(text, "{fields},{bits},{value},{left},{right}\r\n")
}

// The words for whether labels balance: a `bool` prints other words.
fn balance_words(balanced: bool) -> &'static str
    ensures { result.now ≡ balance_words balanced }
{
    if balanced {
        "they balance"
    } else {
        "they do not balance"
    }
}

// The lines for a refusal, and how many words there would have to be. A `Display` in its place would need a type of its own for them.
fn too_few_text(
    heap: Global,
    refusal: Refusal,
    needed: usize,
    given: usize,
) -> Result<String, AllocError>
    ensures { IfOk result (λ t. string_bytes t ≡ too_few_text (refusal_number refusal) needed given) }
{
    let number = refusal.number();
    format!(in heap; "refused {number}\r\nwords needed {needed}, words given {given}\r\n")
}

// The header, and the lines of the tracks.
fn rows_text(heap: Global, tracks: &[Track], drawn: &Drawn) -> Result<String, AllocError>
    requires few { length tracks.now ≤ 2048 }
    requires each { OneEach tracks.now drawn.now.xors.items drawn.now.sums.items drawn.now.pairs.items }
    ensures { IfOk result (λ t. string_bytes t ≡ header ++ rows tracks.now drawn.now.xors.items drawn.now.sums.items drawn.now.pairs.items (length tracks.now)) }
{
    let mut text = String::from_str(heap, "track,first,second,state,X,S,B left,B right\r\n")?;
    let labels = drawn.xors.iter().zip(&drawn.sums).zip(&drawn.pairs);
    for (number, (track, ((x, s), b))) in tracks.iter().zip(labels).enumerate() {
        push_row(&mut text, number, *track, x, s, b)?;
    }
    Ok(text)
}

// The labels of a yard, drawn from so many words of which so many are needed.
fn drawn_text(
    heap: Global,
    yard: &Yard,
    drawn: &Drawn,
    needed: usize,
    words: &[u64],
) -> Result<String, AllocError>
    requires { Labels words.now (yard_tracks yard.now) drawn.now.xors.items drawn.now.sums.items drawn.now.pairs.items }
    ensures { IfOk result (λ t. Drawing words.now (yard_tracks yard.now) needed (string_bytes t)) }
{
    let mut text = rows_text(heap, yard.tracks(), drawn)?;
    let tracks = yard.tracks().len();
    let given = words.len();
    let balance = balance_words(drawn.balance(yard));
    write!(
        text,
        "drew labels: tracks {tracks}, words needed {needed}, words given {given}, {balance}\r\n"
    )?;
    Ok(text)
}

// The labels of a yard that words draw, or that there are too few.
fn labels_text(heap: Global, yard: &Yard, words: &[u64]) -> Result<String, AllocError>
    ensures { IfOk result (λ t. LabelsText words.now (yard_tracks yard.now) (string_bytes t)) }
{
    let needed = yard.words_needed();
    match Drawn::of(heap, yard, words) {
        Ok(drawn) => drawn_text(heap, yard, &drawn, needed, words),
        Err(Stop::Refused(refusal)) => too_few_text(heap, refusal, needed, words.len()),
        Err(Stop::NoMemory) => Err(AllocError),
    }
}

// What is printed for a file and words: the labels, or the lines that refuse them.
pub fn printed_text(heap: Global, input: &[u8], words: &[u64]) -> Result<String, AllocError>
    ensures { IfOk result (λ t. Printed words.now input.now (string_bytes t)) }
{
    // a file that is too long is refused before memory is taken for a table
    if input.len() > MOST_BYTES {
        return refused_text(heap, TOO_LONG);
    }
    let mut table = Table::new(heap)?;
    match read_file(input, &mut table) {
        Ok(_) => labels_text(heap, &Yard::of(heap, &table)?, words),
        Err(fault) => refused_text(heap, fault),
    }
}
