// Track tables as text: what the program `tracktable` prints for the bytes of a plan file; and how all programs read such a file.
#![tactic(auto)]

ghost use Rattle.std.specs.Prelude.{◌≡◌, ◌+◌, ◌++◌, Some, IfOk, IfSome, string_bytes, take};
ghost use Rattle.network.specs.Refusals.{refusal_number};
ghost use Rattle.table.specs.Laying.{table_tracks};
ghost use Rattle.layout.specs.Plans.{answer_to, planned};
ghost use Rattle.listing.specs.Printed.{Printed};
ghost use Rattle.listing.specs.Rows.{header, rows, fields_text, loop_count, state_word, TableText, refused_text};
ghost use Rattle.listing.specs.Files.{reading_of};

use layout::faults::FileFault;
use network::Network;
use network::track::{Refusal, Track};
use plan::read_plan;
use std::alloc::{AllocError, Global};
use std::io::Read;
use std::{fmt, io};
use table::Table;
use yard::Yard;

// A longer file is refused unread.
pub const MOST_BYTES: usize = 65536;

// The fault of a longer file, which is read as no line: the format gives it the line 0.
pub const TOO_LONG: FileFault = FileFault {
    refusal: Refusal::OutOfPlace,
    line: 0,
};

// The bytes of a file, up to one more than the most: that one tells that there are more.
pub fn read_input<R: Read + Drop>(heap: Global, reader: R) -> io::Result<Vec<u8>>
    ensures { IfOk result (λ v. IfSome (R.remaining reader) (λ bytes. v.items ≡ take (MOST_BYTES + 1) bytes)) }
{
    let mut input = Vec::new(heap);
    reader.take(MOST_BYTES as u64 + 1).read_to_end(&mut input)?;
    Ok(input)
}

// Reads the plan of a file into a table, as `read_plan` does; a file that is too long is refused unread.
pub fn read_file(input: &[u8], table: &mut Table) -> Result<u16, FileFault>
    ensures value { result ≡ answer_to (reading_of input.now) }
    ensures tracks { table_tracks table.new ≡ planned (reading_of input.now) }
{
    if input.len() > MOST_BYTES {
        table.clear();
        return Err(TOO_LONG);
    }
    read_plan(input, table)
}

// The word for the state of a track: a `bool` prints other words.
pub fn state_word(shut: bool) -> &'static str
    ensures { result.now ≡ state_word shut }
{
    if shut { "shut" } else { "open" }
}

// The fields of a track at the front of its line, parted by commas: its number, its points and its state. The number is the one that is printed, one
// higher than inside, since one higher than any `usize` may be none.
#[derive(Clone, Copy)]
pub struct TrackFields {
    pub number: usize,
    pub track: Track,
}

impl fmt::Display for TrackFields {
    ghost output = { λ f. Some (fields_text f.number f.track) };

    fn fmt<W: fmt::Write>(&self, f: &mut fmt::Formatter<W>) -> fmt::Result {
        let number = self.number;
        let first = self.track.first as u32 + 1;
        let second = self.track.second as u32 + 1;
        let state = state_word(self.track.shut);
        write!(f, "{number},{first},{second},{state}")
    }
}

// The line for a refusal. A `Display` in its place would need a type of its own for one line.
pub fn refused_text(heap: Global, fault: FileFault) -> Result<String, AllocError>
    ensures { IfOk result (λ s. string_bytes s ≡ refused_text (refusal_number fault.refusal) fault.line) }
{
    let number = fault.refusal.number();
    let line = fault.line;
    format!(in heap; "refused {number} {line}\r\n")
}

// The header and the lines of the tracks.
fn rows_text(heap: Global, tracks: &[Track]) -> Result<String, AllocError>
    ensures { IfOk result (λ s. string_bytes s ≡ header ++ rows 0 tracks.now) }
{
    let mut text = String::from_str(heap, "track,first,second,state\r\n")?;
    for (number, track) in tracks.iter().enumerate() {
        let fields = TrackFields {
            number: number + 1,
            track: *track,
        };
        write!(text, "{fields}\r\n")?;
    }
    Ok(text)
}

// How many of the tracks are loops.
fn loop_count(tracks: &[Track]) -> usize
    ensures { result ≡ loop_count tracks.now }
{
    tracks
        .iter()
        .filter(|track| track.first == track.second)
        .count()
}

// The track table of a network that was read from a plan with so many points: CSV, and a line that counts.
pub fn table_text<N: Network>(heap: Global, network: &N, points: u16) -> Result<String, AllocError>
    ensures { IfOk result (λ s. TableText points (N.tracks network.now) (string_bytes s)) }
{
    let yard = Yard::of(heap, network)?;
    let mut text = rows_text(heap, yard.tracks())?;
    let tracks = yard.tracks().len();
    let loops = loop_count(yard.tracks());
    let groups = yard.group_count();
    let words = yard.words_needed();
    write!(
        text,
        "read a plan: tracks {tracks}, points {points}, loops {loops}, groups {groups}, words {words}\r\n"
    )?;
    Ok(text)
}

// What `tracktable` prints for a file: its track table, or the line that refuses it.
pub fn printed_text(heap: Global, input: &[u8]) -> Result<String, AllocError>
    ensures { IfOk result (λ s. Printed input.now (string_bytes s)) }
{
    // a file that is too long is refused before memory is taken for a table
    if MOST_BYTES < input.len() {
        return refused_text(heap, TOO_LONG);
    }
    let mut table = Table::new(heap)?;
    match read_file(input, &mut table) {
        Ok(points) => table_text(heap, &table, points),
        Err(fault) => refused_text(heap, fault),
    }
}

#[cfg(test)]
mod tests {
    use super::read_input;
    use std::test::Fail;

    #[test]
    fn reads_all_of_a_short_file(rt: HostRuntime) -> Result<(), Fail> {
        let input = read_input(rt.alloc(), b"p edge 1 0".as_slice())?;
        assert_eq!(&rt; input.as_slice(), b"p edge 1 0".as_slice());
        Ok(())
    }

    #[test]
    fn reads_one_byte_more_than_the_most(rt: HostRuntime) -> Result<(), Fail> {
        let file = [0; 70000];
        let input = read_input(rt.alloc(), file.as_slice())?;
        assert_eq!(&rt; input.len(), 65537);
        Ok(())
    }
}
