// Written sheets: tracks and their marks as CSV, put into a caller's bytes.
//
// A caller hands `write_sheet` a list of tracks, a sheet and bytes, and learns how long the text is.
#![tactic(auto)]

ghost use Rattle.std.specs.Prelude.{◌≡◌, ◌≤◌, true, length, take, is_ok, IfOk};
ghost use Rattle.network.specs.Refusals.{numbered};
ghost use Rattle.sheet.specs.Meaning.{sheet_marks};
ghost use Rattle.written.specs.Lines.{sheet_text};
ghost use Rattle.written.specs.Places.{write_answer, bytes_after, Put};
ghost use Rattle.written.specs.Reading.{NoLeadingZero, ReadsBack, read_back, told};

use network::track::{Refusal, Track};
use page::Page;
use sheet::mark::Mark;
use sheet::record::Sheet;

mod page;

// Puts the text of a sheet over the bytes, from the front on, and tells its length.
fn put_over(bytes: &mut [u8], tracks: &[Track], marks: &[Mark]) -> usize
    requires { length marks.now ≤ 2048 }
    ensures put { Put bytes.old 0 (sheet_text tracks.now marks.now) bytes.new result }
    ensures short { result ≤ 65536 }
{
    let mut page = Page { bytes, at: 0 };
    page.put_sheet(tracks, marks);
    page.at
}

// Writes the text of the tracks and the sheet's marks into the front of the bytes, a line for each track that has a mark, and
// answers how many bytes it wrote; where the bytes are too few, refuses with 15 and writes nothing. 65,536 are enough.
pub fn write_sheet(tracks: &[Track], sheet: &Sheet, bytes: &mut [u8]) -> Result<usize, Refusal>
    ensures value { numbered result ≡ write_answer (sheet_text tracks.now (sheet_marks sheet.now)) bytes.old }
    ensures bytes { bytes.new ≡ bytes_after (sheet_text tracks.now (sheet_marks sheet.now)) bytes.old }
    ensures read { IfOk result (λ n. read_back (take n bytes.new) ≡ told 0 tracks.now (sheet_marks sheet.now)) }
    ensures enough { 65536 ≤ length bytes.old → is_ok result ≡ true }
{
    let marks = sheet.marks();
    // put over no bytes, the text is only counted
    let length = put_over(&mut [], tracks, marks);
    if bytes.len() < length {
        return Err(Refusal::TooFewBytes);
    }
    Ok(put_over(bytes, tracks, marks))
}

// Reading a written sheet gives each track, its points and its mark; no number has a leading zero.
pub fn reading_laws()
    ensures back { ReadsBack }
    ensures plain { NoLeadingZero }
{}
