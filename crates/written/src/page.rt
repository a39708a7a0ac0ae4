// A caller's bytes, over which a text is put piece by piece.
ghost use Rattle.std.specs.Prelude.{◌≡◌, ◌+◌, ◌<◌, ◌≤◌, [], ◌∷◌, ◌++◌, length};
ghost use Rattle.written.specs.Lines.{decimal, mark_word, lead_field, line, sheet_text};
ghost use Rattle.written.specs.Pages.{Puts};

use network::track::Track;
use sheet::mark::Mark;

// The bytes, and the place behind what is put so far. What lies past their end is counted and not written, so that the same code
// measures a text and writes it. That there is room for a text stays in contracts: each text has its own length.
#[derive(Drop)]
pub(crate) struct Page<'a> {
    pub(crate) bytes: &'a mut [u8],
    pub(crate) at: usize,
}

// The word of a mark. A `Display` in its place could fail by its contract, and a sheet is written without fail.
fn mark_word(mark: Mark) -> &'static [u8]
    ensures { result.now ≡ mark_word mark }
{
    match mark {
        Mark::Shut => b"shut",
        Mark::Single => b"single",
        Mark::Mates { .. } => b"mates",
        Mark::Alone => b"alone",
    }
}

impl Page<'_> {
    // Puts a text.
    fn put(&mut self, text: &[u8])
        requires { self.old.at + length text.now ≤ 65536 }
        ensures { Puts self.old text.now self.new }
    {
        // byte by byte: a copy of slices would have to work out first how many bytes have room
        for byte in text {
            if self.at < self.bytes.len() {
                self.bytes[self.at] = *byte;
            }
            self.at += 1;
        }
    }

    // Puts the digits of a number above 0, and nothing for 0. By hand: the library's digits come with a crate that would have to be
    // trusted, or with a `Display`, which could fail by its contract.
    fn put_number(&mut self, number: usize)
        requires { (self.old.at + 5 ≤ 65536) × (number < 100000) }
        ensures put { Puts self.old (decimal number) self.new }
        ensures short { self.new.at ≤ self.old.at + 5 }
    {
        if number == 0 {
            return;
        }
        self.put_number(number / 10);
        self.put(&[b'0' + (number % 10) as u8]);
    }

    // Puts a number one higher than it is inside, and a comma.
    fn put_field(&mut self, inside: usize)
        requires { (self.old.at + 6 ≤ 65536) × (inside < 65536) }
        ensures put { Puts self.old (decimal (inside + 1) ++ (44 ∷ [])) self.new }
        ensures short { self.new.at ≤ self.old.at + 6 }
    {
        self.put_number(inside + 1);
        self.put(b",");
    }

    // Puts the lead, one higher, where the mark is mates, and else nothing.
    fn put_lead(&mut self, mark: Mark)
        requires { self.old.at + 5 ≤ 65536 }
        ensures put { Puts self.old (lead_field mark) self.new }
        ensures short { self.new.at ≤ self.old.at + 5 }
    {
        if let Mark::Mates { lead, .. } = mark {
            self.put_number(lead as usize + 1);
        }
    }

    // Puts the line of a track.
    fn put_line(&mut self, number: usize, track: Track, mark: Mark)
        requires { (self.old.at + 31 ≤ 65536) × (number < 2048) }
        ensures put { Puts self.old (line number track mark) self.new }
        ensures short { self.new.at ≤ self.old.at + 31 }
    {
        self.put_field(number);
        self.put_field(track.first as usize);
        self.put_field(track.second as usize);
        self.put(mark_word(mark));
        self.put(b",");
        self.put_lead(mark);
        self.put(b"\r\n");
    }

    // Puts the header, and a line for each track that has a mark.
    pub(crate) fn put_sheet(&mut self, tracks: &[Track], marks: &[Mark])
        requires front { self.old.at ≡ 0 }
        requires few { length marks.now ≤ 2048 }
        ensures put { Puts self.old (sheet_text tracks.now marks.now) self.new }
        ensures short { self.new.at ≤ 65536 }
    {
        self.put(b"track,first,second,mark,lead\r\n");
        for (number, (track, mark)) in tracks.iter().zip(marks).enumerate() {
            self.put_line(number, *track, *mark);
        }
    }
}
