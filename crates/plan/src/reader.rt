// A plan that is read line by line.
ghost use Rattle.std.specs.Prelude.{◌≡◌, ◌+◌, ◌≤◌, ℕ, List, Some, Ok};
ghost use Rattle.layout.specs.Contents.{content, content_at, next_content};
ghost use Rattle.layout.specs.Grammar.{FirstLine};
ghost use Rattle.layout.specs.Layout.{lines, first_of, past_line};
ghost use Rattle.layout.specs.Lines.{line_of, comment};
ghost use Rattle.layout.specs.Places.{Sound, next_place, points_of};
ghost use Rattle.layout.specs.Plans.{read_next, place_after, number_after, line_at, end_at};
ghost use Rattle.layout.specs.declared.line.Place.TheVariants.{Start};
ghost use Rattle.plan.specs.Views.{first_text};

use crate::fields::until;
use crate::line::read_line;
use layout::faults::{FaultAt, FileFault, LineFault};
use layout::line::{Line, Place};

// The lines of a file that are still to be read, and where in the plan the next one stands.
#[derive(Drop)]
pub struct Reader<'a> {
    bytes: &'a [u8],
    // where the next line begins, which bounds its number
    at: usize,
    // the number of the next line, from 1
    number: usize,
    place: Place,
    ghost counted: { number ≤ at + 1 },
    ghost sound: { Sound place },
}

// Where the line after this one stands.
fn place_after(place: Place, line: Line) -> Place
    requires { Sound place }
    ensures { result ≡ next_place place (content line.entry) }
{
    match (line, place) {
        (Line::Comment(_), _) => place,
        (Line::Problem { points, edges }, _) => Place::Within {
            points,
            edges,
            laid: 0,
        },
        (Line::Edge { .. }, Place::Start) => Place::Start,
        (
            Line::Edge { .. },
            Place::Within {
                points,
                edges,
                laid,
            },
        ) => Place::Within {
            points,
            edges,
            laid: laid + 1,
        },
    }
}

// What a line says, or its fault with its number.
fn line_at<'a>(bytes: &'a [u8], place: Place, number: usize) -> Result<Line<'a>, FaultAt>
    ensures { content_at result ≡ line_at (line_of place bytes.now) number }
{
    read_line(bytes, place).map_err(|fault| FaultAt {
        fault,
        line: number,
    })
}

// A plan may end where every edge was read.
fn end_at(place: Place, number: usize) -> Result<(), FaultAt>
    ensures { result ≡ end_at place number }
{
    match place {
        Place::Within { edges, laid, .. } if laid == edges => Ok(()),
        _ => Err(FaultAt {
            fault: LineFault::OutOfPlace,
            line: number,
        }),
    }
}

impl<'a> Reader<'a> {
    ghost use Rattle.plan.specs.Unread.{unread};

    // Reads from the first line on.
    pub fn new(bytes: &'a [u8]) -> Reader<'a>
        ensures unread { unread result ≡ bytes.now }
        ensures place { result.place ≡ Start }
        ensures number { result.number ≡ 1 }
    {
        Reader {
            bytes,
            at: 0,
            number: 1,
            place: Place::Start,
        }
    }

    // How many points the problem line said that there are: 0 before it, where there are none, so that a plan that is read answers a number.
    pub fn points(&self) -> u16
        ensures { result ≡ points_of self.now.place }
    {
        match self.place {
            Place::Start => 0,
            Place::Within { points, .. } => points,
        }
    }

    // The bytes of the next line, if there is one.
    fn take_line(&mut self) -> Option<&'a [u8]>
        ensures value { first_text result ≡ first_of (lines (unread self.old)) }
        ensures unread { unread self.new ≡ past_line (unread self.old) }
        ensures place { self.new.place ≡ self.old.place }
        ensures number { self.new.number ≡ number_after (lines (unread self.old)) self.old.number }
    {
        if self.at >= self.bytes.len() {
            return None;
        }
        let rest = &self.bytes[self.at..];
        let end = until(rest, b'\n');
        // the line feed is no part of the line
        let step = if end < rest.len() { end + 1 } else { end };
        self.at += step;
        self.number += 1;
        Some(&rest[0..end])
    }

    // The next line, or None at the end of a complete plan. A comment is given as that very part of the file.
    pub fn next_line(&mut self) -> Result<Option<Line<'a>>, FileFault>
        ensures value { next_content result ≡ read_next (lines (unread self.old)) self.old.place self.old.number }
        ensures part { (line : List ℕ) → next_content result ≡ Ok (Some (comment line)) → FirstLine (unread self.old) line (unread self.new) }
        ensures unread { unread self.new ≡ past_line (unread self.old) }
        ensures place { self.new.place ≡ place_after self.old.place (next_content result) }
        ensures number { self.new.number ≡ number_after (lines (unread self.old)) self.old.number }
    {
        let number = self.number;
        let Some(bytes) = self.take_line() else {
            end_at(self.place, number)?;
            return Ok(None);
        };
        let line = line_at(bytes, self.place, number)?;
        self.place = place_after(self.place, line);
        Ok(Some(line))
    }
}
