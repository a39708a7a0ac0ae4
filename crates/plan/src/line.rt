// Reads one line of a plan.
ghost use Rattle.std.specs.Prelude.{◌≡◌, ◌∷◌, codes};
ghost use Rattle.std.specs.Str.{bytes_eq};
ghost use Rattle.layout.specs.Contents.{content_of};
ghost use Rattle.layout.specs.Layout.{fields};
ghost use Rattle.layout.specs.Lines.{line_of, edge_points, by_letter, problem_line, edge_line, parted};

use crate::fields::Fields;
use layout::faults::LineFault;
use layout::line::{Line, Place};

// Whether the letter is the whole line, or a space follows it.
fn is_parted(rest: &[u8]) -> bool
    ensures { result ≡ parted rest.now }
{
    match rest {
        [] => true,
        [first, ..] => *first == b' ',
    }
}

fn is_edge(word: &[u8]) -> bool
    ensures { result ≡ bytes_eq word.now (codes "edge") }
{
    word == b"edge".as_slice()
}

// What follows the letter p.
fn problem<'a>(rest: &'a [u8], place: Place) -> Result<Line<'a>, LineFault>
    ensures { content_of result ≡ problem_line place (fields rest.now) }
{
    let mut fields = Fields::of(rest);
    let Some(word) = fields.field() else {
        return Err(LineFault::UnknownKind);
    };
    if !is_edge(word) {
        return Err(LineFault::UnknownKind);
    }
    let Place::Start = place else {
        return Err(LineFault::OutOfPlace);
    };
    let (points, edges) = fields.numbers(0, (512, 2048))?;
    Ok(Line::Problem { points, edges })
}

// How many points there are for an edge to join: None where an edge is out of place.
fn edge_points(place: Place) -> Option<u16>
    ensures { result ≡ edge_points place }
{
    match place {
        Place::Within {
            points,
            edges,
            laid,
        } if laid < edges => Some(points),
        _ => None,
    }
}

// What follows the letter e.
fn edge<'a>(rest: &'a [u8], place: Place) -> Result<Line<'a>, LineFault>
    ensures { content_of result ≡ edge_line place (fields rest.now) }
{
    let Some(points) = edge_points(place) else {
        return Err(LineFault::OutOfPlace);
    };
    let mut fields = Fields::of(rest);
    let (first, second) = fields.numbers(1, (points, points))?;
    Ok(Line::Edge {
        first: first - 1,
        second: second - 1,
    })
}

// What a line says by its letter.
fn by_letter<'a>(
    line: &'a [u8],
    letter: u8,
    rest: &'a [u8],
    place: Place,
) -> Result<Line<'a>, LineFault>
    requires { line.now ≡ letter ∷ rest.now }
    ensures { content_of result ≡ by_letter place letter rest.now }
{
    match char::from(letter) {
        'c' => Ok(Line::Comment(line)),
        'p' => problem(rest, place),
        'e' => edge(rest, place),
        _ => Err(LineFault::UnknownKind),
    }
}

// What a line says that stands at this place.
pub(crate) fn read_line<'a>(line: &'a [u8], place: Place) -> Result<Line<'a>, LineFault>
    ensures { content_of result ≡ line_of place line.now }
{
    let [letter, rest @ ..] = line else {
        return Err(LineFault::UnknownKind);
    };
    if !is_parted(rest) {
        return Err(LineFault::UnknownKind);
    }
    by_letter(line, *letter, rest, place)
}
