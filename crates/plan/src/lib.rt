// Reads plan files into tables.
//
// `read_plan(bytes, &mut table)` leaves the tracks of an accepted plan in the table, all open, and answers
// how many points it has. `Reader` gives the lines one by one.
#![tactic(auto)]

ghost use Rattle.std.specs.Prelude.{◌≡◌, true, [], is_ok, if◌then◌else◌};
ghost use Rattle.layout.specs.Contents.{content};
ghost use Rattle.layout.specs.FileFaults.{Answered};
ghost use Rattle.layout.specs.Plans.{plan_of, answer_to, planned};
ghost use Rattle.plan.specs.AfterLine.{after_line};
ghost use Rattle.table.specs.Laying.{table_tracks};

use layout::faults::FileFault;
use layout::line::Line;
use reader::Reader;
use table::Table;

mod fields;
mod line;
pub mod reader;

// Lays the track of an edge. In a plan there is room for it, since a plan keeps to the limits of a table.
fn lay_line(line: Line, table: &mut Table)
    ensures { table_tracks table.new ≡ after_line (table_tracks table.old) (content line.entry) }
{
    if let Line::Edge { first, second } = line {
        let _ = table.lay(first, second);
    }
}

// Lays the tracks of a plan in an empty table, up to the first fault.
fn lay_plan(bytes: &[u8], table: &mut Table) -> Result<u16, FileFault>
    requires { table_tracks table.old ≡ [] }
    ensures value { result ≡ answer_to (plan_of bytes.now) }
    ensures tracks { is_ok result ≡ true → table_tracks table.new ≡ planned (plan_of bytes.now) }
{
    let mut reader = Reader::new(bytes);
    while let Some(line) = reader.next_line()? {
        lay_line(line, table);
    }
    Ok(reader.points())
}

// Takes away the tracks that were laid before a file was refused.
fn clear_refused(answer: &Result<u16, FileFault>, laid: &mut Table)
    ensures { table_tracks laid.new ≡ (if is_ok answer.now then table_tracks laid.old else []) }
{
    if answer.is_err() {
        laid.clear();
    }
}

// Reads a plan into a table, whatever that held, and answers how many points the plan has:
// the table then has the plan's own tracks, all open, or none where the file is refused.
pub fn read_plan(bytes: &[u8], table: &mut Table) -> Result<u16, FileFault>
    ensures value { result ≡ answer_to (plan_of bytes.now) }
    ensures tracks { table_tracks table.new ≡ planned (plan_of bytes.now) }
    ensures law { Answered bytes.now result (table_tracks table.new) }
{
    table.clear();
    let answer = lay_plan(bytes, table);
    clear_refused(&answer, table);
    answer
}
