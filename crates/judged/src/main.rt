// Reads a plan from standard input and labels of kind X from its arguments, one for each track, judges them, and prints the sheet
// and its totals, or why they are refused.
#![tactic(auto)]

use judging::judge;
use label::xor::Xor;
use listing::{MOST_BYTES, TOO_LONG, read_file, read_input, refused_text};
use sheet::record::Sheet;
use std::env;
use std::io::{Write, writer};
use std::rt::Env;
use table::Table;
use written::write_sheet;
use yard::Yard;

// The labels, decimal numbers of 64 bits, one to an argument. The program `labels` reads its words likewise; one function in a library
// would need an error type for both, which is no plainer than this line.
fn labels_given(rt: &(impl Env + AllocGlobal)) -> anyhow::Result<Vec<Xor>> {
    env::args(rt)?
        .skip(1)
        .map(|bits| Ok(Xor {
            bits: bits.parse()?,
        }))
        .try_collect(rt.alloc())
}

// Prints a sheet, and a line with its totals.
fn print_sheet(rt: &(impl Print + AllocGlobal), yard: &Yard, sheet: &Sheet) -> anyhow::Result<()> {
    let mut bytes = vec![in rt.alloc(); 0u8; 65536]?;
    let length = write_sheet(yard.tracks(), sheet, bytes.as_mut_slice())?;
    bytes.truncate(length);
    writer(rt).write_all(bytes.as_slice())?;
    let totals = sheet.totals();
    let (singles, classes, pairs) = (totals.singles, totals.classes, totals.pairs);
    let tracks = yard.tracks().len();
    print!(rt;
        "judged labels: tracks {tracks}, single {singles}, classes {classes}, pairs {pairs}\r\n"
    )?;
    Ok(())
}

// Judges labels on the tracks of a plan.
fn judge_plan(rt: &(impl Print + AllocGlobal), input: &[u8], labels: &[Xor]) -> anyhow::Result<()> {
    let mut table = Table::new(rt.alloc())?;
    if let Err(fault) = read_file(input, &mut table) {
        let text = refused_text(rt.alloc(), fault)?;
        print!(rt; "{text}")?;
        return Ok(());
    }
    let yard = Yard::of(rt.alloc(), &table)?;
    let mut sheet = Sheet::blank(rt.alloc())?;
    match judge(&yard, labels, &mut sheet) {
        Ok(()) => print_sheet(rt, &yard, &sheet),
        Err(refusal) => {
            let number = refusal.number();
            print!(rt; "refused {number}\r\n")?;
            Ok(())
        }
    }
}

fn run(rt: &(impl Env + Input + Print + AllocGlobal)) -> anyhow::Result<()> {
    let labels = labels_given(rt)?;
    let input = read_input(rt.alloc(), rt.reader())?;
    // a file that is too long is refused before memory is taken for a table
    if input.len() > MOST_BYTES {
        let text = refused_text(rt.alloc(), TOO_LONG)?;
        print!(rt; "{text}")?;
        return Ok(());
    }
    judge_plan(rt, input.as_slice(), labels.as_slice())
}

fn main(rt: HostRuntime) -> anyhow::Result<()> {
    run(&rt)
}
