// Yards of 512 points and 2,048 tracks, in each kind.
use crate::hands::{check_totals, judged, judged_labels};
use boundary::yard_of;
use label::Label;
use label::both::Both;
use label::sum::Sum32;
use label::xor::Xor;
use network::track::Track;
use sheet::record::Sheet;
use std::alloc::{AllocError, Global};
use std::process::Abort;
use std::test::Fail;
use table::Table;
use yard::Yard;

// A ring of 512 points; or from each point to the next one track after another, round and round, four times.
fn ring(heap: Global, tracks: u16) -> Result<Yard, Fail> {
    let mut table = Table::new(heap)?;
    for number in 0..tracks {
        table.lay(number % 512, (number + 1) % 512)?;
    }
    Ok(Yard::of(heap, &table)?)
}

// A word that looks like chance.
fn mixed(number: u64) -> u64 {
    let spread = number.wrapping_mul(0x9e37_79b9_7f4a_7c15);
    let folded = (spread ^ (spread >> 30)).wrapping_mul(0xbf58_476d_1ce4_e5b9);
    (folded ^ (folded >> 27)).wrapping_mul(0x94d0_49bb_1331_11eb)
}

// So many words.
fn words(heap: Global) -> Result<Vec<u64>, AllocError> {
    (1..2048u64).map(mixed).collect(heap)
}

// The ring is one class; with each track four times, all are alone.
fn check_rings<K: Label>(rt: &impl Abort, heap: Global, letter: u8) -> Result<(), Fail> {
    let mut sheet = Sheet::blank(heap)?;
    let words = words(heap)?;
    let once = ring(heap, 512)?;
    assert_eq!(rt;
        judged::<K>(heap, &once, words.as_slice(), &mut sheet)?,
        None
    );
    check_totals(rt, &sheet, 0, 1, 130_816, letter);
    let full = ring(heap, 2048)?;
    assert_eq!(rt;
        judged::<K>(heap, &full, words.as_slice(), &mut sheet)?,
        None
    );
    check_totals(rt, &sheet, 0, 0, 0, letter);
    Ok(())
}

#[test]
fn full_rings(rt: HostRuntime) -> Result<(), Fail> {
    check_rings::<Xor>(&rt, rt.alloc(), b'X')?;
    check_rings::<Sum32>(&rt, rt.alloc(), b'S')?;
    check_rings::<Both<Sum32, Xor>>(&rt, rt.alloc(), b'B')
}

// A path of 511 tracks: all bridges, and no words.
#[test]
fn a_path(rt: HostRuntime) -> Result<(), Fail> {
    let mut sheet = Sheet::blank(rt.alloc())?;
    let path = ring(rt.alloc(), 511)?;
    assert_eq!(rt; judged::<Xor>(rt.alloc(), &path, &[], &mut sheet)?, None);
    check_totals(&rt, &sheet, 511, 0, 0, b'X');
    Ok(())
}

// Two labels of kind B are opposite only where both parts are: (5, 9), (5, -9) and (-10, 0) are all unlike.
#[test]
fn one_sign_for_both_parts(rt: HostRuntime) -> Result<(), Fail> {
    let mut sheet = Sheet::blank(rt.alloc())?;
    let three = yard_of(
        rt.alloc(),
        &[Track::open(0, 1), Track::open(0, 1), Track::open(0, 1)],
    )?;
    let words = [38_654_705_669, 18_446_744_035_054_845_957, 4_294_967_286];
    assert_eq!(rt;
        judged_labels::<Both<Sum32, Sum32>>(rt.alloc(), &three, &words, &mut sheet)?,
        None
    );
    check_totals(&rt, &sheet, 0, 0, 0, b'B');
    Ok(())
}

// Two bridges are two single tracks and no class.
#[test]
fn bridges_are_no_class(rt: HostRuntime) -> Result<(), Fail> {
    let mut sheet = Sheet::blank(rt.alloc())?;
    let path = ring(rt.alloc(), 2)?;
    assert_eq!(rt; judged::<Sum32>(rt.alloc(), &path, &[], &mut sheet)?, None);
    check_totals(&rt, &sheet, 2, 0, 0, b'S');
    Ok(())
}
