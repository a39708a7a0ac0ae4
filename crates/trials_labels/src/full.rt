// Yards of 2,048 tracks on 512 points, in each kind.
use crate::lists::{alike, drawn, many_words};
use label::Label;
use label::both::Both;
use label::sum::Sum32;
use label::xor::Xor;
use labelling::{balances, label_tracks};
use network::Network;
use std::alloc::Global;
use std::process::Abort;
use std::test::Fail;
use table::Table;
use yard::Yard;

// 2,048 tracks, some of them loops, some parallel, and one in sixteen shut.
fn full_yard(heap: Global) -> Result<Yard, Fail> {
    let mut table = Table::new(heap)?;
    for number in 0..2048usize {
        table.lay((number * 7 % 512) as u16, (number * 13 / 4 % 512) as u16)?;
        if number % 16 == 3 {
            table.shut(number)?;
        }
    }
    Ok(Yard::of(heap, &table)?)
}

// One word too few is refused with 8 and leaves the list; just enough words and more draw the same labels, which balance.
fn check_full<K: Label>(rt: &impl Abort, heap: Global) -> Result<(), Fail> {
    let yard = full_yard(heap)?;
    let words = many_words(heap, 2048)?;
    let needed = yard.words_needed();
    assert!(rt; 0 < needed && needed < words.len());
    let mut labels = drawn::<K>(heap, words.as_slice())?;
    let before = drawn::<K>(heap, words.as_slice())?;
    let fewer = label_tracks(
        &yard,
        &words.as_slice()[..needed - 1],
        labels.as_mut_slice(),
    );
    assert_eq!(rt; fewer.err().map(|refusal| refusal.number()), Some(8));
    assert!(rt; alike(labels.as_slice(), before.as_slice()), "as it was");
    let enough = label_tracks(&yard, &words.as_slice()[..needed], labels.as_mut_slice());
    assert_eq!(rt; enough?, needed);
    assert!(rt; balances(&yard, labels.as_slice()));
    let mut again = before;
    assert_eq!(rt;
        label_tracks(&yard, words.as_slice(), again.as_mut_slice())?,
        needed
    );
    assert!(rt;
        alike(labels.as_slice(), again.as_slice()),
        "with more words"
    );
    Ok(())
}

#[test]
fn full_in_kind_x(rt: HostRuntime) -> Result<(), Fail> {
    check_full::<Xor>(&rt, rt.alloc())
}

#[test]
fn full_in_kind_s(rt: HostRuntime) -> Result<(), Fail> {
    check_full::<Sum32>(&rt, rt.alloc())
}

#[test]
fn full_in_kind_b(rt: HostRuntime) -> Result<(), Fail> {
    check_full::<Both<Xor, Sum32>>(&rt, rt.alloc())
}
