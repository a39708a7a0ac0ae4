// Small yards worked out.
use crate::lists::{alike, drawn};
use boundary::yard_of;
use fan::Fan;
use label::Label;
use label::sum::Sum32;
use label::xor::Xor;
use labelling::{balances, label_tracks};
use network::Network;
use network::track::Track;
use std::alloc::Global;
use std::process::Abort;
use std::test::Fail;
use yard::Yard;

// The words are just as many as are needed, and draw these labels, each given by a word that draws it; the labels balance.
fn check_draws<K: Label>(
    rt: &impl Abort,
    heap: Global,
    yard: &Yard,
    words: &[u64],
    expected: &[u64],
) -> Result<(), Fail> {
    let expected = drawn::<K>(heap, expected)?;
    let mut labels = drawn::<K>(heap, &[77; 8])?;
    assert!(rt; expected.len() <= 8);
    labels.truncate(expected.len());
    assert_eq!(rt;
        label_tracks(yard, words, labels.as_mut_slice())?,
        words.len()
    );
    assert!(rt; alike(labels.as_slice(), expected.as_slice()));
    assert!(rt; balances(yard, labels.as_slice()));
    Ok(())
}

#[test]
fn parallel_tracks(rt: HostRuntime) -> Result<(), Fail> {
    let two = yard_of(rt.alloc(), &[Track::open(0, 1), Track::open(0, 1)])?;
    check_draws::<Sum32>(&rt, rt.alloc(), &two, &[6], &[4_294_967_290, 6])?;
    let three = yard_of(
        rt.alloc(),
        &[Track::open(0, 1), Track::open(0, 1), Track::open(0, 1)],
    )?;
    check_draws::<Xor>(&rt, rt.alloc(), &three, &[3, 3], &[0, 3, 3])?;
    check_draws::<Xor>(&rt, rt.alloc(), &three, &[3, 5], &[6, 3, 5])
}

#[test]
fn loops_and_bridges(rt: HostRuntime) -> Result<(), Fail> {
    let ring = yard_of(rt.alloc(), &[Track::open(0, 0)])?;
    check_draws::<Xor>(&rt, rt.alloc(), &ring, &[1], &[1])?;
    let bridge = yard_of(rt.alloc(), &[Track::open(0, 1)])?;
    check_draws::<Xor>(&rt, rt.alloc(), &bridge, &[], &[0])?;
    let none = yard_of(rt.alloc(), &[])?;
    check_draws::<Xor>(&rt, rt.alloc(), &none, &[], &[])
}

#[test]
fn fan_of_three(rt: HostRuntime) -> Result<(), Fail> {
    let mut fan = Fan::new();
    fan.size(3)?;
    check_draws::<Sum32>(
        &rt,
        rt.alloc(),
        &Yard::of(rt.alloc(), &fan)?,
        &[5, 9],
        &[5, 4, 4_294_967_287, 4_294_967_291, 4_294_967_287, 5, 9],
    )?;
    fan.shut(1)?;
    let shut = Yard::of(rt.alloc(), &fan)?;
    check_draws::<Xor>(&rt, rt.alloc(), &shut, &[9], &[9, 0, 9, 9, 9, 9, 9])
}

// Whether the labels that these words draw balance.
fn do_balance<K: Label>(heap: Global, yard: &Yard, words: &[u64]) -> Result<bool, Fail> {
    let labels = drawn::<K>(heap, words)?;
    Ok(balances(yard, labels.as_slice()))
}

#[test]
fn what_does_not_balance(rt: HostRuntime) -> Result<(), Fail> {
    let two = yard_of(rt.alloc(), &[Track::open(0, 1), Track::open(1, 0)])?;
    assert!(rt; do_balance::<Sum32>(rt.alloc(), &two, &[6, 6])?);
    assert!(rt;
        !do_balance::<Sum32>(rt.alloc(), &two, &[6, 7])?,
        "a wrong label"
    );
    assert!(rt;
        !do_balance::<Sum32>(rt.alloc(), &two, &[6, 4_294_967_290])?,
        "a wrong sign"
    );
    assert!(rt;
        !do_balance::<Sum32>(rt.alloc(), &two, &[6])?,
        "a list too short"
    );
    assert!(rt;
        !do_balance::<Sum32>(rt.alloc(), &two, &[6, 6, 0])?,
        "a list too long"
    );
    let mut fan = Fan::new();
    fan.size(3)?;
    fan.shut(1)?;
    let shut = Yard::of(rt.alloc(), &fan)?;
    assert!(rt; do_balance::<Xor>(rt.alloc(), &shut, &[0; 7])?);
    assert!(rt;
        !do_balance::<Xor>(rt.alloc(), &shut, &[0, 1, 0, 0, 0, 0, 0])?,
        "a shut track"
    );
    Ok(())
}

// A list of another length is refused with 7, even with too few words, and stays as it was.
#[test]
fn a_list_of_another_length(rt: HostRuntime) -> Result<(), Fail> {
    let three = yard_of(
        rt.alloc(),
        &[Track::open(0, 1), Track::open(0, 1), Track::open(0, 1)],
    )?;
    let lists: [&[u64]; 3] = [&[], &[4, 5], &[4, 5, 6, 7]];
    for list in &lists {
        let mut labels = drawn::<Xor>(rt.alloc(), *list)?;
        let enough = label_tracks(&three, &[1, 2], labels.as_mut_slice());
        assert_eq!(rt; enough.err().map(|refusal| refusal.number()), Some(7));
        let too_few = label_tracks(&three, &[], labels.as_mut_slice());
        assert_eq!(rt; too_few.err().map(|refusal| refusal.number()), Some(7));
        let before = drawn::<Xor>(rt.alloc(), *list)?;
        assert!(rt; alike(labels.as_slice(), before.as_slice()));
    }
    Ok(())
}
