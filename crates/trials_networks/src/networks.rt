// The networks and layers at their bounds, through the one interface.
use annex::Annex;
use fan::Fan;
use network::Network;
use network::stop::Stop;
use network::track::Refusal;
use std::alloc::Global;
use std::process::Abort;
use std::test::Fail;
use table::Table;
use tied::Tied;

// The number of a refusal, or none for an accepted call.
fn number(answer: Result<(), Refusal>) -> Option<u8> {
    answer.err().map(|refusal| refusal.number())
}

// Above any network.
fn annex_over<N: Network + Drop>(heap: Global, below: N) -> Result<Annex<N>, Fail> {
    Ok(Annex::new(heap, below).map_err(Stop::from)?)
}

// A table of so many tracks from 0 to 511.
fn table_of(heap: Global, tracks: usize) -> Result<Table, Fail> {
    let mut table = Table::new(heap)?;
    for _ in 0..tracks {
        table.lay(0, 511)?;
    }
    Ok(table)
}

// The network has so many tracks, and these among them lie between these points.
fn has_tracks<N: Network>(
    rt: &impl Abort,
    network: &N,
    count: usize,
    ends: &[(usize, (u16, u16))],
) {
    assert_eq!(rt; network.count(), count);
    for (track, points) in ends {
        assert_eq!(rt; network.ends(*track), Some(*points));
    }
}

// There is no track with this number to ask for, shut or reopen.
fn lacks<N: Network>(rt: &impl Abort, network: &mut N, track: usize) {
    assert!(rt; network.ends(track).is_none());
    assert!(rt; !network.is_open(track));
    assert_eq!(rt; number(network.shut(track)), Some(1));
    assert_eq!(rt; number(network.reopen(track)), Some(1));
}

// Shutting an open track, and again: 3 before, and then 2.
fn shuts<N: Network>(rt: &impl Abort, network: &mut N, track: usize) {
    assert_eq!(rt; number(network.reopen(track)), Some(3));
    assert_eq!(rt; number(network.shut(track)), None);
    assert!(rt; !network.is_open(track));
    assert_eq!(rt; number(network.shut(track)), Some(2));
}

// Shutting and reopening the last track, and one beyond, of any network: 1, 2 and 3, and nothing else changed.
fn shut_and_reopen<N: Network>(rt: &impl Abort, network: &mut N) {
    let count = network.count();
    assert!(rt; count > 0);
    let last = count - 1;
    shuts(rt, network, last);
    lacks(rt, network, count);
    lacks(rt, network, usize::MAX);
    assert_eq!(rt; network.count(), count);
    assert_eq!(rt; number(network.reopen(last)), None);
    assert!(rt; network.is_open(last));
}

// Each track between these points is laid, or refused with this number. One function for these four, over a closure that calls, would have to say that
// it may be called and what it leaves.
fn lays(rt: &impl Abort, table: &mut Table, answers: &[(u16, u16, Option<u8>)]) {
    for (first, second, answer) in answers {
        assert_eq!(rt; number(table.lay(*first, *second)), *answer);
    }
}

// The fan takes each of these sizes, or refuses it with this number.
fn sizes(rt: &impl Abort, fan: &mut Fan, answers: &[(usize, Option<u8>)]) {
    for (roads, answer) in answers {
        assert_eq!(rt; number(fan.size(*roads)), *answer);
    }
}

// Each track between these points is added, or refused with this number.
fn adds<N: Network>(rt: &impl Abort, annex: &mut Annex<N>, answers: &[(u16, u16, Option<u8>)]) {
    for (first, second, answer) in answers {
        assert_eq!(rt; number(annex.add(*first, *second)), *answer);
    }
}

// So many tracks are added.
fn adds_many<N: Network>(annex: &mut Annex<N>, tracks: usize) -> Result<(), Fail> {
    for _ in 0..tracks {
        annex.add(1, 2)?;
    }
    Ok(())
}

// Each of these points is tied to the other, or refused with this number.
fn ties<N: Network>(rt: &impl Abort, tied: &mut Tied<N>, answers: &[(u16, u16, Option<u8>)]) {
    for (point, by, answer) in answers {
        assert_eq!(rt; number(tied.tie(*point, *by)), *answer);
    }
}

// 4 goes before 5.
#[test]
fn table_bounds(rt: HostRuntime) -> Result<(), Fail> {
    let mut table = Table::new(rt.alloc())?;
    has_tracks(&rt, &table, 0, &[]);
    lacks(&rt, &mut table, 0);
    lays(
        &rt,
        &mut table,
        &[
            (512, 0, Some(4)),
            (0, 512, Some(4)),
            (65535, 65535, Some(4)),
        ],
    );
    has_tracks(&rt, &table, 0, &[]);
    for _ in 0..2047 {
        table.lay(3, 3)?;
    }
    lays(
        &rt,
        &mut table,
        &[(511, 510, None), (0, 0, Some(5)), (512, 0, Some(4))],
    );
    has_tracks(&rt, &table, 2048, &[(2047, (511, 510)), (0, (3, 3))]);
    shut_and_reopen(&rt, &mut table);
    table.clear();
    assert_eq!(rt; table.count(), 0);
    Ok(())
}

#[test]
fn fan_bounds(rt: HostRuntime) {
    let mut fan = Fan::new();
    has_tracks(&rt, &fan, 1, &[(0, (0, 256))]);
    shut_and_reopen(&rt, &mut fan);
    sizes(&rt, &mut fan, &[(256, None)]);
    let most = [(255, (255, 511)), (510, (254, 255)), (765, (510, 511))];
    has_tracks(&rt, &fan, 766, &most);
    shut_and_reopen(&rt, &mut fan);
    sizes(&rt, &mut fan, &[(1, None)]);
    assert_eq!(rt; fan.count(), 1);
}

// A refused sizing changes nothing, and any other opens all.
#[test]
fn fan_of_three(rt: HostRuntime) {
    let mut fan = Fan::new();
    sizes(&rt, &mut fan, &[(3, None)]);
    let three = [
        (2, (2, 258)),
        (3, (0, 1)),
        (4, (1, 2)),
        (5, (256, 257)),
        (6, (257, 258)),
    ];
    has_tracks(&rt, &fan, 7, &three);
    assert_eq!(rt; number(fan.shut(1)), None);
    sizes(&rt, &mut fan, &[(0, Some(6)), (257, Some(6))]);
    has_tracks(&rt, &fan, 7, &[]);
    assert!(rt; !fan.is_open(1));
    sizes(&rt, &mut fan, &[(256, None)]);
    assert!(rt; fan.is_open(1));
}

// 4 goes before 5.
#[test]
fn annex_bounds(rt: HostRuntime) -> Result<(), Fail> {
    let mut annex = annex_over(rt.alloc(), table_of(rt.alloc(), 1)?)?;
    adds(&rt, &mut annex, &[(0, 512, Some(4))]);
    adds_many(&mut annex, 64)?;
    adds(&rt, &mut annex, &[(1, 2, Some(5)), (512, 2, Some(4))]);
    has_tracks(&rt, &annex, 65, &[(0, (0, 511)), (64, (1, 2))]);
    shut_and_reopen(&rt, &mut annex);
    Ok(())
}

#[test]
fn full_annex(rt: HostRuntime) -> Result<(), Fail> {
    let mut full = annex_over(rt.alloc(), table_of(rt.alloc(), 2040)?)?;
    adds_many(&mut full, 8)?;
    assert_eq!(rt; full.count(), 2048);
    adds(&rt, &mut full, &[(1, 2, Some(5))]);
    shut_and_reopen(&rt, &mut full);
    assert_eq!(rt; full.into_below().count(), 2040);
    Ok(())
}

// A point is looked up once.
#[test]
fn tied_bounds(rt: HostRuntime) -> Result<(), Fail> {
    let mut table = Table::new(rt.alloc())?;
    lays(&rt, &mut table, &[(1, 2, None), (2, 511, None)]);
    let mut tied = Tied::new(table);
    has_tracks(&rt, &tied, 2, &[(0, (1, 2))]);
    ties(
        &rt,
        &mut tied,
        &[
            (512, 0, Some(4)),
            (0, 512, Some(4)),
            (1, 2, None),
            (2, 511, None),
        ],
    );
    has_tracks(&rt, &tied, 2, &[(0, (2, 511)), (1, (511, 511))]);
    ties(&rt, &mut tied, &[(2, 2, None)]);
    has_tracks(&rt, &tied, 2, &[(1, (2, 511))]);
    shut_and_reopen(&rt, &mut tied);
    assert_eq!(rt; tied.into_below().ends(0), Some((1, 2)));
    Ok(())
}

// Over a pile of four open tracks of a fan and one from 5 to 6, with 0 standing for 5.
fn tied_above<N: Network + Drop>(rt: &impl Abort, below: N) {
    let mut pile = Tied::new(below);
    ties(rt, &mut pile, &[(5, 0, None)]);
    has_tracks(rt, &pile, 5, &[(4, (0, 6)), (0, (0, 256))]);
    shut_and_reopen(rt, &mut pile);
}

#[test]
fn pile_over_a_fan(rt: HostRuntime) -> Result<(), Fail> {
    let mut fan = Fan::new();
    fan.size(2)?;
    let mut low = annex_over(rt.alloc(), Tied::new(fan))?;
    adds(&rt, &mut low, &[(5, 6, None)]);
    tied_above(&rt, annex_over(rt.alloc(), low)?);
    Ok(())
}

// Over a pile of three open tracks, with a loop above.
fn annexed_above<N: Network + Drop>(rt: &impl Abort, heap: Global, below: N) -> Result<(), Fail> {
    let mut pile = annex_over(heap, below)?;
    adds(rt, &mut pile, &[(7, 7, None)]);
    has_tracks(rt, &pile, 4, &[(3, (7, 7))]);
    shut_and_reopen(rt, &mut pile);
    assert_eq!(rt; number(pile.shut(1)), None);
    assert!(rt; !pile.into_below().is_open(1));
    Ok(())
}

// The layers in the other order.
#[test]
fn pile_over_a_table(rt: HostRuntime) -> Result<(), Fail> {
    let low = annex_over(rt.alloc(), table_of(rt.alloc(), 3)?)?;
    annexed_above(&rt, rt.alloc(), Tied::new(low))
}
