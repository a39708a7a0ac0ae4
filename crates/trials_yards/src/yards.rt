// Small yards worked out, and yards of 512 points and 2,048 tracks.
use boundary::yard_of;
use fan::Fan;
use network::Network;
use network::track::{Refusal, Track};
use std::alloc::Global;
use std::process::Abort;
use std::test::Fail;
use table::Table;
use yard::{Class, Yard};

// These tracks are in a class with this lead and size, and none is a bridge. The two numbers are as plain as their struct.
fn check_class(
    rt: &impl Abort,
    yard: &Yard,
    tracks: &[usize],
    lead: usize,
    size: usize,
) -> Result<(), Fail> {
    for track in tracks {
        assert!(rt; !yard.is_bridge(*track)?);
        assert!(rt; yard.class_of(*track)? == Some(Class { lead, size }));
    }
    Ok(())
}

// These tracks are in no class, and each is a bridge or is none.
fn check_alone(rt: &impl Abort, yard: &Yard, bridges: &[(usize, bool)]) -> Result<(), Fail> {
    for (track, bridge) in bridges {
        assert_eq!(rt; yard.is_bridge(*track)?, *bridge);
        assert!(rt; yard.class_of(*track)?.is_none());
    }
    Ok(())
}

// Two tracks part the yard together, or do not.
fn check_parting(
    rt: &impl Abort,
    yard: &Yard,
    answers: &[(usize, usize, bool)],
) -> Result<(), Fail> {
    for (t, u, parting) in answers {
        assert_eq!(rt; yard.are_parting(*t, *u)?, *parting);
    }
    Ok(())
}

// Two points are joined, or are not.
fn check_joined(rt: &impl Abort, yard: &Yard, answers: &[(u16, u16, bool)]) {
    for (a, b, joined) in answers {
        assert_eq!(rt; yard.are_joined(*a, *b), *joined);
    }
}

// There is no track with this number.
fn check_absent(rt: &impl Abort, yard: &Yard, track: usize) {
    assert_eq!(rt; yard.is_bridge(track).err().map(Refusal::number), Some(1));
    assert_eq!(rt;
        yard.are_parting(0, track).err().map(Refusal::number),
        Some(1)
    );
    assert_eq!(rt;
        yard.are_parting(track, 0).err().map(Refusal::number),
        Some(1)
    );
    assert!(rt; yard.class_of(track).is_err());
}

fn check_counts(rt: &impl Abort, yard: &Yard, groups: usize, words: usize) {
    assert_eq!(rt; yard.group_count(), groups);
    assert_eq!(rt; yard.words_needed(), words);
}

#[test]
fn triangle_with_tail_and_loop(rt: HostRuntime) -> Result<(), Fail> {
    let yard = yard_of(
        rt.alloc(),
        &[
            Track::open(0, 1),
            Track::open(1, 2),
            Track::open(2, 0),
            Track::open(2, 3),
            Track::open(3, 3),
        ],
    )?;
    check_class(&rt, &yard, &[0, 1, 2], 0, 3)?;
    check_alone(&rt, &yard, &[(3, true), (4, false)])?;
    let parting = [
        (0, 2, true),
        (0, 0, false),
        (3, 3, true),
        (4, 3, true),
        (4, 0, false),
    ];
    check_parting(&rt, &yard, &parting)?;
    check_absent(&rt, &yard, 5);
    let joined = [
        (0, 3, true),
        (0, 4, false),
        (600, 600, true),
        (600, 0, false),
    ];
    check_joined(&rt, &yard, &joined);
    check_counts(&rt, &yard, 1, 2);
    Ok(())
}

#[test]
fn fan_of_three(rt: HostRuntime) -> Result<(), Fail> {
    let mut fan = Fan::new();
    fan.size(3)?;
    let yard = Yard::of(rt.alloc(), &fan)?;
    check_class(&rt, &yard, &[3, 5], 0, 3)?;
    check_class(&rt, &yard, &[2, 6], 2, 3)?;
    check_alone(&rt, &yard, &[(1, false)])?;
    check_counts(&rt, &yard, 1, 2);
    Ok(())
}

#[test]
fn fan_of_three_with_a_shut_track(rt: HostRuntime) -> Result<(), Fail> {
    let mut fan = Fan::new();
    fan.size(3)?;
    fan.shut(1)?;
    let yard = Yard::of(rt.alloc(), &fan)?;
    check_class(&rt, &yard, &[0, 6], 0, 6)?;
    check_alone(&rt, &yard, &[(1, false)])?;
    check_parting(&rt, &yard, &[(1, 1, false)])?;
    check_counts(&rt, &yard, 1, 1);
    Ok(())
}

#[test]
fn no_tracks(rt: HostRuntime) -> Result<(), Fail> {
    let yard = yard_of(rt.alloc(), &[])?;
    check_counts(&rt, &yard, 0, 0);
    assert!(rt; yard.forest(&mut []).is_ok());
    check_absent(&rt, &yard, 0);
    Ok(())
}

#[test]
fn three_parallel_tracks(rt: HostRuntime) -> Result<(), Fail> {
    let yard = yard_of(
        rt.alloc(),
        &[Track::open(0, 1), Track::open(0, 1), Track::open(0, 1)],
    )?;
    check_alone(&rt, &yard, &[(0, false), (1, false), (2, false)])?;
    check_parting(&rt, &yard, &[(0, 1, false)])?;
    check_counts(&rt, &yard, 1, 2);
    Ok(())
}

#[test]
fn one_loop(rt: HostRuntime) -> Result<(), Fail> {
    let yard = yard_of(rt.alloc(), &[Track::open(0, 0)])?;
    check_alone(&rt, &yard, &[(0, false)])?;
    check_counts(&rt, &yard, 1, 1);
    Ok(())
}

// A ring of all 512 points, and each of its tracks three times more.
fn lay_rings(table: &mut Table) -> Result<(), Fail> {
    for _ in 0..4 {
        for point in 0..512u16 {
            table.lay(point, (point + 1) % 512)?;
        }
    }
    Ok(())
}

// The forest of such a ring is its first 511 tracks; a list that is too short is refused.
fn check_forest(rt: &impl Abort, yard: &Yard) {
    let mut flags = [false; 2048];
    assert!(rt; yard.forest(&mut flags).is_ok());
    assert!(rt; flags[0] && flags[510] && !flags[511] && !flags[2047]);
    assert!(rt; yard.forest(&mut flags[0..2047]).is_err());
}

#[test]
fn full_yard(rt: HostRuntime) -> Result<(), Fail> {
    let mut table = Table::new(rt.alloc())?;
    lay_rings(&mut table)?;
    let yard = Yard::of(rt.alloc(), &table)?;
    check_counts(&rt, &yard, 1, 2048 - 511);
    check_forest(&rt, &yard);
    check_parting(&rt, &yard, &[(0, 512, false)])?;
    assert!(rt; !yard.is_bridge(2047)?);
    check_absent(&rt, &yard, 2048);
    check_joined(&rt, &yard, &[(0, 511, true)]);
    Ok(())
}

// The yard of a table has so many groups and needs so many words, and these tracks are bridges.
fn check_bridges(
    rt: &impl Abort,
    heap: Global,
    table: &Table,
    groups: usize,
    words: usize,
    bridges: &[usize],
) -> Result<(), Fail> {
    let yard = Yard::of(heap, table)?;
    check_counts(rt, &yard, groups, words);
    for track in bridges {
        assert!(rt; yard.is_bridge(*track)?);
    }
    Ok(())
}

// Pairs of points far apart, a path of all points, a ring, and the ring cut once.
#[test]
fn sparse_yards(rt: HostRuntime) -> Result<(), Fail> {
    let mut table = Table::new(rt.alloc())?;
    for point in 0..256u16 {
        table.lay(point, point + 256)?;
    }
    check_bridges(&rt, rt.alloc(), &table, 256, 0, &[255])?;
    table.clear();
    for point in 0..511u16 {
        table.lay(point + 1, point)?;
    }
    check_bridges(&rt, rt.alloc(), &table, 1, 0, &[0, 510])?;
    table.lay(0, 511)?;
    check_class(&rt, &Yard::of(rt.alloc(), &table)?, &[511], 0, 512)?;
    table.shut(5)?;
    check_bridges(&rt, rt.alloc(), &table, 1, 0, &[511])
}
