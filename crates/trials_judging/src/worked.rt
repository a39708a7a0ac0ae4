// Ten small yards.
use crate::hands::{check_marks, check_totals, judged, judged_labels};
use boundary::yard_of;
use fan::Fan;
use label::sum::Sum32;
use label::xor::Xor;
use network::Network;
use network::track::{Refusal, Track};
use sheet::mark::Mark;
use sheet::record::Sheet;
use std::test::Fail;
use yard::Yard;

#[test]
fn few_tracks(rt: HostRuntime) -> Result<(), Fail> {
    let mut sheet = Sheet::blank(rt.alloc())?;
    let none = yard_of(rt.alloc(), &[])?;
    assert_eq!(rt; judged::<Xor>(rt.alloc(), &none, &[], &mut sheet)?, None);
    check_totals(&rt, &sheet, 0, 0, 0, b'X');
    let one = yard_of(rt.alloc(), &[Track::open(0, 1)])?;
    assert_eq!(rt; judged::<Xor>(rt.alloc(), &one, &[], &mut sheet)?, None);
    check_marks(&rt, &sheet, &[Mark::Single])?;
    let ring = yard_of(rt.alloc(), &[Track::open(0, 0)])?;
    assert_eq!(rt;
        judged::<Xor>(rt.alloc(), &ring, &[0], &mut sheet)?,
        Some(10)
    );
    assert!(rt;
        sheet.mark(0)? == Mark::Single,
        "a refusal leaves the sheet"
    );
    check_marks(&rt, &sheet, &[Mark::Single])?;
    assert_eq!(rt; judged::<Xor>(rt.alloc(), &ring, &[1], &mut sheet)?, None);
    check_marks(&rt, &sheet, &[Mark::Alone])
}

#[test]
fn parallel_tracks(rt: HostRuntime) -> Result<(), Fail> {
    let mut sheet = Sheet::blank(rt.alloc())?;
    let two = yard_of(rt.alloc(), &[Track::open(0, 1), Track::open(0, 1)])?;
    assert_eq!(rt; judged::<Sum32>(rt.alloc(), &two, &[6], &mut sheet)?, None);
    let mates = Mark::Mates { lead: 0, size: 2 };
    check_marks(&rt, &sheet, &[mates, mates])?;
    check_totals(&rt, &sheet, 0, 1, 1, b'S');
    let three = yard_of(
        rt.alloc(),
        &[Track::open(0, 1), Track::open(0, 1), Track::open(0, 1)],
    )?;
    assert_eq!(rt;
        judged::<Xor>(rt.alloc(), &three, &[3, 3], &mut sheet)?,
        Some(10)
    );
    assert_eq!(rt;
        judged::<Xor>(rt.alloc(), &three, &[3, 5], &mut sheet)?,
        None
    );
    check_marks(&rt, &sheet, &[Mark::Alone, Mark::Alone, Mark::Alone])?;
    check_totals(&rt, &sheet, 0, 0, 0, b'X');
    Ok(())
}

#[test]
fn fan_of_three(rt: HostRuntime) -> Result<(), Fail> {
    let mut sheet = Sheet::blank(rt.alloc())?;
    let mut fan = Fan::new();
    fan.size(3)?;
    let yard = Yard::of(rt.alloc(), &fan)?;
    assert_eq!(rt;
        judged::<Sum32>(rt.alloc(), &yard, &[5, 10], &mut sheet)?,
        Some(10)
    );
    assert_eq!(rt;
        judged::<Sum32>(rt.alloc(), &yard, &[5, 9], &mut sheet)?,
        None
    );
    let low = Mark::Mates { lead: 0, size: 3 };
    let high = Mark::Mates { lead: 2, size: 3 };
    let marks = [low, Mark::Alone, high, low, high, low, high];
    check_marks(&rt, &sheet, &marks)?;
    check_totals(&rt, &sheet, 0, 2, 6, b'S');
    assert_eq!(rt;
        judged::<Xor>(rt.alloc(), &yard, &[5, 10], &mut sheet)?,
        None
    );
    check_marks(&rt, &sheet, &marks)?;
    check_totals(&rt, &sheet, 0, 2, 6, b'X');
    assert!(rt; sheet.are_parting(0, 3)?);
    assert!(rt; !sheet.are_parting(0, 2)?);
    assert!(rt; !sheet.are_parting(1, 1)?);
    fan.shut(1)?;
    let shut = Yard::of(rt.alloc(), &fan)?;
    assert_eq!(rt; judged::<Xor>(rt.alloc(), &shut, &[9], &mut sheet)?, None);
    check_totals(&rt, &sheet, 0, 1, 15, b'X');
    assert!(rt; sheet.mark(1)? == Mark::Shut);
    Ok(())
}

#[test]
fn labels_from_any_hand(rt: HostRuntime) -> Result<(), Fail> {
    let mut sheet = Sheet::blank(rt.alloc())?;
    let two = yard_of(rt.alloc(), &[Track::open(0, 1), Track::open(1, 0)])?;
    assert_eq!(rt;
        judged_labels::<Sum32>(rt.alloc(), &two, &[7], &mut sheet)?,
        Some(7)
    );
    assert_eq!(rt;
        judged_labels::<Sum32>(rt.alloc(), &two, &[7, 8], &mut sheet)?,
        Some(9)
    );
    assert_eq!(rt;
        judged_labels::<Sum32>(rt.alloc(), &two, &[0, 0], &mut sheet)?,
        Some(10)
    );
    assert_eq!(rt; sheet.marks().len(), 0);
    assert_eq!(rt;
        judged_labels::<Sum32>(rt.alloc(), &two, &[7, 7], &mut sheet)?,
        None
    );
    assert!(rt; sheet.are_parting(1, 0)?);
    assert!(rt; !sheet.are_parting(1, 1)?);
    assert_eq!(rt; sheet.are_parting(0, 2).err().map(Refusal::number), Some(1));
    Ok(())
}
