// Plans that are read, and files that are refused.
use layout::line::Line;
use network::Network;
use plan::read_plan;
use plan::reader::Reader;
use std::process::Abort;
use std::test::Fail;
use table::Table;

// An older track is gone, and the table has these tracks, all open.
fn accepts(rt: &impl Abort, bytes: &[u8], table: &mut Table, points: u16, tracks: &[(u16, u16)]) {
    let _ = table.lay(7, 9);
    assert!(rt; table.count() > 0);
    assert_eq!(rt; read_plan(bytes, table).ok(), Some(points));
    assert_eq!(rt; table.count(), tracks.len());
    for (track, ends) in tracks.iter().enumerate() {
        assert_eq!(rt; table.ends(track), Some(*ends));
        assert!(rt; table.is_open(track));
    }
}

// An older track is gone, and the file is refused by this number at this line.
fn refuses(rt: &impl Abort, bytes: &[u8], table: &mut Table, number: u8, line: usize) {
    let _ = table.lay(7, 9);
    assert!(rt; table.count() > 0);
    let fault = read_plan(bytes, table).err();
    assert_eq!(rt; table.count(), 0);
    assert_eq!(rt;
        fault.map(|fault| (fault.refusal.number(), fault.line)),
        Some((number, line))
    );
}

#[test]
fn plans_are_accepted(rt: HostRuntime) -> Result<(), Fail> {
    let mut table = Table::new(rt.alloc())?;
    accepts(&rt, b"p edge 0 0", &mut table, 0, &[]);
    accepts(&rt, b"p edge 512 0\n", &mut table, 512, &[]);
    accepts(&rt, b"p edge 0512 0000\n", &mut table, 512, &[]);
    accepts(
        &rt,
        b"p edge 512 1\ne 512 512\n",
        &mut table,
        512,
        &[(511, 511)],
    );
    accepts(
        &rt,
        b"p   edge  3   1\ne   0003    1",
        &mut table,
        3,
        &[(2, 0)],
    );
    accepts(
        &rt,
        b"c \x00\xff\r any bytes\nc\np edge 3 2\nc \ne 1 2\nc p edge\ne  2   3\nc",
        &mut table,
        3,
        &[(0, 1), (1, 2)],
    );
    Ok(())
}

#[test]
fn no_known_kind_is_12(rt: HostRuntime) -> Result<(), Fail> {
    let mut table = Table::new(rt.alloc())?;
    let files: [&[u8]; 20] = [
        b"\n",
        b" ",
        b" c",
        b"x",
        b"cx",
        b"c\r",
        b"c\tx",
        b"C",
        b"px edge 1 0",
        b"p",
        b"p ",
        b"p col 1 1",
        b"p edges 1 0",
        b"p edg 1 0",
        b"p edge\r",
        b"p edge\t1 0",
        b"p\tedge 1 0",
        b"P edge 1 0",
        b"e1 2",
        b"ex",
    ];
    for file in &files {
        refuses(&rt, *file, &mut table, 12, 1);
    }
    refuses(&rt, b"p edge 1 0\n\n", &mut table, 12, 2);
    refuses(&rt, b"p edge 2 2\ne 1 2\n\ne 1 2\n", &mut table, 12, 3);
    refuses(&rt, b"c\np edge 2 1\nx\ne 9 9\n", &mut table, 12, 3);
    Ok(())
}

#[test]
fn out_of_place_is_13(rt: HostRuntime) -> Result<(), Fail> {
    let mut table = Table::new(rt.alloc())?;
    let files: [(&[u8], usize); 16] = [
        (b"", 1),
        (b"c", 2),
        (b"c only\nc comments\n", 3),
        (b"e 1 2\n", 1),
        (b"e", 1),
        (b"c\ne 9999 x \r\n", 2),
        (b"p edge 1 0\np edge 1 0\n", 2),
        (b"p edge 1 0\np edge", 2),
        (b"p edge 1 0\ne 1 1\n", 2),
        (b"p edge 2 1\ne 1 2\ne 1 2\n", 3),
        (b"p edge 2 1\ne 1 2\nc\ne 0 0 0", 4),
        (b"p edge 2 1", 2),
        (b"p edge 2 2\ne 1 2\n", 3),
        (b"p edge 2 2\ne 1 2", 3),
        (b"p edge 2 2\ne 1 2\nc\nc\n", 5),
        (b"p edge 512 2048\n", 2),
    ];
    for (file, line) in &files {
        refuses(&rt, *file, &mut table, 13, *line);
    }
    Ok(())
}

#[test]
fn a_wrong_number_is_14(rt: HostRuntime) -> Result<(), Fail> {
    let mut table = Table::new(rt.alloc())?;
    let problems: [&[u8]; 18] = [
        b"p edge",
        b"p edge ",
        b"p edge 1",
        b"p edge 1 ",
        b"p edge 1 0 ",
        b"p edge 1 0 0",
        b"p edge 1 0\r\n",
        b"p edge 513 0",
        b"p edge 0 2049",
        b"p edge 9999 0",
        b"p edge 00001 0",
        b"p edge 1 00000",
        b"p edge -1 0",
        b"p edge 1x 0",
        b"p edge 1 x",
        b"p edge 1\t0",
        b"p edge 1 0\t",
        b"p edge 1 0\x00",
    ];
    for file in &problems {
        refuses(&rt, *file, &mut table, 14, 1);
    }
    let edges: [&[u8]; 16] = [
        b"p edge 2 1\ne",
        b"p edge 2 1\ne ",
        b"p edge 2 1\ne 1",
        b"p edge 2 1\ne 1 ",
        b"p edge 2 1\ne 1 2 ",
        b"p edge 2 1\ne 1 2 2",
        b"p edge 2 1\ne 1 2\r\n",
        b"p edge 2 1\ne 0 1",
        b"p edge 2 1\ne 1 0",
        b"p edge 2 1\ne 3 1",
        b"p edge 2 1\ne 1 3",
        b"p edge 0 1\ne 1 1",
        b"p edge 2 1\ne 00001 1",
        b"p edge 2 1\ne 1 +2",
        b"p edge 512 1\ne 513 1",
        b"p edge 2 2\ne x 1\n\n",
    ];
    for file in &edges {
        refuses(&rt, *file, &mut table, 14, 2);
    }
    Ok(())
}

#[test]
fn a_full_plan_is_read(rt: HostRuntime) -> Result<(), Fail> {
    let mut table = Table::new(rt.alloc())?;
    let mut text = Vec::new(rt.alloc());
    text.extend_from_slice(b"p edge 512 2048\n")?;
    for _ in 0..2047 {
        text.extend_from_slice(b"e 512 1\n")?;
    }
    refuses(&rt, text.as_slice(), &mut table, 13, 2049);
    text.extend_from_slice(b"e 1 2\n")?;
    assert_eq!(rt; read_plan(text.as_slice(), &mut table).ok(), Some(512));
    assert_eq!(rt; table.count(), 2048);
    for track in 0..2047 {
        assert_eq!(rt; table.ends(track), Some((511, 0)));
    }
    assert_eq!(rt; table.ends(2047), Some((0, 1)));
    text.extend_from_slice(b"e 1 2\n")?;
    refuses(&rt, text.as_slice(), &mut table, 13, 2050);
    Ok(())
}

fn is_comment(line: Option<Line>, text: &[u8]) -> bool {
    matches!(line, Some(Line::Comment(given)) if given == text)
}

#[test]
fn a_comment_is_the_line(rt: HostRuntime) -> Result<(), Fail> {
    let mut reader = Reader::new(b"c any \xff\r text\nc\np edge 1 0");
    assert!(rt; is_comment(reader.next_line()?, b"c any \xff\r text"));
    assert!(rt; is_comment(reader.next_line()?, b"c"));
    assert!(rt; reader.next_line()?.is_some());
    assert!(rt; reader.next_line()?.is_none());
    assert_eq!(rt; reader.points(), 1);
    Ok(())
}
