// Sheets that are written, and sheets that do not fit.
use network::track::{Refusal, Track};
use sheet::mark::Mark;
use sheet::record::Sheet;
use std::alloc::Global;
use std::process::Abort;
use std::test::Fail;
use written::write_sheet;

// What the bytes hold before each call.
const BEFORE: u8 = 7;

// A triangle with a tail and a loop.
fn triangle() -> [Track; 5] {
    [
        Track::open(0, 1),
        Track::open(1, 2),
        Track::open(2, 0),
        Track::open(2, 3),
        Track::open(3, 3),
    ]
}

// A sheet with these marks.
fn sheet_of(heap: Global, marks: &[Mark]) -> Result<Sheet, Fail> {
    let mut sheet = Sheet::blank(heap)?;
    sheet.rewrite(b'X', marks)?;
    Ok(sheet)
}

// The sheet of the triangle.
fn triangle_sheet(heap: Global) -> Result<Sheet, Fail> {
    let mates = Mark::Mates { lead: 0, size: 3 };
    sheet_of(heap, &[mates, mates, mates, Mark::Single, Mark::Alone])
}

// The text is written to the front of the bytes, and the bytes beyond it stay.
fn check_text(
    rt: &impl Abort,
    tracks: &[Track],
    sheet: &Sheet,
    bytes: &mut [u8],
    text: &[u8],
) -> Result<(), Fail> {
    bytes.fill(BEFORE);
    assert_eq!(rt; write_sheet(tracks, sheet, bytes)?, text.len());
    assert!(rt; bytes.starts_with(text));
    assert!(rt; bytes.iter().skip(text.len()).all(|byte| *byte == BEFORE));
    Ok(())
}

// The call is refused with 15, and no byte is written.
fn check_refused(
    rt: &impl Abort,
    tracks: &[Track],
    sheet: &Sheet,
    bytes: &mut [u8],
) -> Result<(), Fail> {
    bytes.fill(BEFORE);
    let refused = write_sheet(tracks, sheet, bytes).map_err(Refusal::number);
    assert_eq!(rt; refused, Err(15));
    assert!(rt; bytes.iter().all(|byte| *byte == BEFORE));
    Ok(())
}

// The text fits into more bytes than it has, and into as many, and into no fewer.
fn check_triangle(rt: &impl Abort, sheet: &Sheet) -> Result<(), Fail> {
    let text =
        b"track,first,second,mark,lead\r\n1,1,2,mates,1\r\n2,2,3,mates,1\r\n3,3,1,mates,1\r\n4,3,4,single,\r\n5,4,4,alone,\r\n";
    let tracks = triangle();
    check_text(rt, &tracks, sheet, &mut [0; 200], text)?;
    check_text(rt, &tracks, sheet, &mut [0; 104], text)?;
    check_refused(rt, &tracks, sheet, &mut [0; 103])?;
    check_refused(rt, &tracks, sheet, &mut [])
}

#[test]
fn triangle_with_tail_and_loop(rt: HostRuntime) -> Result<(), Fail> {
    let sheet = triangle_sheet(rt.alloc())?;
    check_triangle(&rt, &sheet)
}

// A sheet of one mark, that the track is shut.
fn check_one_line(rt: &impl Abort, sheet: &Sheet) -> Result<(), Fail> {
    let header = b"track,first,second,mark,lead\r\n";
    let line = b"track,first,second,mark,lead\r\n1,65536,10,shut,\r\n";
    check_text(rt, &[], sheet, &mut [0; 50], header)?;
    check_text(
        rt,
        &[Track::open(65535, 9), Track::open(0, 0)],
        sheet,
        &mut [0; 60],
        line,
    )
}

#[test]
fn as_many_lines_as_the_shorter_list(rt: HostRuntime) -> Result<(), Fail> {
    let sheet = sheet_of(rt.alloc(), &[Mark::Shut])?;
    check_one_line(&rt, &sheet)
}

// 2,048 tracks, of which the last is its own lead.
fn check_many(rt: &impl Abort, sheet: &Sheet) -> Result<(), Fail> {
    let tracks = [Track::open(511, 511); 2048];
    let mut bytes = [BEFORE; 41935];
    assert_eq!(rt; write_sheet(&tracks, sheet, &mut bytes)?, 41935);
    assert!(rt; bytes.ends_with(b"\r\n2047,512,512,alone,\r\n2048,512,512,mates,2048\r\n"));
    Ok(())
}

#[test]
fn many_tracks(rt: HostRuntime) -> Result<(), Fail> {
    let mut marks = [Mark::Alone; 2048];
    marks[2047] = Mark::Mates {
        lead: 2047,
        size: 1,
    };
    let sheet = sheet_of(rt.alloc(), &marks)?;
    check_many(&rt, &sheet)
}
