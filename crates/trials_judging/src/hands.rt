// Yards, labels and judgements for the tests.
use judging::judge;
use label::Label;
use labelling::label_tracks;
use network::track::Refusal;
use sheet::mark::Mark;
use sheet::record::Sheet;
use sheet::total::Totals;
use std::alloc::{AllocError, Global};
use std::process::Abort;
use std::test::Fail;
use yard::Yard;

// The labelling that the words draw on a yard, judged: the number of the refusal, if it is refused.
pub(crate) fn judged<K: Label>(
    heap: Global,
    yard: &Yard,
    words: &[u64],
    sheet: &mut Sheet,
) -> Result<Option<u8>, Fail> {
    let mut labels: Vec<K> = yard.tracks().iter().map(|_| K::zero()).collect(heap)?;
    let _ = label_tracks(yard, words, labels.as_mut_slice())?;
    let answer = judge(yard, labels.as_slice(), sheet);
    Ok(answer.err().map(Refusal::number))
}

// Labels that were not drawn on the yard, judged.
pub(crate) fn judged_labels<K: Label>(
    heap: Global,
    yard: &Yard,
    words: &[u64],
    sheet: &mut Sheet,
) -> Result<Option<u8>, Fail> {
    let labels: Vec<K> = words.iter().map(|word| K::draw(*word)).collect(heap)?;
    let answer = judge(yard, labels.as_slice(), sheet);
    Ok(answer.err().map(Refusal::number))
}

// The sheet has these marks.
pub(crate) fn check_marks(rt: &impl Abort, sheet: &Sheet, marks: &[Mark]) -> Result<(), Fail> {
    assert_eq!(rt; sheet.marks(), marks);
    for (number, mark) in marks.iter().enumerate() {
        assert_eq!(rt; sheet.mark(number)?, *mark);
    }
    Ok(())
}

// The sheet has these totals, one by one: their struct would take six lines at each call.
pub(crate) fn check_totals(
    rt: &impl Abort,
    sheet: &Sheet,
    singles: usize,
    classes: usize,
    pairs: usize,
    letter: u8,
) {
    let wanted = Totals {
        singles,
        classes,
        pairs,
        letter,
    };
    assert_eq!(rt; sheet.totals(), wanted);
    assert_eq!(rt; sheet.letter(), letter);
}
