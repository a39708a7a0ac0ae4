// The totals of a sheet.

// How many tracks are marked single, how many classes and how many pairs of mates there are, and the letter of the sheet.
#[derive(Clone, Copy, PartialEq, Eq, Debug)]
pub struct Totals {
    pub singles: usize,
    pub classes: usize,
    pub pairs: usize,
    pub letter: u8,
}
