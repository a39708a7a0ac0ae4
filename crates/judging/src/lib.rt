// Judging labels on a yard: whether they tell its bridges and cut pairs exactly, and the sheet that they then give.
//
// Labels find candidates: tracks that carry zero, and tracks with equal or opposite labels. Judging trusts neither the labels nor
// chance: it confirms each candidate by labels of its own, drawn from words of one bit each, which tell all.
#![tactic(auto)]

mod leads;
mod marks;
mod rounds;
mod verdict;

pub use verdict::judge;
