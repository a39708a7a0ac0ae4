// Labels on the tracks of a yard: whether they balance, and the one labelling that words draw.
//
// What a yard keeps stands in the types that hold it. What is asked of a list of labels and of a point stays in contracts: a struct of the yard and
// a `&mut` to the labels would put the list before and after behind a loan in each of them, and points are the numbers that a track has. Lists of
// flags, numbers and links are arrays, since nothing here takes memory.
#![tactic(auto)]

mod balance;
mod chains;
mod degrees;
mod ends;
mod forest;
mod incidence;
mod leaves;
mod settling;
mod writing;

pub use balance::balances;
pub use writing::label_tracks;
