// The layout of plan files: what a line says, which files are plans, and which faults the others have.
//
// This crate holds the types that a reader of plans answers by, and in `specs/` what they mean.
#![tactic(auto)]

pub mod faults;
pub mod line;
