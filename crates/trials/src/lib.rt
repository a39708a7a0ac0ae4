// Tests of the reader of plans: files that are accepted, and refused by each number.
#![tactic(auto)]

#[cfg(test)]
mod plans;
