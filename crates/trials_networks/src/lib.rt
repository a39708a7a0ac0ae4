// Tests of the networks and layers at their bounds and one beyond each, many cases to a test.
#![tactic(auto)]

#[cfg(test)]
mod networks;
