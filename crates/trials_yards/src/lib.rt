// Tests of small yards worked out, and of yards of 512 points and 2,048 tracks.
#![tactic(auto)]

#[cfg(test)]
mod yards;
