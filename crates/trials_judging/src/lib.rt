// Tests of judging: ten small yards worked out, labels from any hand, and yards of 512 points and 2,048 tracks.
#![tactic(auto)]

#[cfg(test)]
mod hands;
#[cfg(test)]
mod worked;
#[cfg(test)]
mod yards;
