// Tests of labels: small yards worked out, full yards, and kinds of labels.
#![tactic(auto)]

#[cfg(test)]
mod full;
#[cfg(test)]
mod kinds;
#[cfg(test)]
mod lists;
#[cfg(test)]
mod worked;
