// Tests of written sheets, byte for byte, and of bytes that are one too few.
#![tactic(auto)]

#[cfg(test)]
mod sheets;
