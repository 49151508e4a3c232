//! Tests of texts: lists and scripts that are read, scripts that are made, lines of a trace, and whole traces; of the
//! views of a trace and of a campaign, and of what they stand on: the reading of a line, of a whole trace and of a
//! whole campaign; of campaigns; and of `lab` over a library and a sink in memory: lines that fail.
//! What commands write to the byte is compared where the real program runs.
//!
//! They stand in a crate of their own, above the calls, so that no crate is proved a second time with them. The
//! crate has nothing but tests, and nothing stands on it.
#![tactic(auto)]

#[cfg(test)]
mod tests;
