//! Values from outside, and cases that were worked out by hand; each file says of what.

mod bench;
mod clusters;
mod errands;
mod ports;
mod rings;
