//! Values from outside, and runs that were worked out by hand; each file says of what.

mod acknowledgements;
mod alone;
mod averages;
mod base;
mod bounds;
mod check_words;
mod frame_words;
mod frames;
mod heard;
mod incidents;
mod listening;
mod lists;
mod mediums;
mod members;
mod parts;
mod places;
mod plants;
mod run_laws;
mod slots;
mod verdicts;
