//! Texts: lists and scripts that are read, scripts that are made, lines of a trace and whole traces. Values come from
//! outside, and cases were worked out by hand; each file says of what.

mod faced_nodes;
mod faulty;
mod generated;
mod lines;
mod lists;
mod reports;
mod scripts;
mod traces;
