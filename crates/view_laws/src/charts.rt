//! The marks of a chart are titled by lines of its campaign.
//!
//! [`laws::marks_of_charts`] says that the titles of a chart's marks are lines of faults, in their order, each once, and
//! [`laws::faults_are_lines`] which lines of the text these are.
//!
//! The module has no code that does anything: its functions are laws.

pub mod laws;
