//! What a line, a trace and its views are, campaigns, and the commands of `lab`: public calls alone.

mod calls;
mod campaigns;
mod charts;
mod five;
mod forms;
mod laws;
mod lines;
mod margins;
mod pairs;
mod pictures;
mod small;
mod texts;
mod traces;
mod waves;
