//! How a campaign was cut changes nothing of its chart.
//!
//! [`laws::alike_charts`] says what of a campaign a chart depends on, and [`laws::cut_charts`] that campaigns over ranges which
//! join have, put together, the chart of the campaign over the whole.
//!
//! The module has no code that does anything: its functions are laws.

pub mod laws;
