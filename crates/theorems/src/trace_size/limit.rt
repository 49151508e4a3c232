//! The limit.

/// The most bytes of a trace.
pub const TRACE_LIMIT: usize = 134_217_728;
