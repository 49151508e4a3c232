//! Worked cases of where a list's text is wrong.
//!
//! Each function does nothing. Its contract is a case, or some: what the definitions of toml_walk and list_places say of a literal
//! text equals what was worked out from the grammar and the rules on places, and the check computes it. [`stops`] has texts that
//! stop being TOML, and [`places`] lines and columns.
#![tactic(auto)]

pub mod places;
pub mod stops;
