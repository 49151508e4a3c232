//! That the text of a campaign is always taken, whole or in pieces.
//!
//! A chart reads a text as a campaign by its form alone, and refuses one that is not any. [`laws::ranges_are_taken`] says
//! that the texts of the campaigns over ranges that follow one another, put together, are none of those: they are read, and
//! as the very campaign that the definitions give, whose values `specs/TakenCampaign.antt` lists.
//!
//! The module has no code that does anything: its function is a law.

pub mod laws;
