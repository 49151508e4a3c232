//! What the lines of a campaign are worth.
//!
//! A line is read of one run of its script, in which frames carry zeros. [`laws::same_cost`] says that this is what every run by
//! legal message numbers shows, and [`laws::yes_is_safe`] that a line whose test says yes shows nobody hurt and no memberships
//! split: what safety promises, in the words of a campaign. [`laws::lines_are_safe`] says it of the text, and the promise of
//! `lab` has it from there (`safe` of `CampaignPromise`).
//!
//! A caller has a valid list and a valid script with room for one event more:
//!
//! ```text
//! campaign_laws::laws::lines_are_safe(list, script);
//! ```
//!
//! [`laws::one_is_left`] says when `end` has one membership at most: where each faulty node became so two rounds before the end
//! or earlier.
//!
//! The crate has no code that does anything: its functions are laws. It stands apart from the laws of views, so that those of
//! margins and of pairs, which cite it, do not wait for them.
#![tactic(auto)]

pub mod laws;
