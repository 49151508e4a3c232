//! The line of the script's own run.
ghost use Rattle.std.specs.Prelude.{◌≡◌, ◌≤◌, option_map};
ghost use Rattle.whole_campaign.specs.Own.{own_of, own_in, own_of_line};

use crate::cost::cost_in;
use crate::cut::without_feed;
use crate::run_words::run_words_in;
use crate::shown::Test;
use crate::test::test_in;
use line_text::after_label;

/// The line of the script's own run.
#[derive(Clone, Copy)]
pub struct OwnLine<'a> {
    /// The line without its line feed.
    pub text: &'a [u8],
    /// The four words of its test.
    pub test_text: &'a [u8],
    /// The words of its cost, from `left` to the memberships.
    pub cost: &'a [u8],
    /// What the test says.
    pub test: Test,
}

/// What holds of all lines of a campaign behind the first two.
#[derive(Clone, Copy)]
pub(crate) struct Frame<'a> {
    pub(crate) nodes: u8,
    pub(crate) slots: u32,
    pub(crate) own: OwnLine<'a>,
}

// The line of the script's own run, without its line feed, in a cluster of so many nodes and in so many slots.
#[tactic(auto, unfolding(crate::specs::Own::own_in))]
fn own_in<'a>(nodes: u8, slots: u32, bytes: &'a [u8]) -> Option<OwnLine<'a>>
    requires { nodes ≤ 24 }
    ensures { option_map own_of result ≡ own_in nodes slots bytes.now }
{
    let rest = after_label(b"slot - node -".as_slice(), bytes)?;
    let run = run_words_in(rest)?;
    let test = test_in(run.test)?;
    let _cost = cost_in(nodes, slots, run.cost)?;
    if run.fault == b"-".as_slice() {
        Some(OwnLine {
            text: bytes,
            test_text: run.test,
            cost: run.cost,
            test,
        })
    } else {
        None
    }
}

/// The line of the script's own run, in a cluster of so many nodes and in so many slots.
#[tactic(auto, unfolding(crate::specs::Own::own_of_line))]
pub(crate) fn own_of_line<'a>(nodes: u8, slots: u32, line: &'a [u8]) -> Option<OwnLine<'a>>
    requires { nodes ≤ 24 }
    ensures { option_map own_of result ≡ own_of_line nodes slots line.now }
{
    let bytes = without_feed(line)?;
    own_in(nodes, slots, bytes)
}
