//! The words of a run, behind its place.
ghost use Rattle.std.specs.Prelude.{◌≡◌, option_map};
ghost use Rattle.whole_campaign.specs.Runs.{run_words_of, run_words_in};

use crate::cut::words_behind;
use line_text::after_label;

/// The four words of the test, the nine of the cost, and the fault.
#[derive(Clone, Copy)]
pub(crate) struct RunWords<'a> {
    pub(crate) test: &'a [u8],
    pub(crate) cost: &'a [u8],
    pub(crate) fault: &'a [u8],
}

/// The words of a run, cut from what stands behind its place.
#[tactic(auto, unfolding(crate::specs::Runs::run_words_in))]
pub(crate) fn run_words_in<'a>(bytes: &'a [u8]) -> Option<RunWords<'a>>
    ensures { option_map run_words_of result ≡ run_words_in bytes.now }
{
    let (test, rest) = words_behind(4, bytes)?;
    let (cost, rest) = words_behind(9, rest)?;
    let fault = after_label(b" fault ".as_slice(), rest)?;
    Some(RunWords { test, cost, fault })
}
