//! What is told of a value, and the words of its test.
ghost use Rattle.std.specs.Prelude.{◌≡◌};
ghost use Rattle.ttp_world.specs.Trace.{keep_line, back_line};
ghost use Rattle.campaign.specs.CostText.{unended};

use clock_margins::Outcome;
use line_form::{Text, put_number};
use ttp_world::{Back, Keep};

/// What is told of the run of a value.
#[derive(Drop)]
pub struct Told {
    pub value: i64,
    /// What the test of its script says.
    pub test: Text<64>,
    pub outcome: Outcome,
}

/// What the test of the hypothesis says, as the line of `ttpbench keeps` without its line feed.
pub fn kept_words(keep: Keep) -> Text<64>
    ensures { result ≡ unended (keep_line keep) }
{
    let mut words = Text::new();
    match keep {
        Keep::Yes { start } => put_number(&mut words, "keeps yes start ", u64::from(start)),
        Keep::No { rule, slot } => {
            put_number(&mut words, "keeps no H", u64::from(rule));
            put_number(&mut words, " ", u64::from(slot));
        }
    }
    words
}

/// The same of the test on armed nodes.
pub fn owed_words(back: Back) -> Text<64>
    ensures { result ≡ unended (back_line back) }
{
    let mut words = Text::new();
    match back {
        Back::Yes { start } => put_number(&mut words, "returns yes start ", u64::from(start)),
        Back::No { rule, slot } => {
            put_number(&mut words, "returns no Q", u64::from(rule));
            put_number(&mut words, " ", u64::from(slot));
        }
    }
    words
}
