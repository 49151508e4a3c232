//! What the test of a script says, in its four words.
ghost use Rattle.std.specs.Prelude.{◌≡◌};
ghost use Rattle.campaign.specs.Cost.{is_kept, is_owed};
ghost use Rattle.whole_campaign.specs.Runs.{test_of, test_in, test_says_yes, is_same_test};

use crate::shown::Test;
use line_reader::{TraceLine, read_line};
use ttp_world::{Back, Keep};
use whole_trace::{is_back, is_keep};

// The answer of a test, if its rule is one that there is.
fn test_of(line: &TraceLine) -> Option<Test>
    ensures { result ≡ test_of line.now }
{
    match line {
        TraceLine::Keep(keep) => {
            if is_keep(*keep) {
                Some(Test::Keep(*keep))
            } else {
                None
            }
        }
        TraceLine::Back(back) => {
            if is_back(*back) {
                Some(Test::Back(*back))
            } else {
                None
            }
        }
        _ => None,
    }
}

/// The answer that these words are.
#[tactic(auto, unfolding(crate::specs::Runs::test_in))]
pub(crate) fn test_in(words: &[u8]) -> Option<Test>
    ensures { result ≡ test_in words.now }
{
    let line = read_line(words)?;
    test_of(&line)
}

pub(crate) fn test_says_yes(test: Test) -> bool
    ensures { result ≡ test_says_yes test }
{
    match test {
        Test::Keep(Keep::Yes { .. }) => true,
        Test::Keep(Keep::No { .. }) => false,
        Test::Back(Back::Yes { .. }) => true,
        Test::Back(Back::No { .. }) => false,
    }
}

/// Whether two answers are of one test.
pub(crate) fn is_same_test(one: Test, other: Test) -> bool
    ensures { result ≡ is_same_test one other }
{
    match (one, other) {
        (Test::Keep(_), Test::Keep(_)) => true,
        (Test::Back(_), Test::Back(_)) => true,
        _ => false,
    }
}
