//! The forms of a call's words.
ghost use Rattle.std.specs.Prelude.{◌≡◌, ◌≤◌, [], ◌∷◌, IfSome};
ghost use Rattle.commands.specs.Words.{texts_of};
ghost use Rattle.ttp_top.specs.Calls.Words.{node_named, slots_named, draw_named, sample_of};
ghost use Rattle.ttp_top.specs.Calls.Words.{form_of, form_asked, HasSlots};

use commands::numeral_named;
use ttp_world::SLOT_LIMIT;

/// What a call is asked for.
#[derive(Clone, Copy)]
pub(crate) enum Command<'a> {
    /// The slot table of the list of this name.
    Schedule {
        list: &'a str,
    },
    /// The trace of a script for a list, each under its name.
    Run {
        list: &'a str,
        script: &'a str,
    },
    /// What a question about a script for a list comes to, each under its name.
    Ask {
        list: &'a str,
        script: &'a str,
        question: Question<'a>,
    },
    /// The summary of a run of the list of this name, of so many slots, by the script that this number
    /// gives.
    Sample {
        list: &'a str,
        slots: u32,
        number: u64,
    },
    /// Nothing: the words have no form.
    NoForm,
}

/// What is asked about a script for a list; no cluster runs for it.
#[derive(Clone, Copy)]
pub(crate) enum Question<'a> {
    /// The line of the hypothesis test.
    Keeps,
    /// Whether the text of this name is a trace of them.
    Verify { trace: &'a str },
    /// The line of the test for one two-faced sender, this node.
    Precision { node: u8 },
    /// Which mode each node runs, for the text of this name, which is to be a trace of them.
    Modes { trace: &'a str },
}

// The most nodes of a list.
const MOST_NODES: u8 = 24;

// The node that a word names.
fn node_named(word: &[u8]) -> Option<u8>
    ensures { result ≡ node_named word.now }
{
    let node = numeral_named(word, 2)?;
    if node < u128::from(MOST_NODES) {
        Some(node as u8)
    } else {
        None
    }
}

// The most digits of a number of slots, and of a number to draw by.
const NUMBER_DIGITS: usize = 20;

// The number of slots that a word names.
fn slots_named(word: &[u8]) -> Option<u32>
    ensures value { result ≡ slots_named word.now }
    ensures within { IfSome result (λ slots. (1 ≤ slots) × (slots ≤ SLOT_LIMIT)) }
{
    let slots = numeral_named(word, NUMBER_DIGITS)?;
    if 1 <= slots && slots <= u128::from(SLOT_LIMIT) {
        Some(slots as u32)
    } else {
        None
    }
}

// The number to draw by that a word names.
fn draw_named(word: &[u8]) -> Option<u64>
    ensures { result ≡ draw_named word.now }
{
    let number = numeral_named(word, NUMBER_DIGITS)?;
    if number <= u128::from(u64::MAX) {
        Some(number as u64)
    } else {
        None
    }
}

// The command of two words.
fn list_command<'a>(verb: &str, list: &'a str) -> Command<'a>
    ensures form { form_asked result ≡ form_of (verb.now ∷ list.now ∷ []) }
    ensures slots { HasSlots result }
{
    match verb {
        "schedule" => Command::Schedule { list },
        _ => Command::NoForm,
    }
}

// The command of three words.
fn script_command<'a>(verb: &str, list: &'a str, script: &'a str) -> Command<'a>
    ensures form { form_asked result ≡ form_of (verb.now ∷ list.now ∷ script.now ∷ []) }
    ensures slots { HasSlots result }
{
    match verb {
        "run" => Command::Run { list, script },
        "keeps" => Command::Ask {
            list,
            script,
            question: Question::Keeps,
        },
        _ => Command::NoForm,
    }
}

// The summary that is asked for by words for the slots and for the number to draw by.
fn sample_command<'a>(list: &'a str, slots: &str, number: &str) -> Command<'a>
    ensures form { form_asked result ≡ sample_of list.now (slots_named slots.now) (draw_named number.now) }
    ensures slots { HasSlots result }
{
    match (slots_named(slots.as_bytes()), draw_named(number.as_bytes())) {
        (Some(slots), Some(number)) => Command::Sample {
            list,
            slots,
            number,
        },
        _ => Command::NoForm,
    }
}

// The command of four words.
fn long_command<'a>(verb: &str, list: &'a str, third: &'a str, fourth: &'a str) -> Command<'a>
    ensures form { form_asked result ≡ form_of (verb.now ∷ list.now ∷ third.now ∷ fourth.now ∷ []) }
    ensures slots { HasSlots result }
{
    match verb {
        "verify" => Command::Ask {
            list,
            script: third,
            question: Question::Verify { trace: fourth },
        },
        "precision" => match node_named(fourth.as_bytes()) {
            Some(node) => Command::Ask {
                list,
                script: third,
                question: Question::Precision { node },
            },
            None => Command::NoForm,
        },
        "sample" => sample_command(list, third, fourth),
        "modes" => Command::Ask {
            list,
            script: third,
            question: Question::Modes { trace: fourth },
        },
        _ => Command::NoForm,
    }
}

/// The command that words spell.
pub(crate) fn command_of(words: &[String]) -> Command<'_>
    ensures form { form_asked result ≡ form_of (texts_of words.now) }
    ensures slots { HasSlots result }
{
    match words {
        [verb, list] => list_command(verb.as_str(), list.as_str()),
        [verb, list, script] => script_command(verb.as_str(), list.as_str(), script.as_str()),
        [verb, list, third, fourth] => {
            long_command(
                verb.as_str(),
                list.as_str(),
                third.as_str(),
                fourth.as_str(),
            )
        }
        _ => Command::NoForm,
    }
}
