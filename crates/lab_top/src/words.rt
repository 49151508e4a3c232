//! The forms of a call's words.
ghost use Rattle.std.specs.Prelude.{◌≡◌, ◌≤◌, [], ◌∷◌, IfSome};
ghost use Rattle.commands.specs.Words.{texts_of};
ghost use Rattle.ttp_world.specs.declared.script.TheConstants.{SLOT_LIMIT};
ghost use Rattle.lab_top.specs.Words.{slot_named, form_of_slots, bound_named, campaign_of_range, margins_of_range, pairs_asked};
ghost use Rattle.lab_top.specs.Words.{why_of_node, why_of_slot};
ghost use Rattle.lab_top.specs.Words.{slots_named, draw_named, script_of_words, HasScriptSlots};
ghost use Rattle.lab_top.specs.Words.{lab_form_of, lab_form_asked, picture, chart};

use campaign::Span as Slots;
use commands::numeral_named;
use picture_text::Span;
use ttp_world::SLOT_LIMIT;

/// What a call is asked for.
#[derive(Clone, Copy)]
pub(crate) enum Command<'a> {
    /// The waveform of the trace of this name.
    Wave {
        trace: &'a str,
    },
    /// The picture of the trace of this name, of these slots, or of those that are chosen.
    Picture {
        trace: &'a str,
        asked: Option<Span>,
    },
    /// The campaign of the script of this name for the list of this name, over these slots.
    Campaign {
        list: &'a str,
        script: &'a str,
        first: u32,
        last: u32,
    },
    /// Why the node's entry of a slot, or its newest departure, is what it is, in the run of the script of this name for
    /// the list of this name.
    Why {
        list: &'a str,
        script: &'a str,
        node: u32,
        slot: Option<u32>,
    },
    /// The chart of the campaign of this name, of these slots, or of those that are chosen.
    Chart {
        campaign: &'a str,
        asked: Option<Span>,
    },
    /// What is wrong with the list of this name, or with it and the script of this name.
    Check {
        list: &'a str,
        script: Option<&'a str>,
    },
    /// The frames on the bus, for the text of the third name, which is to be a trace of the script of this name for the
    /// list of this name.
    Frames {
        list: &'a str,
        script: &'a str,
        trace: &'a str,
    },
    /// The margins of the script of this name for the list of this name, over the drifts of all nodes, or over the jumps in
    /// these slots.
    Margins {
        list: &'a str,
        script: &'a str,
        asked: Option<Slots>,
    },
    /// The pairs of the script of this name for the list of this name, over these slots, and up to so many slots apart.
    Pairs {
        list: &'a str,
        script: &'a str,
        first: u32,
        last: u32,
        within: u32,
    },
    /// The script that this number gives for the list of this name, in a run of so many slots.
    Script {
        list: &'a str,
        slots: u32,
        number: u64,
    },
    /// What each form writes.
    Help,
    /// Which version this is.
    Version,
    /// Nothing: the words have no form.
    NoForm,
}

// The most digits of a slot that is shown.
const SLOT_DIGITS: usize = 5;

// The most digits of a slot that ends a range.
const BOUND_DIGITS: usize = 9;

// The slot that a word names.
fn slot_named(word: &[u8]) -> Option<u32>
    ensures { result ≡ slot_named word.now }
{
    let slot = numeral_named(word, SLOT_DIGITS)?;
    Some(slot as u32)
}

// The slot that a word names, as an end of a range.
fn bound_named(word: &[u8]) -> Option<u32>
    ensures { result ≡ bound_named word.now }
{
    let slot = numeral_named(word, BOUND_DIGITS)?;
    Some(slot as u32)
}

// The campaign that is asked for by words for its first and its last slot.
fn campaign_of_range<'a>(list: &'a str, script: &'a str, first: &str, last: &str) -> Command<'a>
    ensures form { lab_form_asked result
        ≡ campaign_of_range list.now script.now (bound_named first.now) (bound_named last.now) }
    ensures slots { HasScriptSlots result }
{
    match (bound_named(first.as_bytes()), bound_named(last.as_bytes())) {
        (Some(first), Some(last)) if first <= last => Command::Campaign {
            list,
            script,
            first,
            last,
        },
        _ => Command::NoForm,
    }
}

// The margins that are asked for by words for their first and their last slot.
fn margins_of_range<'a>(list: &'a str, script: &'a str, first: &str, last: &str) -> Command<'a>
    ensures form { lab_form_asked result
        ≡ margins_of_range list.now script.now (bound_named first.now) (bound_named last.now) }
    ensures slots { HasScriptSlots result }
{
    match (bound_named(first.as_bytes()), bound_named(last.as_bytes())) {
        (Some(first), Some(last)) if first <= last => Command::Margins {
            list,
            script,
            asked: Some(Slots { first, last }),
        },
        _ => Command::NoForm,
    }
}

// The pairs that are asked for by words for the first and the last slot, and for how many slots apart they are at most.
fn pairs_asked<'a>(
    list: &'a str,
    script: &'a str,
    first: &str,
    last: &str,
    within: &str,
) -> Command<'a>
    ensures form { lab_form_asked result
        ≡ pairs_asked list.now script.now (bound_named first.now) (bound_named last.now) (bound_named within.now) }
    ensures slots { HasScriptSlots result }
{
    let bounds = (
        bound_named(first.as_bytes()),
        bound_named(last.as_bytes()),
        bound_named(within.as_bytes()),
    );
    match bounds {
        (Some(first), Some(last), Some(within)) if first <= last => Command::Pairs {
            list,
            script,
            first,
            last,
            within,
        },
        _ => Command::NoForm,
    }
}

// Why the newest departure of the node that a word names.
fn why_of_node<'a>(list: &'a str, script: &'a str, node: &str) -> Command<'a>
    ensures form { lab_form_asked result ≡ why_of_node list.now script.now (bound_named node.now) }
    ensures slots { HasScriptSlots result }
{
    match bound_named(node.as_bytes()) {
        Some(node) => Command::Why {
            list,
            script,
            node,
            slot: None,
        },
        None => Command::NoForm,
    }
}

// Why the entry of the node and the slot that words name.
fn why_of_slot<'a>(list: &'a str, script: &'a str, node: &str, slot: &str) -> Command<'a>
    ensures form { lab_form_asked result ≡ why_of_slot list.now script.now (bound_named node.now) (bound_named slot.now) }
    ensures slots { HasScriptSlots result }
{
    match (bound_named(node.as_bytes()), bound_named(slot.as_bytes())) {
        (Some(node), Some(slot)) => Command::Why {
            list,
            script,
            node,
            slot: Some(slot),
        },
        _ => Command::NoForm,
    }
}

// The most digits of a number of slots, and of a number to draw by.
const NUMBER_DIGITS: usize = 20;

// The number of slots that a word names.
fn slots_named(word: &[u8]) -> Option<u32>
    ensures value { result ≡ slots_named word.now }
    ensures within { IfSome result (λ slots. (1 ≤ slots) × (slots ≤ SLOT_LIMIT)) }
{
    let slots = numeral_named(word, NUMBER_DIGITS)?;
    if 1 <= slots && slots <= u128::from(SLOT_LIMIT) {
        Some(slots as u32)
    } else {
        None
    }
}

// The number to draw by that a word names.
fn draw_named(word: &[u8]) -> Option<u64>
    ensures { result ≡ draw_named word.now }
{
    let number = numeral_named(word, NUMBER_DIGITS)?;
    if number <= u128::from(u64::MAX) {
        Some(number as u64)
    } else {
        None
    }
}

// The script that is asked for by words for the slots and for the number to draw by.
fn script_of_words<'a>(list: &'a str, slots: &str, number: &str) -> Command<'a>
    ensures form { lab_form_asked result ≡ script_of_words list.now (slots_named slots.now) (draw_named number.now) }
    ensures slots { HasScriptSlots result }
{
    match (slots_named(slots.as_bytes()), draw_named(number.as_bytes())) {
        (Some(slots), Some(number)) => Command::Script {
            list,
            slots,
            number,
        },
        _ => Command::NoForm,
    }
}

// The command of one word.
fn word_command<'a>(verb: &'a str) -> Command<'a>
    ensures form { lab_form_asked result ≡ lab_form_of (verb.now ∷ []) }
    ensures slots { HasScriptSlots result }
{
    match verb {
        "--help" => Command::Help,
        "--version" => Command::Version,
        _ => Command::NoForm,
    }
}

// The command of two words.
fn text_command<'a>(verb: &str, text: &'a str) -> Command<'a>
    ensures form { lab_form_asked result ≡ lab_form_of (verb.now ∷ text.now ∷ []) }
    ensures slots { HasScriptSlots result }
{
    match verb {
        "wave" => Command::Wave { trace: text },
        "picture" => Command::Picture {
            trace: text,
            asked: None,
        },
        "chart" => Command::Chart {
            campaign: text,
            asked: None,
        },
        "check" => Command::Check {
            list: text,
            script: None,
        },
        _ => Command::NoForm,
    }
}

// The command of three words.
fn pair_command<'a>(verb: &str, list: &'a str, script: &'a str) -> Command<'a>
    ensures form { lab_form_asked result ≡ lab_form_of (verb.now ∷ list.now ∷ script.now ∷ []) }
    ensures slots { HasScriptSlots result }
{
    match verb {
        "check" => Command::Check {
            list,
            script: Some(script),
        },
        "margins" => Command::Margins {
            list,
            script,
            asked: None,
        },
        _ => Command::NoForm,
    }
}

// The picture that is asked for by words for its first and its last slot.
fn picture_of_slots<'a>(trace: &'a str, first: &str, last: &str) -> Command<'a>
    ensures form { lab_form_asked result ≡ form_of_slots (picture trace.now) (slot_named first.now) (slot_named last.now) }
    ensures slots { HasScriptSlots result }
{
    match (slot_named(first.as_bytes()), slot_named(last.as_bytes())) {
        (Some(first), Some(last)) => Command::Picture {
            trace,
            asked: Some(Span { first, last }),
        },
        _ => Command::NoForm,
    }
}

// The chart that is asked for by words for its first and its last slot.
fn chart_of_slots<'a>(campaign: &'a str, first: &str, last: &str) -> Command<'a>
    ensures form { lab_form_asked result ≡ form_of_slots (chart campaign.now) (slot_named first.now) (slot_named last.now) }
    ensures slots { HasScriptSlots result }
{
    match (slot_named(first.as_bytes()), slot_named(last.as_bytes())) {
        (Some(first), Some(last)) => Command::Chart {
            campaign,
            asked: Some(Span { first, last }),
        },
        _ => Command::NoForm,
    }
}

// The command of four words.
fn slots_command<'a>(verb: &str, text: &'a str, first: &'a str, last: &'a str) -> Command<'a>
    ensures form { lab_form_asked result ≡ lab_form_of (verb.now ∷ text.now ∷ first.now ∷ last.now ∷ []) }
    ensures slots { HasScriptSlots result }
{
    match verb {
        "picture" => picture_of_slots(text, first, last),
        "chart" => chart_of_slots(text, first, last),
        "frames" => Command::Frames {
            list: text,
            script: first,
            trace: last,
        },
        "script" => script_of_words(text, first, last),
        "why" => why_of_node(text, first, last),
        _ => Command::NoForm,
    }
}

// The command of five words.
fn range_command<'a>(
    verb: &str,
    list: &'a str,
    script: &'a str,
    first: &str,
    last: &str,
) -> Command<'a>
    ensures form { lab_form_asked result ≡ lab_form_of (verb.now ∷ list.now ∷ script.now ∷ first.now ∷ last.now ∷ []) }
    ensures slots { HasScriptSlots result }
{
    match verb {
        "campaign" => campaign_of_range(list, script, first, last),
        "margins" => margins_of_range(list, script, first, last),
        "why" => why_of_slot(list, script, first, last),
        _ => Command::NoForm,
    }
}

// The command of six words.
fn distance_command<'a>(
    verb: &str,
    list: &'a str,
    script: &'a str,
    first: &str,
    last: &str,
    within: &str,
) -> Command<'a>
    ensures form { lab_form_asked result
        ≡ lab_form_of (verb.now ∷ list.now ∷ script.now ∷ first.now ∷ last.now ∷ within.now ∷ []) }
    ensures slots { HasScriptSlots result }
{
    match verb {
        "pairs" => pairs_asked(list, script, first, last, within),
        _ => Command::NoForm,
    }
}

/// The command that words spell.
pub(crate) fn command_of(words: &[String]) -> Command<'_>
    ensures form { lab_form_asked result ≡ lab_form_of (texts_of words.now) }
    ensures slots { HasScriptSlots result }
{
    match words {
        [verb] => word_command(verb.as_str()),
        [verb, text] => text_command(verb.as_str(), text.as_str()),
        [verb, list, script] => pair_command(verb.as_str(), list.as_str(), script.as_str()),
        [verb, text, first, last] => {
            slots_command(verb.as_str(), text.as_str(), first.as_str(), last.as_str())
        }
        [verb, list, script, first, last] => range_command(
            verb.as_str(),
            list.as_str(),
            script.as_str(),
            first.as_str(),
            last.as_str(),
        ),
        [verb, list, script, first, last, within] => distance_command(
            verb.as_str(),
            list.as_str(),
            script.as_str(),
            first.as_str(),
            last.as_str(),
            within.as_str(),
        ),
        _ => Command::NoForm,
    }
}
