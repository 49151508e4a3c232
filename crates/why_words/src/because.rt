//! What decided an entry.
ghost use Rattle.std.specs.Prelude.{◌≡◌, ◌++◌, IfOk, OnOk};
ghost use Rattle.std.specs.Fmt.{decimal};
ghost use Rattle.causes.specs.declared.cause.Because.TheVariants as because;
ghost use Rattle.causes.specs.WhyText.{node_word, each_words, lacked_words, miss_words, because_words};

use crate::lists::{put_node_behind, put_nodes, put_number_behind, put_pair, put_three};
use crate::miss::put_miss;
use causes::{Because, LineNumbers, Miss};
use std::alloc::Global;
use ttp_base::{GrowingText, Memory};
use ttp_world::Medl;

// Adds a number between two texts.
fn put_number_within(
    text: &mut GrowingText,
    front: &str,
    number: u32,
    behind: &str,
) -> Result<(), Memory>
    ensures { OnOk result (text.new ≡ text.old ++ (front.now ++ decimal number ++ behind.now)) }
{
    put_number_behind(text, front, number)?;
    text.put(behind)
}

// Adds the members that a node lacks besides, if it lacks some.
fn put_lacked(text: &mut GrowingText, peer: u8, lacked: &[u8]) -> Result<(), Memory>
    ensures { OnOk result (text.new ≡ text.old ++ lacked_words peer lacked.now) }
{
    if lacked.is_empty() {
        return Ok(());
    }
    put_node_behind(text, ", ", peer)?;
    text.put(" lacks ")?;
    put_nodes(text, lacked)?;
    text.put(" too")
}

// Adds three numbers, each behind a text.
fn put_counts(
    text: &mut GrowingText,
    first: &str,
    accepted: u8,
    second: &str,
    rejected: u8,
    third: &str,
    since: u32,
) -> Result<(), Memory>
    ensures { OnOk result (text.new ≡ text.old ++ (first.now ++ decimal accepted ++ second.now ++ decimal rejected
        ++ third.now ++ decimal since)) }
{
    put_number_behind(text, first, u32::from(accepted))?;
    put_number_behind(text, second, u32::from(rejected))?;
    put_number_behind(text, third, since)
}

fn put_outvoted(
    text: &mut GrowingText,
    list: &Medl,
    numbers: &LineNumbers,
    accepted: u8,
    rejected: u8,
    since: u32,
    peer: u8,
    lacked: &[u8],
) -> Result<(), Memory>
    ensures { OnOk result (text.new ≡ text.old ++ because_words list.now numbers.now
        (because.Outvoted accepted rejected since peer lacked.now)) }
{
    put_counts(
        text,
        "accepted ",
        accepted,
        " and rejected ",
        rejected,
        " since slot ",
        since,
    )?;
    put_lacked(text, peer, lacked)
}

fn put_holds_one(
    text: &mut GrowingText,
    list: &Medl,
    numbers: &LineNumbers,
    sender: u8,
    held: u8,
    lacked: u8,
) -> Result<(), Memory>
    ensures { OnOk result (text.new ≡ text.old
        ++ because_words list.now numbers.now (because.HoldsOne sender held lacked)) }
{
    put_three(text, sender, " holds ", held, " and not ", lacked)
}

fn put_holds_not(
    text: &mut GrowingText,
    list: &Medl,
    numbers: &LineNumbers,
    sender: u8,
    lacked: u8,
) -> Result<(), Memory>
    ensures { OnOk result (text.new ≡ text.old
        ++ because_words list.now numbers.now (because.HoldsNot sender lacked)) }
{
    put_pair(text, sender, " does not hold ", lacked)
}

// Adds what is said of both channels, once where it is one text.
fn put_each(text: &mut GrowingText, a: &[u8], b: &[u8]) -> Result<(), Memory>
    ensures { OnOk result (text.new ≡ text.old ++ each_words a.now b.now) }
{
    if a == b {
        text.put("AB ")?;
        return text.put_bytes(a);
    }
    text.put("A ")?;
    text.put_bytes(a)?;
    text.put(", B ")?;
    text.put_bytes(b)
}

// The words of a reason.
fn words_of(
    alloc: Global,
    list: &Medl,
    numbers: &LineNumbers,
    miss: &Miss,
) -> Result<GrowingText, Memory>
    ensures { IfOk result (λ words. words ≡ miss_words list.now numbers.now miss.now) }
{
    let mut words = GrowingText::new(alloc);
    put_miss(&mut words, list, numbers, miss)?;
    Ok(words)
}

fn put_missed_on_each(
    alloc: Global,
    text: &mut GrowingText,
    list: &Medl,
    numbers: &LineNumbers,
    a: &Miss,
    b: &Miss,
) -> Result<(), Memory>
    ensures { OnOk result (text.new ≡ text.old
        ++ because_words list.now numbers.now (because.MissedOnEach a.now b.now)) }
{
    let first = words_of(alloc, list, numbers, a)?;
    let second = words_of(alloc, list, numbers, b)?;
    put_each(text, first.bytes(), second.bytes())
}

/// Adds what decided an entry. Where both channels have a part, their words are made beside the text and compared.
///
/// # Errors
///
/// Where memory was refused; some of it may have been added.
pub fn put_because(
    alloc: Global,
    text: &mut GrowingText,
    list: &Medl,
    numbers: &LineNumbers,
    because: &Because,
) -> Result<(), Memory>
    ensures { OnOk result (text.new ≡ text.old ++ because_words list.now numbers.now because.now) }
{
    match because {
        Because::SwitchedOn(slot) => put_number_behind(text, "it is switched on in slot ", *slot),
        Because::NeverOn => text.put("it is never switched on"),
        Because::NothingToJoin(slot) => put_number_behind(
            text,
            "no frame to join on since slot ",
            *slot,
        ),
        Because::TakesOver(node) => put_node_behind(text, "it takes over the C-state of ", *node),
        Because::Silence(count) => put_number_within(text, "silence in ", *count, " slots"),
        Because::OwnSlot => text.put("its own slot"),
        Because::NoneSinceColdStart(slot) => {
            put_number_behind(
                text,
                "no frame accepted since its cold start in slot ",
                *slot,
            )
        }
        Because::LeftIn(slot) => put_number_behind(text, "it left in slot ", *slot),
        Because::NoneSinceOwn(slot) => put_number_behind(
            text,
            "no frame accepted since its own in slot ",
            *slot,
        ),
        Because::Outvoted {
            accepted,
            rejected,
            since,
            peer,
            lacked,
        } => put_outvoted(
            text,
            list,
            numbers,
            *accepted,
            *rejected,
            *since,
            *peer,
            lacked.as_slice(),
        ),
        Because::DueFrame => text.put("the frame that is due"),
        Because::HoldsOne {
            sender,
            held,
            lacked,
        } => put_holds_one(text, list, numbers, *sender, *held, *lacked),
        Because::HoldsNot { sender, lacked } => put_holds_not(
            text, list, numbers, *sender, *lacked,
        ),
        Because::Missed(miss) => put_miss(text, list, numbers, miss),
        Because::MissedOnEach { a, b } => put_missed_on_each(alloc, text, list, numbers, a, b),
    }
}
