//! The nearest name of a table to a word that is none of them.
ghost use Rattle.std.specs.Prelude.{◌≡◌, ◌+◌, ◌≤◌, ◌++◌, length, map, IfOk, OnOk};
ghost use Rattle.check_words.specs.Shown.{small_letter, near_at, nearer_name, nearest_of, nearest_from, nearest_name, name_at, chosen};
ghost use Rattle.check_words.specs.Shown.{nearest_or_all, edits, meant};

use crate::Text;
use crate::shown::put_shown;
use std::alloc::Global;
use strsim::generic_levenshtein;
use ttp_base::Memory;

/// A name of a table that is near a word, by its place, and how many bytes lie between them.
#[derive(Clone, Copy)]
pub struct Near {
    pub distance: usize,
    pub place: usize,
}

// A letter as a small one.
fn small(byte: u8) -> u8
    ensures { result ≡ small_letter byte }
{
    if b'A' <= byte && byte <= b'Z' {
        byte + 32
    } else {
        byte
    }
}

// A word with its letters as small ones.
fn small_word(alloc: Global, word: &[u8]) -> Result<Vec<u8>, Memory>
    ensures { IfOk result (λ w. w.items ≡ map small_letter word.now) }
{
    let mut letters = Vec::new(alloc);
    for byte in word {
        if letters.push(small(*byte)).is_err() {
            return Err(Memory);
        }
    }
    Ok(letters)
}

// How many bytes are to be changed, to make a name of a word.
fn edits(alloc: Global, word: &[u8], name: &str) -> Result<usize, Memory>
    ensures { IfOk result (λ d. d ≡ edits word.now name.now) }
{
    match generic_levenshtein(alloc, word, name.as_bytes()) {
        Ok(distance) => Ok(distance),
        Err(_) => Err(Memory),
    }
}

// The name at a place, where it is near a word.
fn near_at(alloc: Global, word: &[u8], place: usize, name: &str) -> Result<Option<Near>, Memory>
    ensures { IfOk result (λ near. near ≡ near_at word.now place name.now) }
{
    let distance = edits(alloc, word, name)?;
    if distance <= 2 && distance < name.len() {
        Ok(Some(Near { distance, place }))
    } else {
        Ok(None)
    }
}

// The nearer one of two, the first of two as near.
fn nearer(first: Near, later: Option<Near>) -> Near
    ensures { result ≡ nearer_name first later }
{
    match later {
        Some(later) if later.distance < first.distance => later,
        _ => first,
    }
}

fn nearest_of(first: Option<Near>, later: Option<Near>) -> Option<Near>
    ensures { result ≡ nearest_of first later }
{
    match first {
        Some(first) => Some(nearer(first, later)),
        None => later,
    }
}

// The nearest of names, of which the first stands at a place.
fn nearest_from(
    alloc: Global,
    word: &[u8],
    place: usize,
    names: &[&str],
) -> Result<Option<Near>, Memory>
    requires { place + length names.now ≤ 1000 }
    ensures { IfOk result (λ near. near ≡ nearest_from word.now place (map (λ n. n.now) names.now)) }
{
    match names {
        [] => Ok(None),
        [name, rest @ ..] => {
            let first = near_at(alloc, word, place, name)?;
            let later = nearest_from(alloc, word, place + 1, rest)?;
            Ok(nearest_of(first, later))
        }
    }
}

// The name of a table at a place.
fn put_name(text: &mut Text, names: &[&str], place: usize) -> Result<(), Memory>
    ensures { OnOk result (text.new ≡ text.old ++ name_at (map (λ n. n.now) names.now) place) }
{
    match names {
        [] => Ok(()),
        [name, rest @ ..] => {
            if place == 0 {
                text.put(name)
            } else {
                put_name(text, rest, place - 1)
            }
        }
    }
}

// Names as one chooses among them.
fn put_chosen(text: &mut Text, names: &[&str]) -> Result<(), Memory>
    ensures { OnOk result (text.new ≡ text.old ++ chosen (map (λ n. n.now) names.now)) }
{
    match names {
        [] => Ok(()),
        [name] => text.put(name),
        [name, other] => {
            text.put(name)?;
            text.put(" or ")?;
            text.put(other)
        }
        [name, rest @ ..] => {
            text.put(name)?;
            text.put(", ")?;
            put_chosen(text, rest)
        }
    }
}

// Adds the nearest name, where one is near, and else all of them.
fn put_nearest(text: &mut Text, names: &[&str], near: Option<Near>) -> Result<(), Memory>
    ensures { OnOk result (text.new ≡ text.old ++ nearest_or_all (map (λ n. n.now) names.now) near) }
{
    match near {
        Some(near) => {
            text.put(", nearest ")?;
            put_name(text, names, near.place)
        }
        None => {
            text.put(", wanted ")?;
            put_chosen(text, names)
        }
    }
}

// The nearest of some names to a word.
fn nearest(alloc: Global, word: &[u8], names: &[&str]) -> Result<Option<Near>, Memory>
    requires { length names.now ≤ 1000 }
    ensures { IfOk result (λ near. near ≡ nearest_name word.now (map (λ n. n.now) names.now)) }
{
    let letters = small_word(alloc, word)?;
    nearest_from(alloc, letters.as_slice(), 0, names)
}

/// Adds a word that is none of some names, with the nearest of them, or all where none is near.
///
/// It costs a table of the word's bytes and each name's.
///
/// # Errors
///
/// Where memory was refused; some of it may have been added.
#[tactic(auto, unfolding(crate::specs::Shown::meant))]
pub fn put_meant(alloc: Global, text: &mut Text, word: &[u8], names: &[&str]) -> Result<(), Memory>
    requires { length names.now ≤ 1000 }
    ensures { OnOk result (text.new ≡ text.old ++ meant word.now (map (λ n. n.now) names.now)) }
{
    let near = nearest(alloc, word, names)?;
    put_shown(text, word)?;
    put_nearest(text, names, near)
}
