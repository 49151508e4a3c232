//! A line cut into words, each with its place.
ghost use Rattle.std.specs.Prelude.{◌≡◌, ◌+◌, ◌<◌, ◌≤◌, ◌++◌, [], true, length, OnOk};
ghost use Rattle.script_errors.specs.Spots.{spots_of, spots_from, spot_text, begins_with_mark};

use script_text::is_blank;
use ttp_base::Memory;

/// Where a word of a line begins, and where it has ended, in bytes from 0.
#[derive(Clone, Copy)]
pub struct Spot {
    /// The place of its first byte.
    pub start: u32,
    /// The place behind its last byte.
    pub end: u32,
}

// Adds the word that ends with the line, where one has begun.
fn end_word(spots: &mut Vec<Spot>, begun: Option<u32>, end: u32) -> Result<(), Memory>
    ensures { OnOk result (spots.new.items ≡ spots.old.items ++ spots_from end begun []) }
{
    if let Some(start) = begun {
        if spots.push(Spot { start, end }).is_err() {
            return Err(Memory);
        }
    }
    Ok(())
}

/// Puts the words of a line in the place of those that are kept.
#[tactic(auto, unfolding(crate::specs::Spots::spots_of))]
pub fn cut(line: &[u8], spots: &mut Vec<Spot>) -> Result<(), Memory>
    requires { length line.now ≤ 1048576 }
    ensures { OnOk result (spots.new.items ≡ spots_of line.now) }
{
    spots.clear();
    let mut begun: Option<u32> = None;
    for (place, byte) in line.iter().enumerate() {
        let place = place as u32;
        if is_blank(*byte) {
            end_word(spots, begun, place)?;
            begun = None;
        } else if begun.is_none() {
            begun = Some(place);
        }
    }
    end_word(spots, begun, line.len() as u32)
}

/// The bytes of a word.
pub fn spot_text(line: &[u8], word: Spot) -> &[u8]
    ensures text { result.now ≡ spot_text line.now word }
    ensures size { length result.now ≤ length line.now }
    ensures within { 0 < length result.now → word.start + length result.now ≤ length line.now }
{
    let end = line.len().min(word.end as usize);
    let start = word.start as usize;
    if end <= start {
        return &[];
    }
    &line[start..end]
}

/// Whether a word begins with a byte order mark.
pub(crate) fn begins_with_mark(word: &[u8]) -> bool
    ensures mark { result ≡ begins_with_mark word.now }
    ensures long { result ≡ true → 3 ≤ length word.now }
{
    3 <= word.len() && word[0] == 0xef && word[1] == 0xbb && word[2] == 0xbf
}
