//! A line cut into its words.
ghost use Rattle.std.specs.Prelude.{◌≡◌, ◌≤◌, ◌<◌, ◌∷◌, ◌==◌, length, option_map, position, IfSome};
ghost use Rattle.whole_campaign.specs.Words.{without_feed, cut_of, length_before, is_space, word_behind, length_of_words, words_behind};
ghost use Rattle.whole_campaign.specs.Words.{is_comma, words_listed, words_left};

use line_text::after_label;

/// A line without its line feed, if it has one.
#[tactic(auto, unfolding(crate::specs::Words::without_feed))]
pub(crate) fn without_feed(line: &[u8]) -> Option<&[u8]>
    ensures { option_map (λ p. p.now) result ≡ without_feed line.now }
{
    if line.is_empty() {
        return None;
    }
    let (bytes, end) = line.split_at(line.len() - 1);
    if end == b"\n".as_slice() {
        Some(bytes)
    } else {
        None
    }
}

// Where the first of these bytes is.
fn place_of(stop: u8, bytes: &[u8]) -> Option<usize>
    ensures { result ≡ position (λ b. b == stop) bytes.now }
{
    bytes.iter().position(|byte| *byte == stop)
}

// How many bytes stand before the first of these, of all that there are where there is none.
fn length_before(stop: u8, bytes: &[u8]) -> usize
    ensures value { result ≡ length_before stop bytes.now }
    ensures within { result ≤ length bytes.now }
{
    match place_of(stop, bytes) {
        Some(end) => end,
        None => bytes.len(),
    }
}

// Where the first comma of a list is.
fn comma(list: &[u8]) -> Option<usize>
    ensures { result ≡ position is_comma list.now }
{
    list.iter().position(|byte| *byte == b',')
}

/// The first word of a list, and the list of the others if there are any.
pub(crate) fn first_listed(list: &[u8]) -> (&[u8], Option<&[u8]>)
    ensures words { words_listed list.now ≡ result.0.now ∷ words_left (option_map (λ p. p.now) result.1) }
    ensures shorter { IfSome result.1 (λ p. length p.now < length list.now) }
{
    match comma(list) {
        Some(end) => (&list[..end], Some(&list[end + 1..])),
        None => (list, None),
    }
}

/// What stands behind a label and before the next of these bytes, if the label stands there, and what is left.
#[tactic(auto, unfolding(crate::specs::Words::word_behind))]
pub(crate) fn word_behind<'a>(
    stop: u8,
    label: &str,
    bytes: &'a [u8],
) -> Option<(&'a [u8], &'a [u8])>
    ensures { option_map cut_of result ≡ word_behind stop label.now bytes.now }
{
    let rest = after_label(label.as_bytes(), bytes)?;
    Some(rest.split_at(length_before(stop, rest)))
}

// How long the first so many words of bytes are, with the spaces between them.
fn length_of_words(count: u8, bytes: &[u8]) -> usize
    ensures value { result ≡ length_of_words count bytes.now }
    ensures within { result ≤ length bytes.now }
{
    let mut left = count;
    for i in 0..bytes.len() {
        if bytes[i] == b' ' {
            if left <= 1 {
                return i;
            }
            left -= 1;
        }
    }
    bytes.len()
}

/// So many words behind a space, if one stands there, and what is left.
#[tactic(auto, unfolding(crate::specs::Words::words_behind))]
pub(crate) fn words_behind<'a>(count: u8, bytes: &'a [u8]) -> Option<(&'a [u8], &'a [u8])>
    ensures { option_map cut_of result ≡ words_behind count bytes.now }
{
    let rest = after_label(b" ".as_slice(), bytes)?;
    Some(rest.split_at(length_of_words(count, rest)))
}
