//! Payloads as words.
ghost use Rattle.std.specs.Prelude.{◌≡◌, ◌<◌, ◌≤◌, ◌*◌, ◌+◌, get_or, length, take};
ghost use Rattle.ttp_world.specs.declared.script.TheConstants.{PAYLOAD_LIMIT};
ghost use Rattle.ttp_world.specs.Words.{payload_word, word_count, words_of_payload};

/// The most words of a payload.
pub(crate) const MOST_WORDS: usize = 30;

// A byte, or zero behind the last one.
fn byte_at(bytes: &[u8], i: usize) -> u64
    ensures value { result ≡ get_or bytes.now i 0 }
    ensures bound { result < 256 }
{
    match bytes.get(i) {
        Some(byte) => u64::from(*byte),
        None => 0,
    }
}

// A word of a payload, all of whose bytes are there.
fn full_word(bytes: &[u8], i: usize) -> u64
    requires { 8 * i + 8 ≤ length bytes.now }
    ensures { result ≡ payload_word bytes.now i }
{
    let first = 8 * i;
    u64::from_be_bytes([
        bytes[first],
        bytes[first + 1],
        bytes[first + 2],
        bytes[first + 3],
        bytes[first + 4],
        bytes[first + 5],
        bytes[first + 6],
        bytes[first + 7],
    ])
}

// The same byte by byte, with zeros for those that are not there.
fn last_word(bytes: &[u8], i: usize) -> u64
    requires { i < 1000 }
    ensures { result ≡ payload_word bytes.now i }
{
    let mut word = 0;
    for j in 0..8 {
        word = 256 * word + byte_at(bytes, 8 * i + j);
    }
    word
}

// A word of a payload.
fn word_at(bytes: &[u8], i: usize) -> u64
    requires { i < 1000 }
    ensures { result ≡ payload_word bytes.now i }
{
    if i < bytes.len() / 8 {
        full_word(bytes, i)
    } else {
        last_word(bytes, i)
    }
}

/// Puts the words of a payload, and answers how many there are.
pub(crate) fn put_words(bytes: &[u8], words: &mut [u64]) -> usize
    requires limit { length bytes.now ≤ PAYLOAD_LIMIT }
    requires room { length bytes.now ≤ 8 * length words.old }
    ensures count { result ≡ word_count (length bytes.now) }
    ensures within { result ≤ 30 }
    ensures words { take result words.new ≡ words_of_payload bytes.now }
{
    let count = (bytes.len() + 7) / 8;
    for i in 0..count {
        words[i] = word_at(bytes, i);
    }
    count
}
