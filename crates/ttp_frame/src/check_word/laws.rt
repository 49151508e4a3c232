//! The laws of check words.
//!
//! Each function does nothing, and its contract is a law, for every start and lists of any length.
//! `proofs/WordLaws.antt` has each under the function's name, for proofs to cite, and
//! `proofs/Bursts.antt` what follows for lists that differ in one place.
ghost use Rattle.std.specs.Prelude.{◌≡◌, ◌≢◌, ℕ, List, ◌++◌, length, bit_xor};
ghost use Rattle.ttp_world.specs.CheckWord.{check_word};
ghost use Rattle.ttp_world.specs.Frame.{word_bytes};
ghost use Rattle.ttp_frame.specs.Bytes.{xor_bytes, DifferWithin};

/// The words of two lists of equal length, combined by exclusive or, are the word from start 0 of the
/// lists' bytes, combined in the same way.
pub fn words_combine()
    ensures { (start : ℕ) (one other : List ℕ) → length one ≡ length other
        → bit_xor (check_word start one) (check_word start other)
        ≡ check_word 0 (xor_bytes one other) }
{}

/// A list that ends with its own word, in three bytes with the most significant first, has the word 0.
pub fn own_word_gives_zero()
    ensures { (start : ℕ) (bytes : List ℕ) → check_word start (bytes ++ word_bytes start bytes) ≡ 0 }
{}

/// Two lists of equal length that differ, and differ only within 24 consecutive bits, have different
/// words.
pub fn bursts_change_the_word()
    ensures { (start : ℕ) (one other : List ℕ) → DifferWithin 24 one other
        → check_word start one ≢ check_word start other }
{}
