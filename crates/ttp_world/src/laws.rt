//! Laws over the definitions. The functions do nothing; their contracts are the laws.
ghost use Rattle.std.specs.Prelude.{◌≡◌, ℕ, List, length};
ghost use Rattle.ttp_world.specs.Words.{word_count, words_of_payload};

/// A payload has as many words as its length asks for.
pub fn payload_has_its_words()
    ensures { (bytes : List ℕ) → length (words_of_payload bytes) ≡ word_count (length bytes) }
{}
