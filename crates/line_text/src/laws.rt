//! A law over the definitions. The function does nothing; its contract is the law.
ghost use Rattle.std.specs.Prelude.{◌≡◌, ℕ, List, length};
ghost use Rattle.ttp_world.specs.Words.{words_of_payload};
ghost use Rattle.line_text.specs.HostLines.{AreBytes, bytes_in};

/// The words of a payload tell its bytes, where it is known how many there are.
pub fn words_tell_payloads()
    ensures { (payload : List ℕ) → AreBytes payload
        → bytes_in (length payload) (words_of_payload payload) ≡ payload }
{}
