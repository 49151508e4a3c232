//! The law of headers.
//!
//! The function does nothing, and its contract is a law over the definitions.
ghost use Rattle.std.specs.Prelude.{◌≡◌, ℕ, List};
ghost use Rattle.ttp_world.specs.declared.medl.Medl.{Medl};
ghost use Rattle.ttp_world.specs.declared.script.Channel.{Channel};
ghost use Rattle.ttp_world.specs.declared.script.Script.{Script};
ghost use Rattle.ttp_world.specs.Fitting.{header_in};
ghost use Rattle.ttp_world.specs.Medium.{flip_bits};
ghost use Rattle.ttp_world.specs.Script.{flipped_bits, IsValidScript};

/// The flips of a valid script leave the header of a frame as it was sent, whoever sends it, on each
/// channel and in each slot: none of them is of a bit of the first byte.
pub fn header_stays()
    ensures { (list : Medl) (script : Script) (k slot : ℕ) (c : Channel) (bytes : List ℕ) → IsValidScript list script
        → header_in (flip_bits bytes (flipped_bits script k c slot)) ≡ header_in bytes }
{}
