//! Check words, frames, and when bytes are a frame.
ghost use Rattle.std.specs.Prelude.{◌≡◌, [], ◌∷◌, take, true, false, Some, None, codes};
ghost use Rattle.ttp_base.specs.Text.{hex, hex_bytes};
ghost use Rattle.ttp_world.specs.CheckWord.{check_word};
ghost use Rattle.ttp_world.specs.Frame.{frame};
ghost use Rattle.ttp_world.specs.Fitting.{fits, is_formed, joinable};
ghost use Rattle.ttp_world.specs.Medium.{flip_bits};
ghost use Rattle.ttp_world.specs.Medl.{member_bytes};
ghost use Rattle.world_rows.specs.Frames.{cstate, mixed_list, cold_start, implicit_frame};

/// Check words from the start 0.
pub fn check_words()
    ensures nothing { hex 6 (check_word 0 []) ≡ codes "000000" }
    ensures one { hex 6 (check_word 0 (1 ∷ [])) ≡ codes "5d6dcb" }
    ensures two { hex 6 (check_word 0 (2 ∷ [])) ≡ codes "badb96" }
    ensures four { hex 6 (check_word 0 (4 ∷ [])) ≡ codes "28dae7" }
{}

/// The published check values of the 24-bit check with this generator, over the digits 1 to 9:
/// from 0xFEDCBA and from 0xABCDEF.
pub fn published_check_values()
    ensures from_fedcba { hex 6 (check_word 16702650 (codes "123456789")) ≡ codes "7979bd" }
    ensures from_abcdef { hex 6 (check_word 11259375 (codes "123456789")) ≡ codes "1f23b8" }
{}

/// The cold-start frame of node 0, and frames with implicit C-state of two memberships.
pub fn frames()
    ensures cold_start { hex_bytes cold_start ≡ codes "0300000000000164dab6" }
    ensures implicit { hex_bytes (implicit_frame (0 ∷ [])) ≡ codes "00ddd798" }
    ensures other_members { hex_bytes (implicit_frame (0 ∷ 1 ∷ [])) ≡ codes "003b1563" }
{}

/// A frame with implicit C-state fits its own members and no others; without its last byte it is no
/// frame at all.
pub fn implicit_frames_tell_their_members()
    ensures own { fits (member_bytes false) (implicit_frame (0 ∷ [])) 0 0 0 (cstate 0 0 0 (0 ∷ [])) ≡ true }
    ensures others { fits (member_bytes false) (implicit_frame (0 ∷ [])) 0 0 0 (cstate 0 0 0 (0 ∷ 1 ∷ [])) ≡ false }
    ensures formed { is_formed (member_bytes false) (implicit_frame (0 ∷ [])) 0 0 0 ≡ true }
    ensures cut { is_formed (member_bytes false) (take 3 (implicit_frame (0 ∷ []))) 0 0 0 ≡ false }
{}

/// Frames on which a node joins, in a list whose four slots send an X frame with two bytes, an I
/// frame, an N frame with two bytes, and an I frame, and of which slot 0 may start.
pub fn joinable_frames()
    ensures explicit { joinable mixed_list (frame (member_bytes false) 2 (cstate 5 0 0 (0 ∷ [])) (1 ∷ 2 ∷ []) 0)
        ≡ Some (cstate 5 0 0 (0 ∷ [])) }
    ensures bare { joinable mixed_list (frame (member_bytes false) 1 (cstate 7 0 1 (0 ∷ 1 ∷ [])) [] 0)
        ≡ Some (cstate 7 0 1 (0 ∷ 1 ∷ [])) }
    ensures cold_start { joinable mixed_list cold_start ≡ Some (cstate 0 0 0 (0 ∷ [])) }
    ensures cold_start_of_another_time { joinable mixed_list (frame (member_bytes false) 3 (cstate 9 0 0 (0 ∷ [])) [] 0)
        ≡ Some (cstate 9 0 0 (0 ∷ [])) }
{}

/// Explicit frames of that list on which no node joins, each for one reason, and one that is not
/// explicit.
pub fn frames_that_cannot_be_joined()
    ensures other_kind { joinable mixed_list (frame (member_bytes false) 1 (cstate 5 0 0 (0 ∷ [])) [] 0) ≡ None }
    ensures kind_of_an_implicit_slot { joinable mixed_list
        (frame (member_bytes false) 2 (cstate 6 0 2 (2 ∷ [])) (1 ∷ 2 ∷ []) 0) ≡ None }
    ensures no_kind { joinable mixed_list (frame (member_bytes false) 4 (cstate 5 0 0 (0 ∷ [])) (1 ∷ 2 ∷ []) 0) ≡ None }
    ensures too_short { joinable mixed_list (frame (member_bytes false) 2 (cstate 5 0 0 (0 ∷ [])) (1 ∷ []) 0) ≡ None }
    ensures too_long { joinable mixed_list (frame (member_bytes false) 1 (cstate 7 0 1 (1 ∷ [])) (1 ∷ []) 0) ≡ None }
    ensures cold_start_with_payload { joinable mixed_list
        (frame (member_bytes false) 3 (cstate 0 0 0 (0 ∷ [])) (1 ∷ 2 ∷ []) 0) ≡ None }
    ensures wrong_word { joinable mixed_list (frame (member_bytes false) 2 (cstate 5 0 0 (0 ∷ [])) (1 ∷ 2 ∷ []) 1)
        ≡ None }
    ensures no_such_round { joinable mixed_list (frame (member_bytes false) 1 (cstate 7 1 1 (1 ∷ [])) [] 0) ≡ None }
    ensures no_such_slot { joinable mixed_list (frame (member_bytes false) 1 (cstate 7 0 4 (4 ∷ [])) [] 0) ≡ None }
    ensures no_such_member { joinable mixed_list (frame (member_bytes false) 1 (cstate 7 0 1 (1 ∷ 5 ∷ [])) [] 0)
        ≡ None }
    ensures owner_is_no_member { joinable mixed_list (frame (member_bytes false) 1 (cstate 7 0 1 (0 ∷ [])) [] 0)
        ≡ None }
    ensures slot_may_not_start { joinable mixed_list (frame (member_bytes false) 3 (cstate 0 0 1 (1 ∷ [])) [] 0)
        ≡ None }
    ensures implicit { joinable mixed_list (frame (member_bytes false) 0 (cstate 6 0 2 (2 ∷ [])) (1 ∷ 2 ∷ []) 0)
        ≡ None }
    ensures nothing { joinable mixed_list [] ≡ None }
{}

/// Flipped bits, counted from the first byte's most significant: inside the frame of ten bytes, past
/// its end, and one of them twice.
pub fn flipped_bits()
    ensures inside { hex_bytes (flip_bits cold_start (16 ∷ 79 ∷ [])) ≡ codes "0300800000000164dab7" }
    ensures past_the_end { flip_bits cold_start (80 ∷ []) ≡ cold_start }
    ensures twice { flip_bits cold_start (16 ∷ 16 ∷ []) ≡ cold_start }
{}
