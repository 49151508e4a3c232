//! Whole stories: of departures, and of entries that are as they should be.

ghost use Rattle.std.specs.Prelude.{◌≡◌};
ghost use Rattle.causes.specs.WhyText.{why_text};
ghost use Rattle.cause_rows.specs.Clusters.{bare_five, latent_loss, latent_numbers, noisy, noisy_numbers, drifting_five};
ghost use Rattle.cause_rows.specs.Clusters.{deaf_starter, deaf_starter_numbers, clocks, clock_numbers};
ghost use Rattle.cause_rows.specs.Clusters.{jump, jump_numbers, mixed, flips, flip_numbers};
ghost use Rattle.cause_rows.specs.Texts.{latent_2, latent_4, noisy_4, deaf_1, deaf_2, clocks_4};
ghost use Rattle.cause_rows.specs.Texts.{jump_2, jump_2_22, jump_3_22, flips_3, flips_4_35, flips_0_16};

/// Receivers 3 and 4 are dead on channel A, and one frame of node 2 is lost on channel B.
pub fn a_latent_fault()
    ensures node_2 { why_text bare_five latent_loss latent_numbers 2 24 ≡ latent_2 }
    ensures node_4 { why_text bare_five latent_loss latent_numbers 4 29 ≡ latent_4 }
{}

/// The first frame behind the cold start is noise.
pub fn a_noisy_frame()
    ensures node_4 { why_text bare_five noisy noisy_numbers 4 14 ≡ noisy_4 }
{}

/// The starter is deaf from its start on, and starts again and again; node 2 is armed, and its stint begins at another time
/// than it would without the fault.
pub fn a_deaf_starter()
    ensures node_1 { why_text bare_five deaf_starter deaf_starter_numbers 1 23 ≡ deaf_1 }
    ensures node_2 { why_text bare_five deaf_starter deaf_starter_numbers 2 61 ≡ deaf_2 }
{}

/// Three nodes are left, and a clock is corrected by four.
pub fn clocks_apart()
    ensures node_4 { why_text drifting_five clocks clock_numbers 4 54 ≡ clocks_4 }
{}

/// A node leaves by the jump of its own clock. Its frame is as it should be, and two others do not hear it.
pub fn a_jump()
    ensures node_2 { why_text bare_five jump jump_numbers 2 27 ≡ jump_2 }
    ensures own_slot { why_text bare_five jump jump_numbers 2 22 ≡ jump_2_22 }
    ensures node_3 { why_text bare_five jump jump_numbers 3 22 ≡ jump_3_22 }
{}

/// Two flips of one bit cancel, and one of a bit past the frame's end does nothing. Two starters collide.
pub fn flipped_bits()
    ensures node_3 { why_text mixed flips flip_numbers 3 37 ≡ flips_3 }
    ensures node_4 { why_text mixed flips flip_numbers 4 35 ≡ flips_4_35 }
    ensures node_0 { why_text mixed flips flip_numbers 0 16 ≡ flips_0_16 }
{}
