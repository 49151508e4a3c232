//! The waveform.
ghost use Rattle.std.specs.Prelude.{◌≡◌, ◌^◌, pos, negsuc, [], ◌∷◌, codes, Some, None, false};
ghost use Rattle.ttp_world.specs.declared.node.Ack.TheVariants as ack;
ghost use Rattle.line_reader.specs.declared.trace_line.Word.TheVariants as word;
ghost use Rattle.shown_slot.specs.declared.node.Sender.TheVariants as sent_by;
ghost use Rattle.wave_text.specs.Values.{number_text, wires_text, phase_text, sender_text, agreement_text};
ghost use Rattle.wave_text.specs.Values.{unless_off, held_text, clock_text, node_ack_text, bytes_text};
ghost use Rattle.wave_text.specs.Wave.{wave_lines, change_line};
ghost use Rattle.lab_rows.specs.Small.{small};
ghost use Rattle.lab_rows.specs.SmallWave.{small_wave, ended};

/// A trace of four nodes and three slots, whole: its declarations, the values of the first slot, and what
/// changes in the others.
pub fn small_trace()
    ensures { wave_lines small ≡ small_wave }
{}

/// How numbers, sets of nodes, clocks, acknowledgements and messages are written.
pub fn values()
    ensures zero { number_text 0 ≡ codes "b0" }
    ensures one { number_text 1 ≡ codes "b1" }
    ensures five { number_text 5 ≡ codes "b101" }
    ensures far { number_text (2 ^ 63) ≡ codes "b1000000000000000000000000000000000000000000000000000000000000000" }
    ensures narrow { wires_text 16 5 ≡ codes "b0000000000000101" }
    ensures wide { wires_text 24 8388608 ≡ codes "b100000000000000000000000" }
    ensures ahead { clock_text (pos 7) ≡ codes "r7" }
    ensures behind { clock_text (negsuc 25) ≡ codes "r-26" }
    ensures doubt { node_ack_text (ack.Doubt 12) ≡ codes "sdoubt:12" }
    ensures bytes { bytes_text (1 ∷ 255 ∷ []) ≡ codes "b0000000111111111" }
    ensures nobody { sender_text sent_by.Nobody ≡ codes "bz" }
    ensures several { sender_text sent_by.Several ≡ codes "bx" }
    ensures none { agreement_text None ≡ codes "z" }
    ensures differ { agreement_text (Some false) ≡ codes "0" }
    ensures off { unless_off word.Off (codes "b1") ≡ codes "bx" }
    ensures gone { held_text word.Gone (codes "b1") ≡ codes "bz" }
{}

/// The phase of each word.
pub fn phases()
    ensures off { phase_text word.Off ≡ codes "off" }
    ensures wait { phase_text word.Wait ≡ codes "listening" }
    ensures retry { phase_text word.Retry ≡ codes "listening" }
    ensures gone { phase_text word.Gone ≡ codes "left" }
    ensures start { phase_text word.Start ≡ codes "active" }
    ensures join { phase_text word.Join ≡ codes "active" }
    ensures send { phase_text word.Send ≡ codes "active" }
    ensures correct { phase_text word.Correct ≡ codes "active" }
    ensures tentative { phase_text word.Tentative ≡ codes "active" }
    ensures incorrect { phase_text word.Incorrect ≡ codes "active" }
    ensures invalid { phase_text word.Invalid ≡ codes "active" }
    ensures null { phase_text word.Null ≡ codes "active" }
    ensures denied { phase_text word.Denied ≡ codes "left" }
    ensures unacknowledged { phase_text word.Unacknowledged ≡ codes "left" }
    ensures clique { phase_text word.Clique ≡ codes "left" }
{}

/// Changes: with a space where the value has two characters or more.
pub fn changes()
    ensures wire { change_line (codes "1") (codes "a") ≡ ended (codes "1a") }
    ensures nothing { change_line (codes "z") (codes "a") ≡ ended (codes "za") }
    ensures number { change_line (codes "b101") (codes "b") ≡ ended (codes "b101 b") }
    ensures text { change_line (codes "scorrect") (codes "cA") ≡ ended (codes "scorrect cA") }
    ensures real { change_line (codes "r-26") (codes "jA") ≡ ended (codes "r-26 jA") }
{}
