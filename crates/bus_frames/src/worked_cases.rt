//! Lines that were worked out apart from the definitions. The functions have no code: their contracts are the
//! cases, and the check computes them.
ghost use Rattle.std.specs.Prelude.{◌≡◌, [], ◌∷◌, codes, true};
ghost use Rattle.ttp_world.specs.declared.script.Channel.TheVariants as channel;
ghost use Rattle.ttp_world.specs.Medium.{Noise, Bits};
ghost use Rattle.bus_frames.specs.FrameText.{frame_line, signal_line};
ghost use Rattle.bus_frames.specs.WorkedCases.{five_senders, sends_at, all_five, bytes_behind};

/// A frame of each kind, as it was sent: a cold start, one with an implicit C-state, one with an explicit
/// C-state and payload, and one without payload.
#[tactic(auto, unfolding(ttp_world::specs::Trace::digits))]
fn each_kind()
    ensures cold { signal_line five_senders 10 channel.A (sends_at 0 3 0 0 0 (0 ∷ []))
        (Bits 0 (bytes_behind (sends_at 0 3 0 0 0 (0 ∷ [])) [] []))
        ≡ codes "slot 10 A node 0 cold match clock 0 state 000000000001 03 000000000001 840b89\n" }
    ensures implicit { signal_line five_senders 21 channel.A (sends_at 1 0 3 11 0 all_five)
        (Bits 1 (bytes_behind (sends_at 1 0 3 11 0 all_five) (10 ∷ 11 ∷ 12 ∷ []) []))
        ≡ codes "slot 21 A node 1 N match clock 0 state 000b0001001f 00 0a0b0c d3b4a6\n" }
    ensures explicit { signal_line five_senders 23 channel.A (sends_at 3 2 1 13 0 all_five)
        (Bits 3 (bytes_behind (sends_at 3 2 1 13 0 all_five) (0 ∷ []) []))
        ≡ codes "slot 23 A node 3 X match clock 0 state 000d0003001f 02 000d0003001f 00 3e73aa\n" }
    ensures bare { signal_line five_senders 26 channel.A (sends_at 1 1 0 16 1 all_five)
        (Bits 1 (bytes_behind (sends_at 1 1 0 16 1 all_five) [] []))
        ≡ codes "slot 26 A node 1 I match clock 0 state 00100101001f 01 00100101001f fff3ca\n" }
{}

/// What faults of the sender leave: a flip of the last bit of a payload, whose check word is over another
/// C-state for all that a receiver knows; one of a bit of an explicit C-state, which breaks the word; noise; and
/// a frame that meets another.
#[tactic(auto, unfolding(ttp_world::specs::Trace::digits))]
fn faults()
    ensures differs { signal_line five_senders 21 channel.B (sends_at 1 0 3 11 0 all_five)
        (Bits 1 (bytes_behind (sends_at 1 0 3 11 0 all_five) (10 ∷ 11 ∷ 12 ∷ []) (31 ∷ [])))
        ≡ codes "slot 21 B node 1 N differs clock 0 state 000b0001001f 00 0a0b0d d3b4a6\n" }
    ensures invalid { signal_line five_senders 25 channel.A (sends_at 0 2 2 15 1 all_five)
        (Bits 0 (bytes_behind (sends_at 0 2 2 15 1 all_five) (0 ∷ 0 ∷ []) (31 ∷ [])))
        ≡ codes "slot 25 A node 0 X invalid clock 0 state 000f0100001f 02 000f0000001f 0000 6bc002\n" }
    ensures noise { signal_line five_senders 28 channel.A (sends_at 3 2 1 18 1 all_five) Noise
        ≡ codes "slot 28 A node 3 X noise clock 0 state 00120103001f\n" }
    ensures collision { frame_line five_senders 11 channel.A (sends_at 0 3 0 0 0 (0 ∷ [])) true Noise
        ≡ codes "slot 11 A node 0 cold collision clock 0 state 000000000001\n" }
{}
