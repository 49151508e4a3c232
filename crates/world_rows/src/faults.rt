//! Faults of senders and receivers, of channels, bits and clocks.
ghost use Rattle.std.specs.Prelude.{◌≡◌, [], ◌∷◌, ◌++◌, true, codes};
ghost use Rattle.ttp_world.specs.declared.keep.Keep.TheVariants as keep;
ghost use Rattle.ttp_world.specs.declared.node.Ack.TheVariants as ack;
ghost use Rattle.ttp_world.specs.declared.node.ChannelView.TheVariants as view;
ghost use Rattle.ttp_world.specs.declared.node.Verdict.TheVariants as verdict;
ghost use Rattle.ttp_world.specs.declared.script.Channel.TheVariants as channel;
ghost use Rattle.ttp_world.specs.Hypothesis.{keeps};
ghost use Rattle.ttp_world.specs.Medium.{Silence, Noise, Bits, channel_signal};
ghost use Rattle.ttp_world.specs.Reception.{verdict_of};
ghost use Rattle.world_rows.specs.Cases.{bare_list, bare_run, bare_lines, lines_in, hold_from, is_safe_from};
ghost use Rattle.world_rows.specs.Frames.{two_frames};
ghost use Rattle.world_rows.specs.Scripts.{noisy_sender, silent_sender, silent_and_noisy_sender, noisy_sender_of_four};
ghost use Rattle.world_rows.specs.Scripts.{noisy_channel, deaf_before_its_slot, deaf_in_between, deaf_for_good};
ghost use Rattle.world_rows.specs.Scripts.{deaf_by_both, silence_over_noise, other_and_bad, flipped_inside};
ghost use Rattle.world_rows.specs.Scripts.{flipped_on_a, flipped_past_the_end, at_the_window, outside_the_window};
ghost use Rattle.world_rows.specs.Scripts.{collided_noise, one_silenced};

/// Node 2 sends noise in slot 22. All others reject it; its first successor's frame puts it in doubt
/// and its second successor's frame denies it.
pub fn noisy_sender_leaves()
    ensures run { let run = bare_run (bare_list 5) noisy_sender 40 in
        (lines_in (bare_list 5) noisy_sender run ((22, 0) ∷ (23, 2) ∷ (24, 2) ∷ [])
        ≡ codes "slot 22 node 0 invalid peer 2 msg - mem 001b acc 2 rej 1 ack none clock 0\n"
        ++ codes "slot 23 node 2 tentative peer 3 msg - mem 001f acc 1 rej 0 ack doubt:3 clock 0\n"
        ++ codes "slot 24 node 2 denied peer 4 msg - mem 0000 acc 0 rej 0 ack none clock 0\n")
        × (hold_from 24 (bare_list 5) run (0 ∷ 1 ∷ 3 ∷ 4 ∷ []) (0 ∷ 1 ∷ 3 ∷ 4 ∷ []) ≡ true)
        × (is_safe_from 10 (bare_list 5) noisy_sender run ≡ true) }
    ensures keeps { keeps (bare_list 5) noisy_sender ≡ keep.Yes 10 }
{}

/// A silent sender ends in the same way, but silence is no reason to reject.
pub fn silent_sender_leaves()
    ensures lines { bare_lines (bare_list 5) silent_sender 25 ((22, 0) ∷ (23, 2) ∷ (24, 2) ∷ [])
        ≡ codes "slot 22 node 0 null peer 2 msg - mem 001b acc 2 rej 0 ack none clock 0\n"
        ++ codes "slot 23 node 2 tentative peer 3 msg - mem 001f acc 1 rej 0 ack doubt:3 clock 0\n"
        ++ codes "slot 24 node 2 denied peer 4 msg - mem 0000 acc 0 rej 0 ack none clock 0\n" }
{}

/// Where silence and noise are both scripted, silence holds: at a sender, and at a receiver.
pub fn silence_holds_over_noise()
    ensures sender { bare_lines (bare_list 5) silent_and_noisy_sender 23 ((22, 0) ∷ [])
        ≡ codes "slot 22 node 0 null peer 2 msg - mem 001b acc 2 rej 0 ack none clock 0\n" }
    ensures receiver { bare_lines (bare_list 5) silence_over_noise 23 ((22, 0) ∷ (22, 1) ∷ [])
        ≡ codes "slot 22 node 0 null peer 2 msg - mem 001b acc 2 rej 0 ack none clock 0\n"
        ++ codes "slot 22 node 1 correct peer 2 msg - mem 001f acc 2 rej 0 ack none clock 0\n" }
{}

/// A cluster of four cannot lose one: three are fewer than the clocks need, and the test says so.
pub fn four_left_with_three()
    ensures line { bare_lines (bare_list 4) noisy_sender_of_four 19 ((18, 0) ∷ [])
        ≡ codes "slot 18 node 0 denied peer 2 msg - mem 0000 acc 0 rej 0 ack none clock 0\n" }
    ensures members { hold_from 18 (bare_list 4) (bare_run (bare_list 4) noisy_sender_of_four 30) (1 ∷ 2 ∷ 3 ∷ [])
        (1 ∷ 2 ∷ 3 ∷ []) ≡ true }
    ensures keeps { keeps (bare_list 4) noisy_sender_of_four ≡ keep.No 7 16 }
{}

/// One channel that is always noisy takes nothing from a cluster that has two.
pub fn one_noisy_channel()
    ensures members { hold_from 14 (bare_list 5) (bare_run (bare_list 5) noisy_channel 40) (0 ∷ 1 ∷ 2 ∷ 3 ∷ 4 ∷ [])
        (0 ∷ 1 ∷ 2 ∷ 3 ∷ 4 ∷ []) ≡ true }
    ensures keeps { keeps (bare_list 5) noisy_channel ≡ keep.Yes 10 }
{}

/// Node 3 does not hear node 2's frame in the slot before its own. Its own frame then puts node 2 in
/// doubt about it; node 4's frame settles the doubt against node 3, which leaves unacknowledged.
pub fn deaf_receiver_is_doubted()
    ensures run { let run = bare_run (bare_list 6) deaf_before_its_slot 48 in
        (lines_in (bare_list 6) deaf_before_its_slot run ((27, 3) ∷ (27, 2) ∷ (28, 2) ∷ (33, 3) ∷ [])
        ≡ codes "slot 27 node 3 send peer 3 msg - mem 003b acc 1 rej 0 ack first clock 0\n"
        ++ codes "slot 27 node 2 tentative peer 3 msg - mem 003f acc 1 rej 0 ack doubt:3 clock 0\n"
        ++ codes "slot 28 node 2 correct peer 4 msg - mem 0037 acc 2 rej 1 ack none clock 0\n"
        ++ codes "slot 33 node 3 unacknowledged peer 3 msg - mem 0000 acc 0 rej 0 ack none clock 0\n")
        × (is_safe_from 12 (bare_list 6) deaf_before_its_slot run ≡ true) }
    ensures keeps { keeps (bare_list 6) deaf_before_its_slot ≡ keep.Yes 12 }
{}

/// Node 1 does not hear node 4's frame, and so rejects the frames of those that did. With as many
/// accepted as rejected it leaves: a tie leaves.
pub fn deaf_receiver_leaves_for_clique()
    ensures run { let run = bare_run (bare_list 6) deaf_in_between 48 in
        (lines_in (bare_list 6) deaf_in_between run ((30, 1) ∷ (31, 1) ∷ [])
        ≡ codes "slot 30 node 1 incorrect peer 0 msg - mem 000e acc 3 rej 3 ack none clock 0\n"
        ++ codes "slot 31 node 1 clique peer 1 msg - mem 0000 acc 0 rej 0 ack none clock 0\n")
        × (is_safe_from 12 (bare_list 6) deaf_in_between run ≡ true) }
    ensures keeps { keeps (bare_list 6) deaf_in_between ≡ keep.Yes 12 }
{}

/// Node 1 sent in slot 25 and hears nothing more: nobody acknowledges its frame.
pub fn receiver_deaf_for_good()
    ensures run { let run = bare_run (bare_list 6) deaf_for_good 48 in
        (lines_in (bare_list 6) deaf_for_good run ((25, 1) ∷ (30, 1) ∷ (31, 1) ∷ [])
        ≡ codes "slot 25 node 1 send peer 1 msg - mem 003f acc 1 rej 0 ack first clock 0\n"
        ++ codes "slot 30 node 1 null peer 0 msg - mem 0002 acc 1 rej 0 ack first clock 0\n"
        ++ codes "slot 31 node 1 unacknowledged peer 1 msg - mem 0000 acc 0 rej 0 ack none clock 0\n")
        × (is_safe_from 12 (bare_list 6) deaf_for_good run ≡ true) }
    ensures keeps { keeps (bare_list 6) deaf_for_good ≡ keep.Yes 12 }
{}

/// A sender's fault on one channel and a receiver's on the other are to that receiver as its own
/// fault on both: the diaries are the same, here after 34 slots.
pub fn faults_split_over_the_channels()
    ensures same_diaries { bare_run (bare_list 6) deaf_by_both 34 ≡ bare_run (bare_list 6) deaf_before_its_slot 34 }
    ensures lines { bare_lines (bare_list 6) deaf_by_both 34 ((27, 3) ∷ (27, 2) ∷ (28, 2) ∷ (33, 3) ∷ [])
        ≡ codes "slot 27 node 3 send peer 3 msg - mem 003b acc 1 rej 0 ack first clock 0\n"
        ++ codes "slot 27 node 2 tentative peer 3 msg - mem 003f acc 1 rej 0 ack doubt:3 clock 0\n"
        ++ codes "slot 28 node 2 correct peer 4 msg - mem 0037 acc 2 rej 1 ack none clock 0\n"
        ++ codes "slot 33 node 3 unacknowledged peer 3 msg - mem 0000 acc 0 rej 0 ack none clock 0\n" }
    ensures keeps { keeps (bare_list 6) deaf_by_both ≡ keep.Yes 12 }
{}

/// A frame of another C-state on one channel and noise on the other: the better view is taken.
pub fn other_frame_beside_noise()
    ensures line { bare_lines (bare_list 6) other_and_bad 28 ((27, 0) ∷ [])
        ≡ codes "slot 27 node 0 incorrect peer 3 msg - mem 0037 acc 3 rej 1 ack none clock 0\n" }
{}

/// A view of the second candidate counts as another frame where the acknowledgement is closed.
pub fn second_view_when_closed()
    ensures alone { verdict_of view.Second view.Silent ack.Closed ≡ verdict.Incorrect }
    ensures beside_noise { verdict_of view.Bad view.Second ack.Closed ≡ verdict.Incorrect }
    ensures beside_the_first { verdict_of view.Second view.First ack.Closed ≡ verdict.Correct }
    ensures first_successor { verdict_of view.Second view.Silent ack.First ≡ verdict.Tentative }
    ensures second_successor { verdict_of view.Second view.Silent (ack.Doubt 3) ≡ verdict.Denied }
{}

/// A flipped bit spoils an explicit frame, on one channel harmlessly; a bit past the end is none.
pub fn flips_in_a_slot()
    ensures inside { bare_lines (bare_list 5) flipped_inside 12 ((11, 0) ∷ [])
        ≡ codes "slot 11 node 0 invalid peer 1 msg - mem 0001 acc 1 rej 1 ack first clock 0\n" }
    ensures on_one_channel { bare_lines (bare_list 5) flipped_on_a 12 ((11, 0) ∷ [])
        ≡ codes "slot 11 node 0 correct peer 1 msg - mem 0003 acc 2 rej 0 ack none clock 0\n" }
    ensures past_the_end { bare_lines (bare_list 5) flipped_past_the_end 12 ((11, 0) ∷ [])
        ≡ codes "slot 11 node 0 correct peer 1 msg - mem 0003 acc 2 rej 0 ack none clock 0\n" }
{}

/// A frame may come as late as the window is wide, and no later.
pub fn frames_at_the_window()
    ensures within { bare_lines (bare_list 5) at_the_window 12 ((11, 0) ∷ (11, 1) ∷ [])
        ≡ codes "slot 11 node 0 correct peer 1 msg - mem 0003 acc 2 rej 0 ack none clock 0\n"
        ++ codes "slot 11 node 1 send peer 1 msg - mem 0003 acc 1 rej 0 ack first clock 1\n" }
    ensures outside { bare_lines (bare_list 5) outside_the_window 12 ((11, 0) ∷ (11, 1) ∷ [])
        ≡ codes "slot 11 node 0 invalid peer 1 msg - mem 0001 acc 1 rej 1 ack first clock 0\n"
        ++ codes "slot 11 node 1 send peer 1 msg - mem 0003 acc 1 rej 0 ack first clock 2\n" }
{}

/// What is on a channel on which two nodes send: noise, be it of two frames or of two noises; and the
/// one frame where the other is silenced.
pub fn two_senders_on_a_channel()
    ensures frames { channel_signal collided_noise 4 channel.A two_frames ≡ Noise }
    ensures noises { channel_signal collided_noise 3 channel.A two_frames ≡ Noise }
    ensures one_silenced { channel_signal one_silenced 3 channel.A two_frames ≡ Bits 1 (7 ∷ []) }
    ensures on_the_other { channel_signal one_silenced 3 channel.B two_frames ≡ Noise }
    ensures nobody { channel_signal one_silenced 3 channel.A [] ≡ Silence }
{}
