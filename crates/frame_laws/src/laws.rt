//! The laws of the lines of frames. The functions do nothing; their contracts are the laws.
ghost use Rattle.std.specs.Prelude.{◌≡◌, ℕ, ◌<◌, ◌≤◌, ◌∷◌, [], ◌&&◌, not, List, length, map, codes, true, if◌then◌else◌};
ghost use Rattle.ttp_base.specs.Text.{lines_below};
ghost use Rattle.ttp_world.specs.declared.medl.Medl.{Medl};
ghost use Rattle.ttp_world.specs.declared.node.Chosen.{Chosen};
ghost use Rattle.ttp_world.specs.declared.node.Entry.{Entry};
ghost use Rattle.ttp_world.specs.declared.script.Channel.{Channel};
ghost use Rattle.ttp_world.specs.declared.script.Fault.TheVariants as fault;
ghost use Rattle.ttp_world.specs.declared.script.Script.{Script};
ghost use Rattle.ttp_world.specs.Diary.{History, cstate_at, entry_of};
ghost use Rattle.ttp_world.specs.Legal.{IsLegal};
ghost use Rattle.ttp_world.specs.Medium.{SentFrame, Bits, Silence, Noise, channel_signal, flip_bits, is_sending};
ghost use Rattle.ttp_world.specs.Medl.{IsValid};
ghost use Rattle.ttp_world.specs.Script.{IsValidScript, flipped_bits, has_send_fault};
ghost use Rattle.ttp_world.specs.World.{Numbers, SlotNumbers, messages_chosen, node_past, row_in, slot_after, world};
ghost use Rattle.bus_frames.specs.FrameText.{channel_lines, found_word};
ghost use Rattle.bus_frames.specs.Sending.{frames_sent, sending_in};
ghost use Rattle.bus_frames.specs.Standing.{frames_there, frames_told, lines_of_node};
ghost use Rattle.bus_frames.specs.declared.sending.Sending.{Sending};
ghost use Rattle.bus_frames.specs.FrameText.{signal_line};
ghost use Rattle.frame_laws.specs.Lines.{IsLoneLine, meeting_line};
ghost use Rattle.frame_laws.specs.Reading.{IsReadBack, IsToldFrame};

/// A channel without a line is silent (`none`), and a silent one has none (`silent`). One line says what is
/// on it (`alone`). Where there are two or more it is noise (`noise`), and each says `collision` (`meet`).
pub fn channels()
    ensures none { (list : Medl) (script : Script) (row : List Entry) (before : History) (c : Channel)
        → channel_lines list script row before c ≡ []
        → channel_signal script (length before) c (frames_sent list script row before) ≡ Silence }
    ensures silent { (list : Medl) (script : Script) (row : List Entry) (before : History) (c : Channel)
        → channel_signal script (length before) c (frames_sent list script row before) ≡ Silence
        → channel_lines list script row before c ≡ [] }
    ensures alone { (list : Medl) (script : Script) (row : List Entry) (before : History) (c : Channel)
        → length (channel_lines list script row before c) ≡ 1 → IsLoneLine list script row before c }
    ensures noise { (list : Medl) (script : Script) (row : List Entry) (before : History) (c : Channel)
        → 2 ≤ length (channel_lines list script row before c)
        → channel_signal script (length before) c (frames_sent list script row before) ≡ Noise }
    ensures meet { (list : Medl) (script : Script) (row : List Entry) (before : History) (c : Channel)
        → 2 ≤ length (channel_lines list script row before c)
        → channel_lines list script row before c
        ≡ map (meeting_line list script before c) (frames_there list script row before c) }
{}

/// The lines of a channel are those of its nodes, one node after another (`order`). A node has one where its
/// entry says that it sends and the script has no send fault `silence` of it there, and else none
/// (`count`). The C-state that it tells is the one that the node holds after the slot (`state`). The row is
/// any that ends the slot.
pub fn nodes()
    ensures order { (list : Medl) (script : Script) (row : List Entry) (before : History) (c : Channel)
        → channel_lines list script row before c
        ≡ lines_below (lines_of_node list script row before c (frames_there list script row before c))
        (length list.slots) }
    ensures count { (list : Medl) (script : Script) (before : History) (chosen : List Chosen) (k : ℕ)
        → k < length list.slots → (c : Channel) (there : List SentFrame)
        → (let row = row_in (slot_after list script before) chosen in
        length (lines_of_node list script row before c there k)
        ≡ (if is_sending (entry_of row k) && not (has_send_fault script fault.Silence k c (length before)) then 1
        else 0)) }
    ensures state { (list : Medl) (script : Script) (before : History) (chosen : List Chosen) (k : ℕ)
        → IsValid list → k < length list.slots
        → (let row = row_in (slot_after list script before) chosen in
        is_sending (entry_of row k) ≡ true
        → (sending_in (slot_after list script before) k).state
        ≡ cstate_at (node_past list script (row ∷ before) k).place (node_past list script (row ∷ before) k).members) }
{}

/// The bytes of a frame of which no bit is flipped are a match, in each slot of a run by legal numbers.
pub fn unflipped()
    ensures { (list : Medl) (script : Script) (new : SlotNumbers) (numbers : Numbers) (k : ℕ) (c : Channel)
        → IsValidScript list script → IsLegal list script (new ∷ numbers) → k < length list.slots
        → (let before = world list script numbers in
        let row = row_in (slot_after list script before) (messages_chosen list script (length numbers) new.sent) in
        is_sending (entry_of row k) ≡ true → flipped_bits script k c (length before) ≡ []
        → (sent : SentFrame) → frames_told list script row before k ≡ sent ∷ []
        → found_word list (sending_in (slot_after list script before) k)
        (flip_bits sent.bytes (flipped_bits script k c (length before))) ≡ codes "match") }
{}

/// The way back. A line with bytes is read as one row of values alone: slot, channel, sender, kind of frame, what the bytes are,
/// clock, C-state, and the header, C-state, payload and check word of the bytes, which put together are the bytes. What the
/// bytes are is `match_of` of them, with the header and size of the kind and the C-state that the line tells: what `judge` of
/// ttp_frame answers, with the schedule's number of the first line.
pub fn way_back()
    ensures { (list : Medl) (slot : ℕ) (c : Channel) (sending : Sending) (bytes : List ℕ) (k : ℕ)
        → IsToldFrame list slot sending bytes
        → IsReadBack list slot c sending bytes (signal_line list slot c sending (Bits k bytes)) }
{}
