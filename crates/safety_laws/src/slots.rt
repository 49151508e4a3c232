//! The laws of one slot and of the start. The functions do nothing; their contracts are the laws, for
//! every list, script and past that meets what they name:
//!
//! - [`views`]: at one place an undisturbed frame inside the window is seen by its members alone;
//! - [`hearing`]: what comes to a node where one node sends, or none, by the faults of both;
//! - [`one_slot`]: a world's node after one slot more is what its slot makes of it;
//! - [`one_sender`]: so what comes to each node of a world in a slot with one sender, or none;
//! - [`judged`], [`own_slot`]: what an active node holds after another's slot and its own;
//! - [`groups`]: a node that holds a group of nodes for members goes on doing so, with the owner of each
//!   slot put in or taken out;
//! - [`unanswered`]: a node that no frame answers keeps its acknowledgement open, or leaves;
//! - [`idle`]: who sends nothing;
//! - [`listening`]: a node that has left and is armed, or still listens, waits or joins;
//! - [`start`]: until a first node's limit is reached each node waits in silence, and then all that are
//!   on begin on that node's frame.
//!
//! A node in a slot is a `NodeSlot` of `specs/NodeSlot.antt`: what it is before, and what the slot
//! brings to it. Most laws speak of one alone, and of no history; what a node then holds is `StandsBy`,
//! and that it has left `HasJustLeft`, of `specs/Standing.antt`. A caller gets the `NodeSlot` of a
//! world's node by `one_slot`. For proofs to cite, each law stands in a file of `proofs/`: `Views`,
//! `Hearing` and `Senders`, `Joins`, `NodeSlots`, `WorldTurns`, `OneSender`, `Payloads`, `Verdicts`,
//! `Deliveries`, `OwnSlots`, `Idle`, `Groups`, `Unanswered`, `Listening`, `Waiting` and `StartSlot`.
//!
//! No law asks anything of the hypothesis test but the start that it knows. They say nothing of whole
//! runs but for their start.
ghost use Rattle.std.specs.Prelude.{◌≡◌, ◌≢◌, ◌↔◌, ℕ, ◌+◌, ◌*◌, ◌<◌, ◌≤◌, ℤ, pos, neg_ℤ, ◌≤ℤ◌, ◌⊎◌, true, false};
ghost use Rattle.std.specs.Prelude.{List, [], ◌∷◌, length, Option, IsTrue};
ghost use Rattle.ttp_base.specs.NodeSet.{has_node, with_node, without_node};
ghost use Rattle.ttp_world.specs.declared.medl.Medl.{Medl};
ghost use Rattle.ttp_world.specs.declared.node.Ack.TheVariants as ack;
ghost use Rattle.ttp_world.specs.declared.node.ChannelView.TheVariants as view;
ghost use Rattle.ttp_world.specs.declared.node.Chosen.{Chosen};
ghost use Rattle.ttp_world.specs.declared.node.Entry.TheVariants as entry;
ghost use Rattle.ttp_world.specs.declared.node.Phase.TheVariants as phase;
ghost use Rattle.ttp_world.specs.declared.node.Reason.TheVariants as reason;
ghost use Rattle.ttp_world.specs.declared.node.Verdict.{Verdict};
ghost use Rattle.ttp_world.specs.declared.node.Verdict.TheVariants as verdict;
ghost use Rattle.ttp_world.specs.declared.script.Channel.{Channel};
ghost use Rattle.ttp_world.specs.declared.script.Script.{Script};
ghost use Rattle.ttp_world.specs.Acknowledgement.{is_open};
ghost use Rattle.ttp_world.specs.Conduct.{cold_start_frame, own_frame, message_sent, listening_entry, delivery};
ghost use Rattle.ttp_world.specs.Diary.{History, Place, start_place, entry_of};
ghost use Rattle.ttp_world.specs.Frame.{is_explicit};
ghost use Rattle.ttp_world.specs.Hypothesis.{ClusterStart, is_covered, loses, start_of};
ghost use Rattle.ttp_world.specs.Legal.{IsLegal};
ghost use Rattle.ttp_world.specs.Medium.{SentFrame, heard};
ghost use Rattle.ttp_world.specs.Medl.{may_start, IsValid};
ghost use Rattle.ttp_world.specs.Membership.{is_accepted};
ghost use Rattle.ttp_world.specs.Reception.{Hearing, expected_header, expected_of, is_within_window, view_of_bits};
ghost use Rattle.ttp_world.specs.Script.{is_ever_on, is_on, flipped_bits, IsValidScript};
ghost use Rattle.ttp_world.specs.Starts.{StartsAlone};
ghost use Rattle.ttp_world.specs.World.{BegunSlot, Numbers, SlotNumbers, node_past, slot_after, frames_of, frames_in};
ghost use Rattle.ttp_world.specs.World.{hearing_in, deviation_in, row_in, step, messages_chosen, world};
ghost use Rattle.safety_laws.specs.Deliveries.{delivery_at};
ghost use Rattle.safety_laws.specs.Groups.{IsNotAbout, HoldsGroup, IsUnanswered, HearsNoAnswer, StaysUnanswered};
ghost use Rattle.safety_laws.specs.Heard.{is_frameless, IsUnflipped, signal_as_sent, HearsFrame, HearsNoFrame};
ghost use Rattle.safety_laws.specs.Heard.{HearsSilence};
ghost use Rattle.safety_laws.specs.Listening.{ListensInSlot, HearsPlace, HearsNoPlace};
ghost use Rattle.safety_laws.specs.NodeSlot.{NodeSlot, node_slot, frames_made, entry_made, next_past, slot_place};
ghost use Rattle.safety_laws.specs.NodeSlot.{owner_of, candidates_of};
ghost use Rattle.safety_laws.specs.Senders.{SendsAlone, NoneSends};
ghost use Rattle.safety_laws.specs.SlotFrames.{IsSlotFrame, view_of_members};
ghost use Rattle.safety_laws.specs.Standing.{StandsBy, HasJustLeft, IsJudgedAs, sent_standing, joined_on};
ghost use Rattle.safety_laws.specs.Standing.{joined_standing, HasWaited};
ghost use Rattle.safety_laws.specs.Start.{IsStartHeard, Waits, starter_standing, joined_on_start, IsStartedBy};
ghost use Rattle.safety_laws.specs.Turns.{IsJudging, HearsMembers, HearsOutside, IsAtOwnSlot, HasPayload};

/// How an active node sees bits in another's slot. The frame that the list gives for the place at which
/// the node itself stands, inside the window, is seen by the members of its sender alone, whichever
/// kind it is of. A frame outside the window is bad, and so is a cold-start frame. The window reaches as
/// far to both sides of 0, and both ends belong to it (`window`).
pub fn views()
    ensures inside { (x : NodeSlot) (members bytes : List ℕ) (deviation : ℤ) → IsJudging x
        → IsSlotFrame x.list (slot_place x) members bytes → IsTrue (is_within_window x.list deviation)
        → view_of_bits x.list (expected_of x.list x.node x.past) bytes deviation
        ≡ view_of_members (candidates_of x) members }
    ensures outside { (x : NodeSlot) (bytes : List ℕ) (deviation : ℤ) → is_within_window x.list deviation ≡ false
        → view_of_bits x.list (expected_of x.list x.node x.past) bytes deviation ≡ view.Bad }
    ensures window { (list : Medl) (deviation : ℤ) → IsTrue (is_within_window list deviation)
        ↔ ((neg_ℤ list.window ≤ℤ deviation) × (deviation ≤ℤ list.window)) }
    ensures cold_start { (x : NodeSlot) (p : ℕ) (deviation : ℤ)
        → view_of_bits x.list (expected_of x.list x.node x.past) (cold_start_frame x.list p) deviation ≡ view.Bad }
{}

/// What comes to a node in a slot in which one node sends, or none. On a channel on which no fault of the
/// sender or the receiver covers it, the frame comes as it was sent, if no bit is flipped (`uncovered`),
/// and on another no frame comes (`covered`). So a node that does not lose it hears it, on one channel at
/// least (`kept`), and one that loses it hears no frame (`lost`); where nobody sends there is silence
/// (`silent`). A listening node waits where no frame comes (`waits`), and joins on a cold-start frame of a
/// node that may start (`joins`).
pub fn hearing()
    ensures none_sends { (s : BegunSlot) (chosen : List Chosen)
        → ((k : ℕ) → k < length s.list.slots → frames_of s chosen k ≡ []) → frames_in s chosen ≡ [] }
    ensures one_sends { (s : BegunSlot) (chosen : List Chosen) (p : ℕ) → p < length s.list.slots
        → ((k : ℕ) → k < length s.list.slots → k ≢ p → frames_of s chosen k ≡ [])
        → frames_in s chosen ≡ frames_of s chosen p }
    ensures uncovered { (script : Script) (slot r : ℕ) (c : Channel) (sent : SentFrame)
        → flipped_bits script sent.sender c slot ≡ [] → is_covered script sent.sender r slot c ≡ false
        → heard script slot r c (sent ∷ []) ≡ signal_as_sent sent }
    ensures covered { (script : Script) (slot r : ℕ) (c : Channel) (sent : SentFrame)
        → is_covered script sent.sender r slot c ≡ true
        → IsTrue (is_frameless (heard script slot r c (sent ∷ []))) }
    ensures kept { (s : BegunSlot) (sent : SentFrame) (r : ℕ) → IsUnflipped s.script sent.sender s.number
        → loses s.script sent.sender s.number r ≡ false → HearsFrame sent (hearing_in s (sent ∷ []) r) }
    ensures lost { (s : BegunSlot) (sent : SentFrame) (r : ℕ) → loses s.script sent.sender s.number r ≡ true
        → HearsNoFrame (hearing_in s (sent ∷ []) r) }
    ensures silent { (s : BegunSlot) (r : ℕ) → HearsSilence (hearing_in s [] r) }
    ensures waits { (list : Medl) (h : Hearing) → HearsNoFrame h → listening_entry list h ≡ entry.Waited }
    ensures joins { (list : Medl) (h : Hearing) (p : ℕ) → IsValid list → p < length list.slots
        → IsTrue (may_start list p) → HearsFrame (record { sender = p; bytes = cold_start_frame list p }) h
        → listening_entry list h ≡ joined_on_start p (h.deviation p) }
{}

/// After one slot more of the world a node's past is what its slot makes of it, and so are its entry and
/// what it sends. A node that is active there judges the slot, or it is at its own (`judging`, `own`).
pub fn one_slot()
    ensures judging { (list : Medl) (script : Script) (numbers : Numbers) (chosen : List Chosen) (k : ℕ)
        → IsValid list → k < length list.slots
        → (let x = node_slot list script (world list script numbers) chosen k in
        x.past.phase ≡ phase.Active → owner_of x ≢ k → IsJudging x) }
    ensures own { (list : Medl) (script : Script) (numbers : Numbers) (chosen : List Chosen) (k : ℕ)
        → IsValid list → k < length list.slots
        → (let x = node_slot list script (world list script numbers) chosen k in
        x.past.phase ≡ phase.Active → owner_of x ≡ k → IsAtOwnSlot x) }
    ensures past { (list : Medl) (script : Script) (history : History) (chosen : List Chosen) (k : ℕ)
        → k < length list.slots
        → node_past list script (step list script history chosen) k
        ≡ next_past (node_slot list script history chosen k) }
    ensures entry { (list : Medl) (script : Script) (history : History) (chosen : List Chosen) (k : ℕ)
        → k < length list.slots
        → entry_of (row_in (slot_after list script history) chosen) k
        ≡ entry_made (node_slot list script history chosen k) }
    ensures frames { (list : Medl) (script : Script) (history : History) (chosen : List Chosen) (k : ℕ)
        → k < length list.slots
        → frames_of (slot_after list script history) chosen k
        ≡ frames_made (node_slot list script history chosen k) }
{}

/// What an active node holds after another's slot. The owner's frame, inside the window, is judged by
/// its members: correct, tentative, denied or incorrect. A frame outside the window is invalid, and
/// where no frame comes the slot is null or invalid; where nothing comes it is null. Whatever comes,
/// the node judges the owner or leaves as denied. Of bytes that it judged correct it delivers the payload
/// that the list lays out, whichever channel brought them (`delivers`).
pub fn judged()
    ensures correct { (x : NodeSlot) (sender : ℕ) (members : List ℕ) → IsJudging x → HearsMembers x sender members
        → members ≡ (candidates_of x).first → IsJudgedAs x verdict.Correct (x.hearing.deviation sender) }
    ensures tentative { (x : NodeSlot) (sender : ℕ) (members : List ℕ) → IsJudging x → HearsMembers x sender members
        → x.past.ack ≡ ack.First → members ≡ without_node (with_node x.past.members (owner_of x)) x.node
        → IsJudgedAs x verdict.Tentative (x.hearing.deviation sender) }
    ensures denied { (x : NodeSlot) (sender y : ℕ) (members : List ℕ) → IsJudging x → HearsMembers x sender members
        → x.past.ack ≡ ack.Doubt y
        → members ≡ with_node (without_node (with_node x.past.members (owner_of x)) x.node) y
        → HasJustLeft (next_past x) reason.Denied (owner_of x) }
    ensures incorrect { (x : NodeSlot) (sender : ℕ) (members : List ℕ) → IsJudging x → HearsMembers x sender members
        → members ≢ (candidates_of x).first → (candidates_of x).second ≢ Some members
        → IsJudgedAs x verdict.Incorrect (x.hearing.deviation sender) }
    ensures outside { (x : NodeSlot) (sender : ℕ) → IsJudging x → HearsOutside x sender
        → IsJudgedAs x verdict.Invalid (x.hearing.deviation sender) }
    ensures no_frame { (x : NodeSlot) → IsJudging x → HearsNoFrame x.hearing
        → IsJudgedAs x verdict.Null (pos 0) ⊎ IsJudgedAs x verdict.Invalid (pos 0) }
    ensures silent { (x : NodeSlot) → IsJudging x → HearsSilence x.hearing → IsJudgedAs x verdict.Null (pos 0) }
    ensures whatever { (x : NodeSlot) → IsJudging x
        → ((v : Verdict) × ((deviation : ℤ) × IsJudgedAs x v deviation))
        ⊎ HasJustLeft (next_past x) reason.Denied (owner_of x) }
    ensures delivers { (x : NodeSlot) (sent : SentFrame) (deviation : ℤ) → IsJudging x → HearsFrame sent x.hearing
        → IsJudgedAs x verdict.Correct deviation
        → delivery x.list x.node x.past x.hearing (entry_made x) ≡ delivery_at x.list (slot_place x) sent.bytes }
{}

/// What an active node does in its own slot. With a closed acknowledgement it sends where it accepted
/// more frames than it rejected, and else leaves for clique. With an open one it withdraws a cold start,
/// and leaves as unacknowledged where its newest own frame was another.
pub fn own_slot()
    ensures sends { (x : NodeSlot) → IsAtOwnSlot x → x.past.ack ≡ ack.Closed → x.past.rejected < x.past.accepted
        → (let message = message_sent x.list (slot_place x) x.chosen in
        StandsBy (next_past x) (entry.Sent message) (sent_standing x message)) }
    ensures frame { (x : NodeSlot) → IsAtOwnSlot x → x.past.ack ≡ ack.Closed → x.past.rejected < x.past.accepted
        → frames_made x ≡ record { sender = x.node; bytes = own_frame x.list x.node x.past x.chosen } ∷ [] }
    ensures members { (x : NodeSlot) → IsAtOwnSlot x → HasPayload x
        → IsSlotFrame x.list (slot_place x) (with_node x.past.members x.node)
        (own_frame x.list x.node x.past x.chosen) }
    ensures unacknowledged { (x : NodeSlot) → IsAtOwnSlot x → IsTrue (is_open x.past.ack)
        → x.past.cold_start ≡ false
        → HasJustLeft (next_past x) reason.Unacknowledged x.node × (frames_made x ≡ []) }
    ensures clique { (x : NodeSlot) → IsAtOwnSlot x → x.past.ack ≡ ack.Closed → x.past.accepted ≤ x.past.rejected
        → HasJustLeft (next_past x) reason.Clique x.node × (frames_made x ≡ []) }
    ensures retries { (x : NodeSlot) → IsAtOwnSlot x → IsTrue (is_open x.past.ack) → IsTrue x.past.cold_start
        → ((next_past x).phase ≡ phase.Listening) × (frames_made x ≡ []) }
{}

/// What comes to node r in the slot after a history in which node p alone sends, or no node does. Where no
/// fault of either keeps it away, and both stand at one place, it is the frame of the slot with the
/// members of the sender and the sender itself (`heard`), or it comes outside the window (`outside`).
/// Where it is lost no frame comes (`lost`), and where no node sends nothing does (`silent`). With legal
/// numbers a frame has the payload that the list asks for (`payload`).
pub fn one_sender()
    ensures heard { (list : Medl) (script : Script) (history : History) (chosen : List Chosen) (p r : ℕ)
        → SendsAlone list script history chosen p → loses script p (length history) r ≡ false
        → slot_place (node_slot list script history chosen p) ≡ slot_place (node_slot list script history chosen r)
        → IsTrue (is_within_window list (deviation_in (slot_after list script history) r p))
        → HearsMembers (node_slot list script history chosen r) p
        (with_node (node_slot list script history chosen p).past.members p) }
    ensures outside { (list : Medl) (script : Script) (history : History) (chosen : List Chosen) (p r : ℕ)
        → SendsAlone list script history chosen p → loses script p (length history) r ≡ false
        → is_within_window list (deviation_in (slot_after list script history) r p) ≡ false
        → HearsOutside (node_slot list script history chosen r) p }
    ensures lost { (list : Medl) (script : Script) (history : History) (chosen : List Chosen) (p r : ℕ)
        → SendsAlone list script history chosen p → loses script p (length history) r ≡ true
        → HearsNoFrame (node_slot list script history chosen r).hearing }
    ensures silent { (list : Medl) (script : Script) (history : History) (chosen : List Chosen) (r : ℕ)
        → NoneSends list script history chosen → HearsSilence (node_slot list script history chosen r).hearing }
    ensures payload { (list : Medl) (script : Script) (new : SlotNumbers) (numbers : Numbers) (k : ℕ)
        → IsValidScript list script → IsLegal list script (new ∷ numbers) → k < length list.slots
        → (let x = node_slot list script (world list script numbers)
        (messages_chosen list script (length numbers) new.sent) k in
        IsAtOwnSlot x → x.past.ack ≡ ack.Closed → x.past.rejected < x.past.accepted → HasPayload x) }
{}

/// Nodes that send nothing: one that judges, one that is off and not switched on, and one that has left
/// and is not armed. The last two stay what they are.
pub fn idle()
    ensures judging { (x : NodeSlot) → IsJudging x → frames_made x ≡ [] }
    ensures off { (x : NodeSlot) → x.past.phase ≡ phase.Off → x.on ≡ false
        → ((next_past x).phase ≡ phase.Off) × (frames_made x ≡ []) }
    ensures left { (x : NodeSlot) → x.past.phase ≡ phase.Left → x.armed ≡ false
        → ((next_past x).phase ≡ phase.Left) × (frames_made x ≡ []) }
{}

/// A node that listens in a slot, and what it makes of it. One that has left has waited in no slot, and its
/// limit is the long one (`left`); where it is armed it listens (`armed`). One that listens goes on while
/// it has waited in fewer slots than its limit, so that it starts in none of these (`early`). It sends
/// nothing (`quiet`).
///
/// Where no frame comes, or one on which it can't join, it waits (`waits`, `passes`): it counts the slot
/// if both channels were silent to it, which they are where nothing comes and not where a frame does
/// (`silence`, `frame`), and else begins again to count. A frame on which it can join makes it a node
/// at the frame's place with the frame's members, which has accepted one frame and waits for no answer
/// (`joins`); its clock takes over the deviation that its entry tells. In a slot in which one node sends
/// it hears of the sender's place, with the sender's members and the sender, if the list has a C-state in
/// that frame (`place`), and else of none (`no_place`).
pub fn listening()
    ensures armed { (x : NodeSlot) → x.past.phase ≡ phase.Left → IsTrue x.armed → ListensInSlot x }
    ensures early { (x : NodeSlot) → x.past.phase ≡ phase.Listening → x.past.silent_slots < x.past.limit
        → ListensInSlot x }
    ensures left { (list : Medl) (script : Script) (history : History) (k : ℕ)
        → (node_past list script history k).phase ≡ phase.Left
        → ((node_past list script history k).silent_slots ≡ 0)
        × ((node_past list script history k).limit ≡ 2 * length list.slots + k) }
    ensures quiet { (x : NodeSlot) → ListensInSlot x → frames_made x ≡ [] }
    ensures waits { (x : NodeSlot) → ListensInSlot x → HearsNoFrame x.hearing → HasWaited x }
    ensures passes { (x : NodeSlot) (sender : ℕ) → ListensInSlot x → HearsNoPlace x sender → HasWaited x }
    ensures silence { (list : Medl) (script : Script) (history : History) (chosen : List Chosen) (k : ℕ)
        → (let x = node_slot list script history chosen k in
        HearsSilence x.hearing → x.around.is_silent ≡ true) }
    ensures frame { (list : Medl) (script : Script) (history : History) (chosen : List Chosen) (k : ℕ)
        (sent : SentFrame)
        → (let x = node_slot list script history chosen k in
        HearsFrame sent x.hearing → x.around.is_silent ≡ false) }
    ensures joins { (x : NodeSlot) (sender : ℕ) (place : Place) (members : List ℕ) → ListensInSlot x
        → HearsPlace x sender place members
        → (let deviation = x.hearing.deviation sender in
        StandsBy (next_past x) (joined_on place members deviation) (joined_standing x.list place members deviation)) }
    ensures place { (list : Medl) (script : Script) (numbers : Numbers) (chosen : List Chosen) (p r : ℕ)
        → IsValid list → SendsAlone list script (world list script numbers) chosen p
        → loses script p (length (world list script numbers)) r ≡ false
        → (let x = node_slot list script (world list script numbers) chosen p in
        is_explicit (expected_header list (slot_place x)) ≡ true
        → HearsPlace (node_slot list script (world list script numbers) chosen r) p (slot_place x)
        (with_node x.past.members p)) }
    ensures no_place { (list : Medl) (script : Script) (numbers : Numbers) (chosen : List Chosen) (p r : ℕ)
        → IsValid list → SendsAlone list script (world list script numbers) chosen p
        → loses script p (length (world list script numbers)) r ≡ false
        → is_explicit (expected_header list (slot_place (node_slot list script (world list script numbers) chosen p)))
        ≡ false
        → HearsNoPlace (node_slot list script (world list script numbers) chosen r) p }
{}

/// A node that holds a group for members, and beside it only a node that it doubts. The frame of an owner
/// that holds the same group is correct to it (`correct`), and one that lacks a member of the group is
/// incorrect (`incorrect`), but if that is the node itself and waits for its first successor: then it
/// is incorrect or tentative (`lacked`). After a correct frame the node holds the group with the owner,
/// and its own frame is acknowledged; after any other it holds the group without the owner, after a
/// tentative one in doubt about the owner. After its own frame it holds the group with itself.
pub fn groups()
    ensures correct { (x : NodeSlot) (group : List ℕ) (sender : ℕ) → IsJudging x
        → HoldsGroup x.list x.node group x.past → IsNotAbout (owner_of x) x.past.ack
        → HearsMembers x sender (with_node group (owner_of x))
        → IsJudgedAs x verdict.Correct (x.hearing.deviation sender) }
    ensures incorrect { (x : NodeSlot) (group : List ℕ) (sender p : ℕ) (members : List ℕ) → IsJudging x
        → HoldsGroup x.list x.node group x.past → p < length x.list.slots → IsTrue (has_node group p)
        → (p ≢ x.node) ⊎ (x.past.ack ≡ ack.Closed) → has_node members p ≡ false → HearsMembers x sender members
        → IsJudgedAs x verdict.Incorrect (x.hearing.deviation sender) }
    ensures lacked { (x : NodeSlot) (group : List ℕ) (sender : ℕ) (members : List ℕ) → IsJudging x
        → HoldsGroup x.list x.node group x.past → x.past.ack ≡ ack.First → has_node members x.node ≡ false
        → HearsMembers x sender members
        → IsJudgedAs x verdict.Incorrect (x.hearing.deviation sender)
        ⊎ IsJudgedAs x verdict.Tentative (x.hearing.deviation sender) }
    ensures after_correct { (x : NodeSlot) (group : List ℕ) (deviation : ℤ) → IsJudging x
        → HoldsGroup x.list x.node group x.past → IsJudgedAs x verdict.Correct deviation
        → HoldsGroup x.list x.node (with_node group (owner_of x)) (next_past x)
        × ((next_past x).ack ≡ ack.Closed) }
    ensures after_wrong { (x : NodeSlot) (group : List ℕ) (v : Verdict) (deviation : ℤ) → IsJudging x
        → HoldsGroup x.list x.node group x.past → IsJudgedAs x v deviation → is_accepted v ≡ false
        → IsNotAbout (owner_of x) x.past.ack
        → HoldsGroup x.list x.node (without_node group (owner_of x)) (next_past x)
        × ((next_past x).ack ≡ x.past.ack) }
    ensures after_tentative { (x : NodeSlot) (group : List ℕ) (deviation : ℤ) → IsJudging x
        → HoldsGroup x.list x.node group x.past → IsJudgedAs x verdict.Tentative deviation
        → x.past.ack ≡ ack.First
        → HoldsGroup x.list x.node (without_node group (owner_of x)) (next_past x)
        × ((next_past x).ack ≡ ack.Doubt (owner_of x)) }
    ensures after_own { (x : NodeSlot) (group : List ℕ) (message : Option ℕ) → IsAtOwnSlot x
        → HoldsGroup x.list x.node group x.past → x.past.ack ≡ ack.Closed
        → StandsBy (next_past x) (entry.Sent message) (sent_standing x message)
        → HoldsGroup x.list x.node (with_node group x.node) (next_past x) }
{}

/// A node whose own frame is not acknowledged stays so, or leaves as denied, while each frame that comes
/// inside the window lacks it among its members, or has a third node that it lacks itself (`stays`). And
/// whatever comes in another's slot, no node but its owner is held for a member that was not before
/// (`not_held`).
pub fn unanswered()
    ensures stays { (x : NodeSlot) → IsJudging x → IsUnanswered x.node x.past.ack → HearsNoAnswer x
        → StaysUnanswered x ⊎ HasJustLeft (next_past x) reason.Denied (owner_of x) }
    ensures not_held { (x : NodeSlot) (j : ℕ) → IsJudging x → j < length x.list.slots → j ≢ owner_of x
        → has_node x.past.members j ≡ false → has_node (next_past x).members j ≡ false }
{}

/// The start of a cluster. Until the first slot in which a node would start on a silent bus, each node is
/// off, or has listened in silence since it is on (`waits`). If one node alone would start there, it does
/// (`starts`), and each other node that is on joins on its frame (`joins`), where that comes to it as it
/// was sent; those that are not on stay off (`off`). So all that are on are then active at one place, and
/// hold the starter alone for a member (`together`).
///
/// The start that the hypothesis test knows is such a slot (`known`), and each node that is ever on is on
/// by then (`all_on`).
pub fn start()
    ensures known { (list : Medl) (script : Script) (start : ClusterStart) → start_of list script ≡ Some start
        → StartsAlone list script start }
    ensures all_on { (list : Medl) (script : Script) (start : ClusterStart) (k : ℕ)
        → start_of list script ≡ Some start → k < length list.slots → IsTrue (is_ever_on script k)
        → IsTrue (is_on script k start.slot) }
    ensures waits { (list : Medl) (script : Script) (start : ClusterStart) (numbers : Numbers) → IsValid list
        → StartsAlone list script start → length numbers ≤ start.slot
        → (k : ℕ) → k < length list.slots
        → Waits list script (length numbers) k (node_past list script (world list script numbers) k) }
    ensures starts { (list : Medl) (script : Script) (start : ClusterStart) (new : SlotNumbers) (numbers : Numbers)
        → IsValid list → StartsAlone list script start → length numbers ≡ start.slot
        → StandsBy (node_past list script (world list script (new ∷ numbers)) start.node) entry.Started
        (starter_standing list start.node) }
    ensures joins { (list : Medl) (script : Script) (start : ClusterStart) (new : SlotNumbers) (numbers : Numbers)
        → IsValid list → StartsAlone list script start → length numbers ≡ start.slot
        → IsStartHeard list script start
        → (k : ℕ) → k < length list.slots → k ≢ start.node → IsTrue (is_on script k start.slot)
        → (let deviation = deviation_in (slot_after list script (world list script numbers)) k start.node in
        StandsBy (node_past list script (world list script (new ∷ numbers)) k) (joined_on_start start.node deviation)
        (joined_standing list (start_place start.node) (start.node ∷ []) deviation)) }
    ensures together { (list : Medl) (script : Script) (start : ClusterStart) (new : SlotNumbers) (numbers : Numbers)
        → IsValid list → StartsAlone list script start → length numbers ≡ start.slot
        → IsStartHeard list script start
        → (k : ℕ) → k < length list.slots → IsTrue (is_on script k start.slot)
        → IsStartedBy list start.node k (node_past list script (world list script (new ∷ numbers)) k) }
    ensures off { (list : Medl) (script : Script) (start : ClusterStart) (new : SlotNumbers) (numbers : Numbers)
        → IsValid list → StartsAlone list script start → length numbers ≡ start.slot
        → (k : ℕ) → k < length list.slots → k ≢ start.node → is_on script k start.slot ≡ false
        → (node_past list script (world list script (new ∷ numbers)) k).phase ≡ phase.Off }
{}
