//! The clock by slots of an active node: where the cluster cycle is, and who sends.
//!
//! A [`SlotClock`] begins at the C-state that a node starts with or adopts, and goes on by one slot at a
//! time. `next_clock` of controller takes it to the coming slot, `active_act` asks whose slot that is,
//! and `judge` takes the C-state that the frame of it carries:
//!
//! ```text
//! let mut clock = SlotClock::at(list, cstate);
//! clock.next();
//! if self.coming(list).is_slot_of(k) {
//! self.cstate = clock.cstate(members.set());
//! ```
//!
//! It stands for a place of a descriptor list's cycle, in the words of `ttp_world`: a call of `next`
//! takes it to `next_place`, where the next entry of an active node lies. Times are counted in slots
//! modulo 65536, rounds modulo the list's rounds.
//!
//! A clock is a few bytes, and a copy goes on by itself. The module knows no microticks: how far a node's
//! clock is ahead within the slot is measured and corrected elsewhere. It takes no memory, and no call
//! can fail; each is a few steps.

mod clock;

pub use clock::SlotClock;
