//! Which members the nodes of a slot hold.
ghost use Rattle.std.specs.Prelude.{◌≡◌, ◌<◌, ◌≤◌, [], length};
ghost use Rattle.picture_text.specs.Cells.{noted, shown_memberships, holds, holders_of, most_held, held_by_most};

use shown_slot::is_holder;
use std::marker::Model;
use whole_trace::{NodeShown, SlotShown};

/// The memberships that the holders of a slot hold, which contracts see as the list of them. Each is a word of
/// members, and the first one is that of the lowest holder.
#[derive(Drop)]
pub(crate) struct Memberships {
    words: [u32; 24],
    count: usize,
}

impl Model for Memberships {
    ghost use Rattle.std.specs.Prelude.{List, ℕ, take, ◌≤◌};

    ghost Value = { List ℕ };

    ghost view = { λ m. take m.count m.words };

    ghost invariant = { λ m. m.count ≤ 24 };
}

impl Memberships {
    fn new() -> Memberships
        ensures { result ≡ [] }
    {
        Memberships {
            words: [0; 24],
            count: 0,
        }
    }

    // Notes a membership, unless it was noted before.
    fn note(&mut self, members: u32)
        requires { length self.old < 24 }
        ensures { self.new ≡ noted self.old members }
    {
        if self.words[..self.count].contains(&members) {
            return;
        }
        self.words[self.count] = members;
        self.count += 1;
    }

    /// The memberships.
    pub(crate) fn words(&self) -> &[u32]
        ensures value { result.now ≡ self.now }
        ensures few { length result.now ≤ 24 }
    {
        &self.words[..self.count]
    }
}

/// The memberships that the holders among nodes hold.
pub(crate) fn memberships_of(nodes: &[NodeShown]) -> Memberships
    requires { length nodes.now ≤ 24 }
    ensures { result ≡ shown_memberships nodes.now }
{
    let mut found = Memberships::new();
    for node in nodes {
        if is_holder(node) {
            found.note(node.members.bits());
        }
    }
    found
}

/// Whether a node holds these members, and they count.
pub(crate) fn holds(members: u32, node: &NodeShown) -> bool
    ensures { result ≡ holds members node.now }
{
    is_holder(node) && node.members.bits() == members
}

// How many nodes of a slot do.
fn count_holders(members: u32, slot: &SlotShown<'_>) -> usize
    ensures { result ≡ length (holders_of members slot.now) }
{
    let nodes = slot.nodes();
    let mut count = 0;
    for k in 0..nodes.len() {
        if holds(members, &nodes[k]) {
            count += 1;
        }
    }
    count
}

// Which of these memberships most nodes of a slot hold, or else the first of them.
fn most_held(slot: &SlotShown<'_>, words: &[u32]) -> Option<u32>
    ensures { result ≡ most_held slot.now words.now }
{
    match words {
        [] => None,
        [members, others @ ..] => {
            let Some(other) = most_held(slot, others) else {
                return Some(*members);
            };
            if count_holders(other, slot) <= count_holders(*members, slot) {
                Some(*members)
            } else {
                Some(other)
            }
        }
    }
}

/// The members that most holders of a slot hold, where `found` are its memberships.
pub(crate) fn held_by_most(slot: &SlotShown<'_>, found: &Memberships) -> Option<u32>
    requires { found.now ≡ shown_memberships slot.now.nodes }
    ensures { result ≡ held_by_most slot.now }
{
    most_held(slot, found.words())
}
