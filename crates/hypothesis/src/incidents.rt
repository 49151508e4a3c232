//! What happens to the nodes in a slot. It is kept for as long as it stands, and then looked up anew.
ghost use Rattle.std.specs.Prelude.{◌≡◌, ℕ, ◌+◌, ◌<◌, ◌≤◌, max, false, pos, length};
ghost use Rattle.ttp_world.specs.Medl.{IsValid};
ghost use Rattle.ttp_world.specs.Returning.{disturbance_broken};
ghost use Rattle.ttp_world.specs.Script.{incidents_of};
ghost use Rattle.ttp_world.specs.declared.events.Incidents.{Incidents};
ghost use Rattle.ttp_world.specs.declared.medl.Medl.{Medl};
ghost use Rattle.ttp_world.specs.declared.script.Script.{Script};
ghost use Rattle.hypothesis.specs.SlotIncidents.{AreIncidentsIn, EachStandsIn, IsOfKinds, AreKeptIn, AreKeptFrom};

use crate::losses::{Jumps, may_jump};
use ttp_world::{Channels, Incidents, LastLookUp, Medl, Script, Standing, no_incidents};

/// Which kinds of incidents there are among those of some nodes.
#[derive(Clone, Copy)]
pub(crate) struct Kinds {
    /// The channels on which one of them hears nothing.
    pub(crate) unheard: Channels,
    /// Whether the jumps of one's clock add up to something.
    pub(crate) jump: bool,
    /// Whether one of them is armed.
    pub(crate) arm: bool,
}

/// What happens to each node from a slot on.
#[derive(Clone, Copy)]
pub(crate) struct SlotIncidents {
    pub(crate) nodes: [Standing; 24],
    pub(crate) kinds: Kinds,
    /// The first slot after that one in which something else may happen to one of them.
    pub(crate) until: u32,
}

/// Where what happens to each node was looked up last, in a walk over the slots.
#[derive(Clone, Copy)]
pub(crate) struct LastLookUps {
    pub(crate) nodes: [LastLookUp; 24],
}

/// What a walk over the slots keeps of what happens to the nodes.
#[derive(Clone, Copy)]
pub(crate) struct KeptIncidents {
    pub(crate) incidents: SlotIncidents,
    /// Whether a clock may jump.
    pub(crate) jump: bool,
    last: LastLookUps,
}

/// Nothing was looked up yet.
pub(crate) fn no_look_ups() -> LastLookUps {
    LastLookUps {
        nodes: [LastLookUp::none(); 24],
    }
}

// No kinds.
fn no_kinds() -> Kinds {
    Kinds {
        unheard: Channels { a: false, b: false },
        jump: false,
        arm: false,
    }
}

/// Nothing is kept yet.
pub(crate) fn nothing_kept() -> KeptIncidents
    ensures { (list : Medl) (script : Script) (slot : ℕ) → AreKeptFrom list script slot result }
{
    KeptIncidents {
        incidents: SlotIncidents {
            nodes: [Standing {
                incidents: no_incidents(),
                until: 0,
            }; 24],
            kinds: no_kinds(),
            until: 0,
        },
        jump: false,
        last: no_look_ups(),
    }
}

// Whether the jumps of a clock add up to something.
fn moves_clock(incidents: &Incidents) -> bool
    ensures { result ≡ false → incidents.now.jump ≡ pos 0 }
{
    incidents.jump != 0
}

// The kinds of some incidents and of others.
fn kinds_with(kinds: Kinds, incidents: &Incidents) -> Kinds
    ensures added { IsOfKinds result incidents.now }
    ensures others { (other : Incidents) → IsOfKinds kinds other → IsOfKinds result other }
{
    Kinds {
        unheard: Channels {
            a: kinds.unheard.a || (incidents.receive_silence.a || incidents.receive_noise.a),
            b: kinds.unheard.b || (incidents.receive_silence.b || incidents.receive_noise.b),
        },
        jump: kinds.jump || moves_clock(incidents),
        arm: kinds.arm || incidents.armed,
    }
}

// What happens to a node from a slot on. It is looked up anew where it may be something else than what stands.
fn standing_in(
    script: &Script,
    node: u8,
    slot: u32,
    standing: Standing,
    last: &mut LastLookUp,
) -> Standing
    requires { (t : ℕ) → slot ≤ t → t < standing.until → incidents_of script.now node t ≡ standing.incidents }
    ensures { (t : ℕ) → slot ≤ t → t < max result.until (slot + 1)
        → incidents_of script.now node t ≡ result.incidents }
{
    if slot < standing.until {
        return standing;
    }
    script.incidents_from(node, slot, last)
}

// Looks up what happens to each node of a list from a slot on, where it may be something else than what stands.
fn look_up(
    list: &Medl,
    script: &Script,
    slot: u32,
    incidents: &mut SlotIncidents,
    last: &mut LastLookUps,
)
    requires valid { IsValid list.now }
    requires each { (t : ℕ) → slot ≤ t → EachStandsIn script.now t incidents.old }
    ensures each { (t : ℕ) → slot ≤ t → EachStandsIn script.now t incidents.new }
    ensures nodes { (t : ℕ) → slot ≤ t → t < max incidents.new.until (slot + 1)
        → AreIncidentsIn list.now script.now t incidents.new }
    ensures kinds { (t k : ℕ) → slot ≤ t → t < max incidents.new.until (slot + 1) → k < length list.now.slots
        → IsOfKinds incidents.new.kinds (incidents_of script.now k t) }
{
    let mut kinds = no_kinds();
    let mut until = u32::MAX;
    for node in 0..list.nodes() {
        let place = node as usize;
        let standing = standing_in(
            script,
            node,
            slot,
            incidents.nodes[place],
            &mut last.nodes[place],
        );
        incidents.nodes[place] = standing;
        kinds = kinds_with(kinds, &standing.incidents);
        until = until.min(standing.until);
    }
    incidents.kinds = kinds;
    incidents.until = until;
}

/// Goes on to a slot: looks up anew what happens to the nodes, where it may be something else than what is
/// kept.
pub(crate) fn go_on(list: &Medl, script: &Script, jumps: Jumps, slot: u32, kept: &mut KeptIncidents)
    requires valid { IsValid list.now }
    requires inside { jumps ≡ Jumps.Far → disturbance_broken list.now script.now ≡ None }
    requires kept { AreKeptFrom list.now script.now slot kept.old }
    ensures now { AreKeptIn list.now script.now slot kept.new }
    ensures later { AreKeptFrom list.now script.now slot kept.new }
{
    if slot < kept.incidents.until {
        return;
    }
    look_up(list, script, slot, &mut kept.incidents, &mut kept.last);
    kept.jump = may_jump(script, jumps, &kept.incidents, slot);
}
