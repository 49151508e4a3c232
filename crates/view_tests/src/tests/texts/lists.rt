//! Each public call once, and what no line shows of a list. What is refused, and how it is told, is compared where
//! the real program runs.
ghost use Rattle.ttp_world.specs.Medl.{IsValid};

use super::scripts::list_of;
use medl_text::{Field, FieldName, MedlError, put_schedule, read_medl};
use std::alloc::Global;
use ttp_base::{List, MemorySink};
use ttp_world::{Kind, Medl};

const LIST: &str =
    "version = 1\nrounds = 1\nschedule = 4660\nbuffers = 4\ndrift = 1\nerror = 2\nwindow = 64\nmodes = 3\n
[[slot]]\nkinds = \"I\"\ndata = 0\nsync = true\nstart = true\n
[[slot]]\nkinds = \"N\"\ndata = 240\nsync = true\nstart = false\nrequests = true\nlive = \"yny\"\n
[[slot]]\nkinds = \"I\"\ndata = 0\nsync = true\nstart = false\n
[[slot]]\nkinds = \"I\"\ndata = 0\nsync = true\nstart = false\n";

// Whether a list is shown as this table.
fn is_shown(alloc: Global, list: &Medl, table: &[u8]) -> bool
    requires { IsValid list.now }
{
    let Ok(mut out) = MemorySink::new(alloc, 2048, List::new(alloc)) else {
        return false;
    };
    put_schedule(list, &mut out).is_ok() && out.bytes() == table
}

const TABLE: &[u8] = b"ttpbench schedule 1 nodes 4 rounds 1 schedule 001234
round 0 slot 0 kind I data 0 sync yes start yes
round 0 slot 1 kind N data 240 sync yes start no
round 0 slot 2 kind I data 0 sync yes start no
round 0 slot 3 kind I data 0 sync yes start no\n";

fn has_numbers(list: &Medl) -> bool
    requires { IsValid list.now }
{
    list.rounds == 1
        && list.schedule == 4660
        && list.buffers == 4
        && list.drift == 1
        && list.error == 2
        && list.window == 64
        && list.modes == 3
        && list.version == 1
        && list.nodes() == 4
        && list.kind_at(0, 3) == Kind::I
}

// Whether slot 1 has what is due: its payload, whether it has requests, and the modes in which it is live.
fn has_slot_1(list: &Medl, payload: u8, requests: bool, live: u8) -> bool {
    if list.slots.len() < 2 {
        return false;
    }
    let plan = list.slots.get(1);
    plan.payload == payload && plan.requests == requests && plan.live == live
}

// Whether a list is read as it says, and shown.
fn is_read(alloc: Global) -> bool {
    let Some(list) = list_of(alloc, LIST) else {
        return false;
    };
    has_numbers(&list) && has_slot_1(&list, 240, true, 5) && is_shown(alloc, &list, TABLE)
}

#[test]
fn a_list_is_read_and_shown(rt: HostRuntime) {
    assert!(rt; is_read(rt.alloc()));
}

fn is_refused(alloc: Global) -> bool {
    let field = Field {
        name: FieldName::Rounds,
        slot: None,
    };
    match read_medl(alloc, b"version = 1\n") {
        Ok(_) => false,
        Err(told) => told == MedlError::Missing { field },
    }
}

#[test]
fn a_refusal_names_its_key(rt: HostRuntime) {
    assert!(rt; is_refused(rt.alloc()) && FieldName::DataSize.key() == "data");
}
