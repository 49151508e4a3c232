//! When a listener is due, and on what it joins, worked out by hand.
use node_parts::cold_start::{Heard, ListenMove, Listener};
use ttp_base::NodeSet;
use ttp_world::CState;

fn cstate() -> CState {
    CState {
        time: 7,
        round: 0,
        slot: 2,
        members: NodeSet::empty().with(2),
    }
}

fn moves_as_due(listener: &mut Listener, rows: &[(Heard, ListenMove, bool)]) -> bool {
    for (heard, asked, due) in rows {
        if listener.hear(*heard) != *asked || listener.due() != *due {
            return false;
        }
    }
    true
}

#[test]
fn noise_and_frames_begin_the_count_anew(rt: HostRuntime) {
    // What is heard in a slot, the move, and whether a listener with limit 2 is due after it.
    let rows: [(Heard, ListenMove, bool); 9] = [
        (Heard::Silent, ListenMove::Wait, false),
        (Heard::Silent, ListenMove::Wait, true),
        (Heard::Silent, ListenMove::Wait, true),
        (Heard::Other, ListenMove::Wait, false),
        (Heard::Silent, ListenMove::Wait, false),
        (Heard::Silent, ListenMove::Wait, true),
        (Heard::Explicit(cstate()), ListenMove::Join(cstate()), false),
        (Heard::Silent, ListenMove::Wait, false),
        (Heard::Silent, ListenMove::Wait, true),
    ];
    let mut listener = Listener::new(2);
    assert!(rt; !listener.due() && moves_as_due(&mut listener, &rows));
}

fn hear_nothing(listener: &mut Listener, slots: u32) {
    for _ in 0..slots {
        listener.hear(Heard::Silent);
    }
}

// Whether a listener is due after each of ten silent slots.
fn stays_due(listener: &mut Listener) -> bool {
    for _ in 0..10u32 {
        listener.hear(Heard::Silent);
        if !listener.due() {
            return false;
        }
    }
    true
}

#[test]
fn the_largest_limit_is_reached_and_kept(rt: HostRuntime) {
    let mut listener = Listener::new(65535);
    hear_nothing(&mut listener, 65534);
    let was_due = listener.due();
    assert!(rt; !was_due && stays_due(&mut listener) && Listener::new(0).due());
}
