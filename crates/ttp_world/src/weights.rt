//! What events weigh: how many of each kind there are, and what their numbers add up to.
ghost use Rattle.std.specs.Prelude.{◌≡◌, ◌+ℤ◌, neg_ℤ, ◌||◌};
ghost use Rattle.ttp_world.specs.Events.{IsWithinSpan};
ghost use Rattle.ttp_world.specs.Weights.{summable_limit, is_positive, one_if, chosen_counts, added_counts};
ghost use Rattle.ttp_world.specs.Weights.{negated_counts, added_sums, negated_sums, counted, no_weights, added};
ghost use Rattle.ttp_world.specs.Weights.{negated, weights_of, incidents_from, AreSummableCounts, AreSummableSums};
ghost use Rattle.ttp_world.specs.Weights.{AreSummable};

use crate::events::Incidents;
use crate::script::{Channels, Event, Fault};

/// Numbers of events on each channel.
#[derive(Clone, Copy)]
pub(crate) struct Counts {
    pub(crate) a: i64,
    pub(crate) b: i64,
}

/// What belongs to no channel: how many events arm the node, and the sums of its reading errors and
/// jumps in microticks.
#[derive(Clone, Copy)]
pub(crate) struct Sums {
    pub(crate) arms: i64,
    pub(crate) error: i64,
    pub(crate) jump: i64,
}

/// For each kind of event how many there are, and for those with numbers their sum. Negative numbers
/// are those of events that end.
#[derive(Clone, Copy)]
pub(crate) struct Weights {
    pub(crate) send_silence: Counts,
    pub(crate) send_noise: Counts,
    pub(crate) receive_silence: Counts,
    pub(crate) receive_noise: Counts,
    pub(crate) flips: Counts,
    pub(crate) sums: Sums,
}

// The sum of two numbers that fit together.
fn sum(first: i64, second: i64) -> i64
    requires first { IsWithinSpan summable_limit first }
    requires second { IsWithinSpan summable_limit second }
    ensures { result ≡ first +ℤ second }
{
    first + second
}

fn opposite(number: i64) -> i64
    requires { IsWithinSpan summable_limit number }
    ensures { result ≡ neg_ℤ number }
{
    -number
}

fn is_positive(number: i64) -> bool
    ensures { result ≡ is_positive number }
{
    number > 0
}

fn one_if(is: bool) -> i64
    ensures { result ≡ one_if is }
{
    if is { 1 } else { 0 }
}

// One on each of the channels, if they are meant at all.
fn chosen_counts(are_meant: bool, channels: Channels) -> Counts
    ensures { result ≡ chosen_counts are_meant channels }
{
    Counts {
        a: one_if(are_meant && channels.a),
        b: one_if(are_meant && channels.b),
    }
}

fn added_counts(first: Counts, second: Counts) -> Counts
    requires first { AreSummableCounts first }
    requires second { AreSummableCounts second }
    ensures { result ≡ added_counts first second }
{
    Counts {
        a: sum(first.a, second.a),
        b: sum(first.b, second.b),
    }
}

fn negated_counts(counts: Counts) -> Counts
    requires { AreSummableCounts counts }
    ensures { result ≡ negated_counts counts }
{
    Counts {
        a: opposite(counts.a),
        b: opposite(counts.b),
    }
}

fn added_sums(first: Sums, second: Sums) -> Sums
    requires first { AreSummableSums first }
    requires second { AreSummableSums second }
    ensures { result ≡ added_sums first second }
{
    Sums {
        arms: sum(first.arms, second.arms),
        error: sum(first.error, second.error),
        jump: sum(first.jump, second.jump),
    }
}

fn negated_sums(sums: Sums) -> Sums
    requires { AreSummableSums sums }
    ensures { result ≡ negated_sums sums }
{
    Sums {
        arms: opposite(sums.arms),
        error: opposite(sums.error),
        jump: opposite(sums.jump),
    }
}

// The channels of which one or more are counted.
fn counted(counts: Counts) -> Channels
    ensures { result ≡ counted counts }
{
    Channels {
        a: is_positive(counts.a),
        b: is_positive(counts.b),
    }
}

fn is_any(channels: Channels) -> bool
    ensures { result ≡ (channels.a || channels.b) }
{
    channels.a || channels.b
}

/// No events.
pub(crate) fn no_weights() -> Weights
    ensures { result ≡ no_weights }
{
    let none = Counts { a: 0, b: 0 };
    Weights {
        send_silence: none,
        send_noise: none,
        receive_silence: none,
        receive_noise: none,
        flips: none,
        sums: Sums {
            arms: 0,
            error: 0,
            jump: 0,
        },
    }
}

/// What one event weighs in the slots that it covers.
pub(crate) fn weights_of(event: &Event) -> Weights
    ensures { result ≡ weights_of event.now }
{
    let none = no_weights();
    match event {
        Event::Send {
            channels,
            fault,
            ..
        } => Weights {
            send_silence: chosen_counts(*fault == Fault::Silence, *channels),
            send_noise: chosen_counts(*fault == Fault::Noise, *channels),
            ..none
        },
        Event::Receive {
            channels,
            fault,
            ..
        } => Weights {
            receive_silence: chosen_counts(*fault == Fault::Silence, *channels),
            receive_noise: chosen_counts(*fault == Fault::Noise, *channels),
            ..none
        },
        Event::Flip { channels, .. } => Weights {
            flips: chosen_counts(true, *channels),
            ..none
        },
        Event::Arm { .. } => Weights {
            sums: Sums {
                arms: 1,
                error: 0,
                jump: 0,
            },
            ..none
        },
        Event::Error { value, .. } => Weights {
            sums: Sums {
                arms: 0,
                error: *value,
                jump: 0,
            },
            ..none
        },
        Event::Jump { value, .. } => Weights {
            sums: Sums {
                arms: 0,
                error: 0,
                jump: *value,
            },
            ..none
        },
        Event::Write { .. } | Event::Read { .. } => none,
    }
}

/// What two groups of events weigh together.
pub(crate) fn added(first: Weights, second: Weights) -> Weights
    requires first { AreSummable first }
    requires second { AreSummable second }
    ensures { result ≡ added first second }
{
    Weights {
        send_silence: added_counts(first.send_silence, second.send_silence),
        send_noise: added_counts(first.send_noise, second.send_noise),
        receive_silence: added_counts(first.receive_silence, second.receive_silence),
        receive_noise: added_counts(first.receive_noise, second.receive_noise),
        flips: added_counts(first.flips, second.flips),
        sums: added_sums(first.sums, second.sums),
    }
}

/// What the end of these events weighs.
pub(crate) fn negated(weights: Weights) -> Weights
    requires { AreSummable weights }
    ensures { result ≡ negated weights }
{
    Weights {
        send_silence: negated_counts(weights.send_silence),
        send_noise: negated_counts(weights.send_noise),
        receive_silence: negated_counts(weights.receive_silence),
        receive_noise: negated_counts(weights.receive_noise),
        flips: negated_counts(weights.flips),
        sums: negated_sums(weights.sums),
    }
}

/// What happens to a node where events of these weights cover the slot.
pub(crate) fn incidents_from(weights: Weights) -> Incidents
    ensures { result ≡ incidents_from weights }
{
    Incidents {
        send_silence: counted(weights.send_silence),
        send_noise: counted(weights.send_noise),
        receive_silence: counted(weights.receive_silence),
        receive_noise: counted(weights.receive_noise),
        has_flip: is_any(counted(weights.flips)),
        armed: is_positive(weights.sums.arms),
        error: weights.sums.error,
        jump: weights.sums.jump,
    }
}
