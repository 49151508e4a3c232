//! Lines that say what happens in slots.
ghost use Rattle.std.specs.Prelude.{◌≡◌, ◌<◌, ◌≤◌, [], true, false, length, Some, IfOk, IfErr, FitsSigned};
ghost use Rattle.std.specs.Int.{w64};
ghost use Rattle.ttp_base.specs.Faults.{first_fault};
ghost use Rattle.ttp_world.specs.Medl.{IsValid};
ghost use Rattle.script_text.specs.declared.keyword.Keyword.TheVariants as keyword;
ghost use Rattle.script_text.specs.Lines.{word_at};
ghost use Rattle.script_text.specs.Numbers.{is_number, is_value, value_in, channels_in, fault_in};
ghost use Rattle.script_text.specs.Statement.{number_at_word};
ghost use Rattle.script_text.specs.Faults.{is_node, is_span, is_within_limit, is_flipped_bit, statement_faults};
ghost use Rattle.script_text.specs.SoFar.{ReadsEvent};

use crate::error::LineFault;
use crate::form::{channels_in, fault_in};
use crate::words::Words;
use ttp_world::{
    Channels, DRIFT_LIMIT, ERROR_LIMIT, Event, FIRST_FLIPPED_BIT, Fault, JUMP_LIMIT,
    LAST_FLIPPED_BIT, Medl,
};

/// The number that a line's word at a place is.
pub(crate) fn number_at_word(words: &Words, i: usize) -> Result<u32, LineFault>
    requires low { 1 ≤ i }
    requires high { i ≤ 5 }
    ensures ok { IfOk result (λ number.
        (is_number (word_at words.now i) ≡ true) × (number ≡ number_at_word words.now i)) }
    ensures err { IfErr result (λ fault.
        (is_number (word_at words.now i) ≡ false) × (fault ≡ LineFault.Number)) }
{
    words.at(i).number().ok_or(LineFault::Number)
}

/// The number, with or without a `-`, that a line's word at a place is.
pub(crate) fn value_at(words: &Words, i: usize) -> Result<i64, LineFault>
    requires low { 1 ≤ i }
    requires high { i ≤ 5 }
    ensures ok { IfOk result (λ value.
        (is_value (word_at words.now i) ≡ true) × (value ≡ value_in (word_at words.now i))) }
    ensures err { IfErr result (λ fault.
        (is_value (word_at words.now i) ≡ false) × (fault ≡ LineFault.Number)) }
{
    words.at(i).value().ok_or(LineFault::Number)
}

/// The node of the list that has a number.
pub(crate) fn node_of(list: &Medl, number: u32) -> Result<u8, LineFault>
    requires { IsValid list.now }
    ensures ok { IfOk result (λ node. (is_node list.now number ≡ true) × (node ≡ number)) }
    ensures err { IfErr result (λ fault. (is_node list.now number ≡ false) × (fault ≡ LineFault.NoNode)) }
{
    if u32::from(list.nodes()) <= number {
        return Err(LineFault::NoNode);
    }
    Ok(number as u8)
}

/// Whether a number of microticks lies within plus or minus a bound.
pub(crate) fn is_within_limit(bound: u32, value: i64) -> bool
    ensures { result ≡ is_within_limit bound value }
{
    value.unsigned_abs() <= u64::from(bound)
}

/// Whether a line may flip this bit of a frame.
pub(crate) fn is_flipped_bit(bit: u32) -> bool
    ensures { result ≡ is_flipped_bit bit }
{
    u32::from(FIRST_FLIPPED_BIT) <= bit && bit <= u32::from(LAST_FLIPPED_BIT)
}

/// Whether these may be the first and the last slot of a fault.
pub(crate) fn is_span(slots: u32, from: u32, to: u32) -> bool
    ensures { result ≡ is_span slots from to }
{
    from < slots && to < slots && from <= to
}

/// What an `on` line says: the slot in which a node is switched on.
#[derive(Clone, Copy)]
pub(crate) struct SwitchedOn {
    pub(crate) node: u8,
    pub(crate) slot: u32,
}

/// What an `on` line says, in a run of so many slots.
#[tactic(auto, unfolding(crate::specs::Faults::statement_faults))]
pub(crate) fn on_in(words: &Words, list: &Medl, slots: u32) -> Result<SwitchedOn, LineFault>
    requires { IsValid list.now }
    ensures ok { IfOk result (λ _. statement_faults list.now slots words.now keyword.On ≡ []) }
    ensures value { IfOk result (λ said. said ≡ record {
      node = number_at_word words.now 1;
      slot = number_at_word words.now 2;
    }) }
    ensures node { IfOk result (λ said. said.node < length list.now.slots) }
    ensures err { IfErr result (λ fault.
        first_fault (statement_faults list.now slots words.now keyword.On) ≡ Some fault) }
{
    let number = number_at_word(words, 1)?;
    let slot = number_at_word(words, 2)?;
    let node = node_of(list, number)?;
    if slots <= slot {
        return Err(LineFault::Range);
    }
    Ok(SwitchedOn { node, slot })
}

/// What a `drift` line says: how far a node's clock drifts in each slot.
#[derive(Clone, Copy)]
pub(crate) struct Drift {
    pub(crate) node: u8,
    pub(crate) value: i64,
}

/// What a `drift` line says, in a run of so many slots.
#[tactic(auto, unfolding(crate::specs::Faults::statement_faults))]
pub(crate) fn drift_in(words: &Words, list: &Medl, slots: u32) -> Result<Drift, LineFault>
    requires { IsValid list.now }
    ensures ok { IfOk result (λ _. statement_faults list.now slots words.now keyword.Drift ≡ []) }
    ensures value { IfOk result (λ said. said ≡ record {
      node = number_at_word words.now 1;
      value = value_in (word_at words.now 2);
    }) }
    ensures fits { IfOk result (λ said. FitsSigned w64 said.value) }
    ensures node { IfOk result (λ said. said.node < length list.now.slots) }
    ensures err { IfErr result (λ fault.
        first_fault (statement_faults list.now slots words.now keyword.Drift) ≡ Some fault) }
{
    let number = number_at_word(words, 1)?;
    let value = value_at(words, 2)?;
    let node = node_of(list, number)?;
    if !is_within_limit(DRIFT_LIMIT, value) {
        return Err(LineFault::Range);
    }
    Ok(Drift { node, value })
}

// What a `send` or a `receive` line says.
#[derive(Drop)]
struct Disturbance {
    node: u8,
    channels: Channels,
    fault: Fault,
    from: u32,
    to: u32,
}

// What a `send` or a `receive` line says, in a run of so many slots.
#[tactic(auto, unfolding(crate::specs::Faults::statement_faults))]
fn disturbance_in(words: &Words, list: &Medl, slots: u32) -> Result<Disturbance, LineFault>
    requires { IsValid list.now }
    ensures ok { IfOk result (λ _. statement_faults list.now slots words.now keyword.Send ≡ []) }
    ensures value { IfOk result (λ said. said ≡ record {
      node = number_at_word words.now 1;
      channels = channels_in (word_at words.now 2);
      fault = fault_in (word_at words.now 3);
      from = number_at_word words.now 4;
      to = number_at_word words.now 5;
    }) }
    ensures err { IfErr result (λ fault.
        first_fault (statement_faults list.now slots words.now keyword.Send) ≡ Some fault) }
{
    let number = number_at_word(words, 1)?;
    let from = number_at_word(words, 4)?;
    let to = number_at_word(words, 5)?;
    let node = node_of(list, number)?;
    if !is_span(slots, from, to) {
        return Err(LineFault::Range);
    }
    Ok(Disturbance {
        node,
        channels: channels_in(words.at(2).text()),
        fault: fault_in(words.at(3).text()),
        from,
        to,
    })
}

/// The event that a `send` line says, in a run of so many slots.
#[tactic(auto, unfolding(crate::specs::Faults::statement_faults))]
pub(crate) fn send_in(words: &Words, list: &Medl, slots: u32) -> Result<Event, LineFault>
    requires { IsValid list.now }
    ensures { ReadsEvent list.now slots words.now keyword.Send result }
{
    let said = disturbance_in(words, list, slots)?;
    Ok(Event::Send {
        node: said.node,
        channels: said.channels,
        fault: said.fault,
        from: said.from,
        to: said.to,
    })
}

/// The event that a `receive` line says, in a run of so many slots.
#[tactic(auto, unfolding(crate::specs::Faults::statement_faults))]
pub(crate) fn receive_in(words: &Words, list: &Medl, slots: u32) -> Result<Event, LineFault>
    requires { IsValid list.now }
    ensures { ReadsEvent list.now slots words.now keyword.Receive result }
{
    let said = disturbance_in(words, list, slots)?;
    Ok(Event::Receive {
        node: said.node,
        channels: said.channels,
        fault: said.fault,
        from: said.from,
        to: said.to,
    })
}

/// The event that a `flip` line says, in a run of so many slots.
#[tactic(auto, unfolding(crate::specs::Faults::statement_faults))]
pub(crate) fn flip_in(words: &Words, list: &Medl, slots: u32) -> Result<Event, LineFault>
    requires { IsValid list.now }
    ensures { ReadsEvent list.now slots words.now keyword.Flip result }
{
    let number = number_at_word(words, 1)?;
    let bit = number_at_word(words, 3)?;
    let slot = number_at_word(words, 4)?;
    let node = node_of(list, number)?;
    if !is_flipped_bit(bit) || slots <= slot {
        return Err(LineFault::Range);
    }
    Ok(Event::Flip {
        node,
        channels: channels_in(words.at(2).text()),
        bit: bit as u16,
        slot,
    })
}

/// The event that an `error` line says, in a run of so many slots.
#[inline(always)]
#[tactic(auto, unfolding(crate::specs::Faults::statement_faults))]
pub(crate) fn error_in(words: &Words, list: &Medl, slots: u32) -> Result<Event, LineFault>
    requires { IsValid list.now }
    ensures { ReadsEvent list.now slots words.now keyword.Error result }
{
    let number = number_at_word(words, 1)?;
    let value = value_at(words, 2)?;
    let from = number_at_word(words, 3)?;
    let to = number_at_word(words, 4)?;
    let node = node_of(list, number)?;
    if !is_within_limit(ERROR_LIMIT, value) || !is_span(slots, from, to) {
        return Err(LineFault::Range);
    }
    Ok(Event::Error {
        node,
        value,
        from,
        to,
    })
}

/// The event that a `jump` line says, in a run of so many slots.
#[tactic(auto, unfolding(crate::specs::Faults::statement_faults))]
pub(crate) fn jump_in(words: &Words, list: &Medl, slots: u32) -> Result<Event, LineFault>
    requires { IsValid list.now }
    ensures { ReadsEvent list.now slots words.now keyword.Jump result }
{
    let number = number_at_word(words, 1)?;
    let value = value_at(words, 2)?;
    let slot = number_at_word(words, 3)?;
    let node = node_of(list, number)?;
    if !is_within_limit(JUMP_LIMIT, value) || slots <= slot {
        return Err(LineFault::Range);
    }
    Ok(Event::Jump { node, value, slot })
}

/// The event that an `arm` line says, in a run of so many slots.
#[tactic(auto, unfolding(crate::specs::Faults::statement_faults))]
pub(crate) fn arm_in(words: &Words, list: &Medl, slots: u32) -> Result<Event, LineFault>
    requires { IsValid list.now }
    ensures { ReadsEvent list.now slots words.now keyword.Arm result }
{
    let number = number_at_word(words, 1)?;
    let slot = number_at_word(words, 2)?;
    let node = node_of(list, number)?;
    if slots <= slot {
        return Err(LineFault::Range);
    }
    Ok(Event::Arm { node, slot })
}
