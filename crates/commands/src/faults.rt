//! The lines that refuse a file.
ghost use Rattle.std.specs.Prelude.{◌≡◌, ◌+◌, ◌≤◌, ◌++◌, length};
ghost use Rattle.commands.specs.Faults.{field_text, unknown_text, list_fault_text, line_fault_text};
ghost use Rattle.commands.specs.Faults.{script_fault_text, file_fault_line};

use crate::read::FileFault;
use medl_text::{Field, MedlError};
use script_text::{LineFault, ScriptError};
use ttp_base::Line;

#[tactic(auto, using(ttp_base::proofs::Room::room))]
fn put_field(line: &mut Line, field: Field)
    requires { length line.old + 40 ≤ 640 }
    ensures text { line.new ≡ line.old ++ field_text field }
    ensures short { length line.new ≤ length line.old + 40 }
{
    if let Some(k) = field.slot {
        line.put_text("slot ");
        line.put_number(u64::from(k));
        line.put_text(" ");
    }
    line.put_text(field.name.key());
}

#[tactic(auto, using(ttp_base::proofs::Room::room))]
fn put_unknown(line: &mut Line, slot: Option<u8>)
    requires { length line.old + 40 ≤ 640 }
    ensures text { line.new ≡ line.old ++ unknown_text slot }
    ensures short { length line.new ≤ length line.old + 40 }
{
    match slot {
        None => line.put_text("unknown key at top"),
        Some(k) => {
            line.put_text("unknown key in slot ");
            line.put_number(u64::from(k));
        }
    }
}

#[tactic(auto, using(ttp_base::proofs::Room::room))]
fn put_list_fault(line: &mut Line, fault: MedlError)
    requires { length line.old + 100 ≤ 640 }
    ensures text { line.new ≡ line.old ++ list_fault_text fault }
    ensures short { length line.new ≤ length line.old + 100 }
{
    match fault {
        MedlError::NotToml => line.put_text("not toml"),
        MedlError::Missing { field } => {
            line.put_text("missing ");
            put_field(line, field);
        }
        MedlError::WrongKind { field } => {
            line.put_text("wrong kind ");
            put_field(line, field);
        }
        MedlError::OutOfRange { field, value } => {
            line.put_text("out of range ");
            put_field(line, field);
            line.put_text(" ");
            line.put_signed(value);
        }
        MedlError::SlotCount { found } => {
            line.put_text("slot count ");
            line.put_number(found as u64);
        }
        MedlError::Kinds { slot } => {
            line.put_text("kinds of slot ");
            line.put_number(u64::from(slot));
        }
        MedlError::Unknown { slot } => put_unknown(line, slot),
        MedlError::NoSync { found } => {
            line.put_text("sync slots ");
            line.put_number(u64::from(found));
        }
        MedlError::NoRequestData { slot } => {
            line.put_text("no data for requests of slot ");
            line.put_number(u64::from(slot));
        }
        MedlError::Live { slot } => {
            line.put_text("live of slot ");
            line.put_number(u64::from(slot));
        }
        MedlError::NotBuilt { field } => {
            line.put_text("not built ");
            put_field(line, field);
        }
        MedlError::Memory => {}
    }
}

fn line_fault_text(fault: LineFault) -> &'static str
    ensures text { result.now ≡ line_fault_text fault }
    ensures short { length result.now ≤ 9 }
{
    match fault {
        LineFault::Word => "word",
        LineFault::NoSlots => "no slots",
        LineFault::NotBuilt => "not built",
        LineFault::Number => "number",
        LineFault::NoNode => "no node",
        LineFault::NoData => "no data",
        LineFault::Range => "range",
        LineFault::Repeat => "repeat",
        LineFault::NoBuffer => "no buffer",
        LineFault::TooMany => "too many",
    }
}

#[tactic(auto, using(ttp_base::proofs::Room::room))]
fn put_script_fault(line: &mut Line, fault: ScriptError)
    requires { length line.old + 50 ≤ 640 }
    ensures text { line.new ≡ line.old ++ script_fault_text fault }
    ensures short { length line.new ≤ length line.old + 50 }
{
    match fault {
        ScriptError::Line { number, fault } => {
            line.put_text("line ");
            line.put_number(u64::from(number));
            line.put_text(" ");
            line.put_text(line_fault_text(fault));
        }
        ScriptError::Memory => {}
    }
}

/// The line that says what is wrong with a file, behind the word for the file, as `list`. Takes no
/// memory.
#[tactic(auto, unfolding(crate::specs::Faults::file_fault_line))]
pub fn file_fault_line(file: &str, fault: FileFault) -> Line
    requires { length file.now ≤ 9 }
    ensures { result ≡ file_fault_line file.now fault }
{
    let mut line = Line::new();
    line.put_text(file);
    line.put_text(": ");
    match fault {
        FileFault::TooLarge => line.put_text("too large"),
        FileFault::List(fault) => put_list_fault(&mut line, fault),
        FileFault::Script(fault) => put_script_fault(&mut line, fault),
    }
    line.put_text("\n");
    line
}
