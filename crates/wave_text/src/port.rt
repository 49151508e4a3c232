//! The changes of a host's variables, written.
ghost use Rattle.std.specs.Prelude.{◌≡◌, ◌≤◌, ◌++◌, length};
ghost use Rattle.ttp_base.specs.Sheet.{Puts};
ghost use Rattle.wave_text.specs.Moment.{unless_first};
ghost use Rattle.wave_text.specs.Values.{port_value};
ghost use Rattle.wave_text.specs.Variables.{port_letter, source_letter, port_code, HasLetters, HasSourceLetter};
ghost use Rattle.wave_text.specs.Wave.{changes_by, port_changes};

use crate::change::put_change;
use crate::draft::Draft;
use crate::page::Page;
use crate::value::put_port_value;
use crate::variable::PortVariable;
use shown_slot::{Message, Port, What};
use ttp_base::Sink;
use ttp_world::Source;

fn port_letter(what: What, variable: PortVariable) -> &'static str
    ensures text { result.now ≡ port_letter what variable }
    ensures short { length result.now ≡ 1 }
{
    match what {
        What::Write => "k",
        What::Read(_) => match variable {
            PortVariable::Number => "l",
            PortVariable::Data => "m",
        },
    }
}

// Adds the letter of what is read.
fn put_source_letter(code: &mut Draft, what: What)
    requires room { length code.old ≤ 2 }
    requires letter { HasSourceLetter what }
    ensures text { code.new ≡ code.old ++ source_letter what }
    ensures short { length code.new ≤ 3 }
{
    match what {
        What::Write => {}
        What::Read(source) => match source {
            Source::Status => code.put_text("z"),
            Source::Node(node) => code.put_bytes(&[b'A' + node]),
        },
    }
}

/// The code of a variable of a host.
pub(crate) fn port_code(port: &Port, variable: PortVariable) -> Draft
    requires { HasLetters port.now }
    ensures text { result ≡ port_code port.now variable }
    ensures short { length result ≤ 3 }
{
    let mut code = Draft::new();
    code.put_text(port_letter(port.what, variable));
    code.put_bytes(&[b'A' + port.host]);
    put_source_letter(&mut code, port.what);
    code
}

// Writes the change of a variable of a host.
fn put_port_change<K: Sink>(
    port: &Port,
    variable: PortVariable,
    is_first: bool,
    before: &Option<Message>,
    now: &Option<Message>,
    page: &mut Page,
    out: &mut K,
)
    requires { HasLetters port.now }
    ensures { Puts page.old.sheet.failed (K.output out.old) page.new.sheet.failed (K.output out.new)
        (changes_by (port_value variable) (port_code port.now variable) (unless_first is_first before.now) now.now) }
{
    page.before.clear();
    page.now.clear();
    put_port_value(&mut page.before, variable, before);
    put_port_value(&mut page.now, variable, now);
    put_change(is_first, port_code(port, variable).bytes(), page, out);
}

/// Writes the changes of a port's variables since the slot before, or all in the first one.
pub(crate) fn put_port_changes<K: Sink>(
    port: &Port,
    is_first: bool,
    before: &Option<Message>,
    now: &Option<Message>,
    page: &mut Page,
    out: &mut K,
)
    requires { HasLetters port.now }
    ensures { Puts page.old.sheet.failed (K.output out.old) page.new.sheet.failed (K.output out.new)
        (port_changes port.now (unless_first is_first before.now) now.now) }
{
    put_port_change(port, PortVariable::Number, is_first, before, now, page, out);
    if let What::Read(_) = port.what {
        put_port_change(port, PortVariable::Data, is_first, before, now, page, out);
    }
}
