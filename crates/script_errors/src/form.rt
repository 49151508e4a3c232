//! The forms of lines.
ghost use Rattle.std.specs.Prelude.{◌≡◌};
ghost use Rattle.script_errors.specs.Words.{form_named, parts_of};

use crate::error::{Form, Part};
use script_text::is_text;

/// The form that a line's first word names.
pub fn form_named(word: &[u8]) -> Option<Form>
    ensures { result ≡ form_named word.now }
{
    if is_text(b"slots", word) {
        Some(Form::Slots)
    } else if is_text(b"on", word) {
        Some(Form::On)
    } else if is_text(b"drift", word) {
        Some(Form::Drift)
    } else if is_text(b"send", word) {
        Some(Form::Send)
    } else if is_text(b"receive", word) {
        Some(Form::Receive)
    } else if is_text(b"flip", word) {
        Some(Form::Flip)
    } else if is_text(b"error", word) {
        Some(Form::Error)
    } else if is_text(b"jump", word) {
        Some(Form::Jump)
    } else if is_text(b"arm", word) {
        Some(Form::Arm)
    } else if is_text(b"write", word) {
        Some(Form::Write)
    } else if is_text(b"read", word) {
        Some(Form::Read)
    } else {
        None
    }
}

/// What the words behind the first say, in their order.
pub(crate) fn parts_of(form: Form) -> &'static [Part]
    ensures { result.now ≡ parts_of form }
{
    match form {
        Form::Slots => &[Part::Slots],
        Form::On | Form::Arm => &[Part::Node, Part::Slot],
        Form::Drift => &[Part::Node, Part::Drift],
        Form::Send | Form::Receive => {
            &[
                Part::Node,
                Part::Channels,
                Part::Fault,
                Part::From,
                Part::To,
            ]
        }
        Form::Flip => &[Part::Node, Part::Channels, Part::Bit, Part::Slot],
        Form::Error => &[Part::Node, Part::Reading, Part::From, Part::To],
        Form::Jump => &[Part::Node, Part::Jump, Part::Slot],
        Form::Write => &[Part::Writer, Part::Slot, Part::Message],
        Form::Read => &[Part::Node, Part::Slot, Part::Source],
    }
}
