//! A label looked for at the front of bytes.
ghost use Rattle.std.specs.Prelude.{◌≡◌, option_map};
ghost use Rattle.line_text.specs.Labels.{after_label};

/// What follows a label at the front of bytes, if they begin with it. Takes no memory.
pub fn after_label<'a>(label: &[u8], bytes: &'a [u8]) -> Option<&'a [u8]>
    ensures { option_map (λ p. p.now) result ≡ after_label label.now bytes.now }
{
    bytes.strip_prefix(label)
}
