//! The line that a call says as it ends.
ghost use Rattle.commands.specs.Lines.{notice, HasSaid};

use ttp_base::Sink;

/// Writes one line as one piece, and answers the status, or 6 where the line could not be written. Takes no
/// memory.
pub fn say<K: Sink>(out: &mut K, line: &[u8], status: u8) -> u8
    ensures { HasSaid (notice status line.now) (K.output out.old) (K.output out.new) result }
{
    match out.write(line) {
        Ok(()) => status,
        Err(_) => 6,
    }
}
