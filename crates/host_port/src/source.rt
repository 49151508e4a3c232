//! The places of sources.
ghost use Rattle.std.specs.Prelude.{◌≡◌};
ghost use Rattle.host_port.specs.Rings.{source_place};

use ttp_world::Source;

/// The place of a source's ring among those that a host reads.
pub(crate) fn source_place(source: Source) -> usize
    ensures { result ≡ source_place source }
{
    match source {
        Source::Status => 0,
        Source::Node(k) => k as usize + 1,
    }
}
