//! Where tables of what hosts do have their entries.
ghost use Rattle.std.specs.Prelude.{◌≡◌, ◌<◌, ◌↔◌, IfSome, IsNone, IsTrue};
ghost use Rattle.wave_text.specs.Places.{table_place, HasPlace, host_in, what_in};
ghost use Rattle.wave_text.specs.Variables.{HasSourceLetter};
ghost use Rattle.wave_text.specs.declared.place.TheConstants.{PLACES};

use shown_slot::What;
use ttp_world::Source;
use whole_trace::HostLine;

/// How many entries a table has: for each of 24 hosts one for what it writes, one for its status, and one for
/// each node of which it reads.
pub(crate) const PLACES: usize = 624;

/// The place of what a host does.
pub(crate) fn table_place(host: u8, what: What) -> usize
    requires { HasPlace host what }
    ensures value { result ≡ table_place host what }
    ensures within { result < PLACES }
{
    let row = 26 * usize::from(host);
    match what {
        What::Write => row,
        What::Read(source) => match source {
            Source::Status => row + 1,
            Source::Node(node) => row + (2 + usize::from(node)),
        },
    }
}

fn host_in(line: &HostLine) -> u8
    ensures { result ≡ host_in line.now }
{
    match line {
        HostLine::Write { host, .. } | HostLine::Read { host, .. } => *host,
    }
}

fn what_in(line: &HostLine) -> What
    ensures { result ≡ what_in line.now }
{
    match line {
        HostLine::Write { .. } => What::Write,
        HostLine::Read { source, .. } => What::Read(*source),
    }
}

// Whether a source is below 24.
fn has_source_letter(what: What) -> bool
    ensures { IsTrue result ↔ HasSourceLetter what }
{
    match what {
        What::Write => true,
        What::Read(source) => match source {
            Source::Status => true,
            Source::Node(node) => node < 24,
        },
    }
}

/// What a host's line says that it does, if it has a place.
pub(crate) fn placed(line: &HostLine) -> Option<(u8, What)>
    ensures some { IfSome result (λ at. (at.0 ≡ host_in line.now) × (at.1 ≡ what_in line.now) × HasPlace at.0 at.1) }
    ensures none { IsNone result → ¬ (HasPlace (host_in line.now) (what_in line.now)) }
{
    let host = host_in(line);
    let what = what_in(line);
    if host < 24 && has_source_letter(what) {
        Some((host, what))
    } else {
        None
    }
}
