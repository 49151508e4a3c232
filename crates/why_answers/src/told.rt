//! The lines on an entry of a run.
ghost use Rattle.std.specs.Prelude.{◌≡◌, ◌≤◌, ◌<◌, length, IfOk};
ghost use Rattle.ttp_world.specs.Medl.{IsValid};
ghost use Rattle.ttp_world.specs.Script.{IsValidScript};
ghost use Rattle.why_answers.specs.Answer.{lines_on_entry};

use causes::{Cause, Spot};
use entry_causes::{cause, root};
use line_numbers::line_numbers;
use run_rows::RunRows;
use std::alloc::Global;
use ttp_base::{GrowingText, List, Memory};
use ttp_world::{Entry, Medl, Script};
use why_lines::why_lines;
use why_story::Causes;

// The causes of the entries of a run.
#[derive(Drop)]
struct RunCauses<'a> {
    run: &'a RunRows<'a>,
}

impl Causes for RunCauses<'_> {
    ghost use Rattle.ttp_world.specs.ZerosWorld.{zeros_world};

    ghost source = { λ s. record {
      list = s.run.now.list;
      script = s.run.now.script;
      history = zeros_world s.run.now.list s.run.now.script s.run.now.slots;
    } };

    fn entry(&self, slot: u32, node: u8) -> Entry {
        self.run.row(slot, node).entry
    }

    fn cause(&self, alloc: Global, slot: u32, node: u8) -> Result<Cause, Memory> {
        cause(alloc, self.run, slot, node)
    }

    fn root(&self, slot: u32, node: u8) -> Spot {
        root(self.run, node, slot)
    }
}

/// The lines on what a node did in a slot of the run.
///
/// # Errors
///
/// Where memory was refused.
pub(crate) fn lines_on_entry(
    alloc: Global,
    list: &Medl,
    script: &Script,
    bytes: &[u8],
    node: u8,
    slot: u32,
) -> Result<List<GrowingText>, Memory>
    requires valid { IsValid list.now }
    requires script { IsValidScript list.now script.now }
    requires bytes { length bytes.now ≤ 1048576 }
    requires node { node < length list.now.slots }
    requires slot { slot < script.now.slots }
    ensures { IfOk result (λ lines. lines ≡ lines_on_entry list.now script.now bytes.now node slot) }
{
    let run = RunRows::new(alloc, list, script, slot + 1)?;
    let numbers = line_numbers(alloc, list.nodes(), bytes)?;
    let causes = RunCauses { run: &run };
    why_lines(alloc, list, script, &numbers, &causes, slot, node)
}
