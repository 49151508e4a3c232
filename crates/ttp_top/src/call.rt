//! A command, from its words to its status.
ghost use Rattle.std.specs.Prelude.{◌≡◌, ◌≢◌, None};
ghost use Rattle.commands.specs.Outcome.{Follows};
ghost use Rattle.commands.specs.Plan.{outside};
ghost use Rattle.commands.specs.Texts.{answer};
ghost use Rattle.commands.specs.Words.{texts_of};
ghost use Rattle.ttp_top.specs.Calls.Answer.{ttpbench};
ghost use Rattle.ttp_top.specs.Calls.Forms.{plan_of};
ghost use Rattle.ttp_top.specs.Calls.Words.{form_of};

use crate::ask::ask;
use crate::kept::let_go;
use crate::run::run;
use crate::sample::sample;
use crate::schedule::schedule;
use crate::words::{Command, command_of};
use cluster_run::Cluster;
use commands::say;
use std::alloc::Global;
use std::sync::Wait;
use std::thread::Threads;
use ttp_base::{Gate, Library, Sink};

const USAGE: &str = "usage: schedule MEDL | run MEDL SCRIPT | keeps MEDL SCRIPT | \
    verify MEDL SCRIPT TRACE | sample MEDL SLOTS NUMBER | precision MEDL SCRIPT NODE | modes MEDL SCRIPT TRACE\n";

/// Does what the words ask for, and answers its status: what `bench` of bench_call does and promises in full.
/// After status 0 of `run` and `sample` the cluster that ran is kept; whatever was kept before is let go.
pub fn obey<R: Threads + Wait + Sync, L: Library, K: Sink, G: Gate>(
    rt: &R,
    alloc: Global,
    words: &[String],
    library: &mut L,
    out: &mut K,
    gate: &G,
    kept: &mut Option<Cluster>,
) -> u8
    // It followed the plan of the form that the words have.
    ensures follows { Follows ttpbench (plan_of (form_of (texts_of words.now))) (outside (L.files library.old) (K.output out.old))
        (outside (L.files library.new) (K.output out.new)) (answer result kept.new) }
    // Words of no form take no memory.
    ensures no_form { form_of (texts_of words.now) ≡ None → result ≢ 7 }
{
    let_go(kept.take());
    match command_of(words) {
        Command::Schedule { list } => schedule(alloc, list, library, out),
        Command::Run { list, script } => run(rt, alloc, list, script, library, out, gate, kept),
        Command::Ask {
            list,
            script,
            question,
        } => ask(alloc, list, script, question, library, out),
        Command::Sample {
            list,
            slots,
            number,
        } => sample(rt, alloc, list, slots, number, library, out, gate, kept),
        Command::NoForm => say(out, USAGE.as_bytes(), 2),
    }
}
