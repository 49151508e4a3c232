//! The command `sample MEDL SLOTS NUMBER`.
#![tactic(auto, unfolding(line_form::specs::Forms::worded))]

ghost use Rattle.std.specs.Prelude.{◌≡◌, ◌≤◌, [], ◌∷◌, Some, None, OnOk, OnErr};
ghost use Rattle.ttp_base.specs.Outside.{WroteLines, CutShort};
ghost use Rattle.ttp_world.specs.declared.script.TheConstants.{SLOT_LIMIT};
ghost use Rattle.ttp_world.specs.Medl.{IsValid};
ghost use Rattle.ttp_world.specs.Script.{IsValidScript};
ghost use Rattle.script_gen.specs.Generator.{generated};
ghost use Rattle.cluster_run.specs.Standing.{ClusterStandsFor};
ghost use Rattle.commands.specs.Outcome.{Follows, ShowsEnding};
ghost use Rattle.commands.specs.Plan.{outside};
ghost use Rattle.commands.specs.Texts.{answer};
ghost use Rattle.ttp_top.specs.Calls.Answer.{ttpbench, kept_after};
ghost use Rattle.ttp_top.specs.Calls.Forms.{sample_ending, plan_of};
ghost use Rattle.ttp_top.specs.Calls.Words.{sample};
ghost use Rattle.ttp_top.specs.Samples.Counted.{HasFewMembers};
ghost use Rattle.ttp_top.specs.Samples.Lines.{asked_line, sent_line, hosts_line, summary_lines};

use crate::kept::keep_after;
use crate::totals::{Totals, count_run};
use cluster_run::Cluster;
use commands::load_list;
use hypothesis::keeps;
use line_form::{put_hexed, put_number};
use line_text::put_keep;
use script_gen::generate;
use std::alloc::Global;
use std::sync::Wait;
use std::thread::Threads;
use ttp_base::{Failed, Gate, Library, Line, Sink};
use ttp_world::{Medl, Script};

// What was asked for.
fn asked_line(slots: u32, number: u64) -> Line
    ensures { result ≡ asked_line slots number }
{
    let mut line = Line::new();
    put_number(&mut line, "sample slots ", u64::from(slots));
    put_number(&mut line, " number ", number);
    line.put_text("\n");
    line
}

// What nodes did, with the members in the digits that the list gives.
fn sent_line(list: &Medl, totals: &Totals) -> Line
    requires { HasFewMembers list.now totals.now }
    ensures { result ≡ sent_line list.now totals.now }
{
    let digits = if list.is_wide() { 6 } else { 4 };
    let mut line = Line::new();
    put_number(&mut line, "sent ", totals.sent);
    put_number(&mut line, " left ", totals.left);
    let members = u64::from(totals.members.bits());
    put_hexed(&mut line, " members ", members, digits);
    line.put_text("\n");
    line
}

// What hosts did.
fn hosts_line(totals: &Totals) -> Line
    ensures { result ≡ hosts_line totals.now }
{
    let mut line = Line::new();
    put_number(&mut line, "writes ", totals.writes);
    put_number(&mut line, " reads ", totals.reads);
    line.put_text("\n");
    line
}

fn put_asked<K: Sink>(slots: u32, number: u64, out: &mut K) -> Result<(), Failed>
    ensures ok { OnOk result (WroteLines (K.output out.old) (K.output out.new) (asked_line slots number ∷ [])) }
    ensures failed { OnErr result (CutShort (K.output out.old) (K.output out.new) (asked_line slots number ∷ [])) }
{
    out.write(asked_line(slots, number).bytes())
}

fn put_sent<K: Sink>(list: &Medl, totals: &Totals, out: &mut K) -> Result<(), Failed>
    requires { HasFewMembers list.now totals.now }
    ensures ok { OnOk result (WroteLines (K.output out.old) (K.output out.new) (sent_line list.now totals.now ∷ [])) }
    ensures failed { OnErr result
        (CutShort (K.output out.old) (K.output out.new) (sent_line list.now totals.now ∷ [])) }
{
    out.write(sent_line(list, totals).bytes())
}

fn put_hosts<K: Sink>(totals: &Totals, out: &mut K) -> Result<(), Failed>
    ensures ok { OnOk result (WroteLines (K.output out.old) (K.output out.new) (hosts_line totals.now ∷ [])) }
    ensures failed { OnErr result (CutShort (K.output out.old) (K.output out.new) (hosts_line totals.now ∷ [])) }
{
    out.write(hosts_line(totals).bytes())
}

// The four lines, each as one piece.
fn put_summary<K: Sink>(
    list: &Medl,
    script: &Script,
    slots: u32,
    number: u64,
    totals: &Totals,
    out: &mut K,
) -> Result<(), Failed>
    requires valid { IsValid list.now }
    requires script { IsValidScript list.now script.now }
    requires members { HasFewMembers list.now totals.now }
    ensures ok { OnOk result (WroteLines (K.output out.old) (K.output out.new)
        (summary_lines list.now script.now slots number totals.now)) }
    ensures failed { OnErr result (CutShort (K.output out.old) (K.output out.new)
        (summary_lines list.now script.now slots number totals.now)) }
{
    put_asked(slots, number, out)?;
    put_sent(list, totals, out)?;
    put_hosts(totals, out)?;
    put_keep(&keeps(list, script), out)
}

// The summary of the run of a new cluster by a generated script. All slots are done before the first line is
// written.
fn put_sample<R: Threads + Wait + Sync, K: Sink, G: Gate>(
    rt: &R,
    cluster: &mut Cluster,
    slots: u32,
    number: u64,
    out: &mut K,
    gate: &G,
) -> u8
    requires valid { IsValid cluster.old.list }
    requires script { IsValidScript cluster.old.list cluster.old.script }
    requires generated { cluster.old.script ≡ generated cluster.old.list slots number }
    requires new { ClusterStandsFor cluster.old [] }
    ensures { ShowsEnding ttpbench (sample_ending slots number cluster.old.list) (K.output out.old) (K.output out.new)
        (answer result (kept_after result cluster.new)) }
{
    match count_run(rt, cluster, gate) {
        Ok(totals) => match put_summary(
            cluster.list(),
            cluster.script(),
            slots,
            number,
            &totals,
            out,
        ) {
            Ok(()) => 0,
            Err(Failed) => 6,
        },
        Err(_) => 7,
    }
}

// The summary of the generated run. The cluster is kept once the last line is written.
fn show_sample<R: Threads + Wait + Sync, K: Sink, G: Gate>(
    rt: &R,
    alloc: Global,
    list: Medl,
    slots: u32,
    number: u64,
    out: &mut K,
    gate: &G,
    kept: &mut Option<Cluster>,
) -> u8
    requires valid { IsValid list }
    requires slots { (1 ≤ slots) × (slots ≤ SLOT_LIMIT) }
    requires none { kept.old ≡ None }
    ensures { ShowsEnding ttpbench (sample_ending slots number list) (K.output out.old) (K.output out.new)
        (answer result kept.new) }
{
    let Ok(script) = generate(alloc, &list, slots, number) else {
        return 7;
    };
    match Cluster::make(alloc, list, script) {
        Ok(mut cluster) => {
            let status = put_sample(rt, &mut cluster, slots, number, out, gate);
            keep_after(status, cluster, kept);
            status
        }
        Err(_) => 7,
    }
}

/// The summary of a run of so many slots of the list of this name, by the script that the number gives. The
/// cluster that ran is kept where all of the summary was written.
pub(crate) fn sample<R: Threads + Wait + Sync, L: Library, K: Sink, G: Gate>(
    rt: &R,
    alloc: Global,
    list: &str,
    slots: u32,
    number: u64,
    library: &mut L,
    out: &mut K,
    gate: &G,
    kept: &mut Option<Cluster>,
) -> u8
    requires slots { (1 ≤ slots) × (slots ≤ SLOT_LIMIT) }
    requires none { kept.old ≡ None }
    ensures { Follows ttpbench (plan_of (Some (sample list.now slots number)))
        (outside (L.files library.old) (K.output out.old)) (outside (L.files library.new) (K.output out.new))
        (answer result kept.new) }
{
    match load_list(alloc, list, library, out) {
        Ok(medl) => show_sample(rt, alloc, medl, slots, number, out, gate, kept),
        Err(status) => status,
    }
}
