//! The one call of the program: words in, bytes and a status out.
//!
//! [`bench`] takes the words of a command, a library that its files come from, and a sink that its
//! output goes to. Its contract is the product's promise: the status and the bytes are a stated
//! function of the words and of what the library tells, and the outside is blamed only where it is
//! at fault. Its words are in `specs` of ttp_top, which has the forms and follows their plans; what
//! follows a plan keeps the promise, as `proofs/Calls/Promises.antt` there shows. `main` of ttpbench
//! calls it, and so does `run_bench` of host_tests, over a library and a sink in memory:
//!
//! ```text
//! bench(rt, rt.alloc(), words, library, out, gate, kept)
//! ```
//!
//! The crate has this one call, and says nothing of a form but in its contract. [`let_go`] of ttp_top lets go
//! a cluster that it kept.
#![tactic(auto)]

ghost use Rattle.std.specs.Prelude.{◌≡◌, ◌==◌, ◌&&◌, ℕ, List, Some, is_some};
ghost use Rattle.commands.specs.Plan.{outside};
ghost use Rattle.commands.specs.Texts.{answer};
ghost use Rattle.commands.specs.Words.{texts_of};
ghost use Rattle.ttp_top.specs.Calls.Promise.{BenchPromise};
ghost use Rattle.ttp_top.specs.Calls.Words.{schedule, run, keeps, verify, precision, sample, modes, runs_cluster, form_of};
ghost use Rattle.ttp_top.specs.Lists.Promise.{SchedulePromise};
ghost use Rattle.ttp_top.specs.Samples.Promise.{SamplePromise};
ghost use Rattle.ttp_top.specs.Scripts.Promise.{RunPromise};
ghost use Rattle.ttp_top.specs.Tests.Promise.{KeepsPromise, PrecisionPromise};
ghost use Rattle.ttp_top.specs.Traces.Promise.{VerifyPromise, ModesPromise};

use cluster_run::Cluster;
use std::alloc::Global;
use std::sync::Wait;
use std::thread::Threads;
use ttp_base::{Gate, Library, Sink};
pub use ttp_top::let_go;
use ttp_top::obey;

/// Runs the command that the words spell, and answers its status. The words are those after the
/// program's name.
///
/// There are seven forms: `schedule MEDL` writes the slot table of one cluster cycle,
/// `run MEDL SCRIPT` the trace of a script, `keeps MEDL SCRIPT` its last line alone, the answer of the
/// test of the single-fault hypothesis, `verify MEDL SCRIPT TRACE` whether a text is a trace of a script, and
/// else its first wrong line, `precision MEDL SCRIPT NODE` the answer of the test for one
/// two-faced sender, which is the node of that number, and where it may be one, how far apart the other
/// nodes' clocks came, in microticks, `sample MEDL SLOTS NUMBER` four lines on a run of so many slots by
/// the script that the number gives, and `modes MEDL SCRIPT TRACE` for a text that is a trace which mode each
/// node runs, for each slot and node, and else its first wrong line. NODE is one or two decimal digits of a number below 24, SLOTS 1 to 20
/// of a number from 1 to 20,000, and NUMBER 1 to 20 of a number below 2^64. They take any valid list and any
/// valid script.
///
/// | status | comes | what is written |
/// |---|---|---|
/// | 0 | the command was done; for `verify` and `modes` the text is a trace | the whole output |
/// | 1 | exactly where TRACE is the trace text for no legal message numbers; for `verify` and `modes` alone | `differs at line N` |
/// | 2 | exactly where the words have no form | the usage line |
/// | 3 | exactly where the list is longer than 1,048,576 bytes or refused | a line that begins `list: ` |
/// | 4 | exactly where the script is longer than 1,048,576 bytes or refused | a line that begins `script: ` |
/// | 5 | only where the count of the file's name rose, and no earlier refusal came | `load: list`, `load: script` or `load: trace` |
/// | 6 | only where the sink's count rose | so many whole lines of a text that was due, and a front of the next |
/// | 7 | want of memory | nothing, or for `run` some whole lines of a trace, fewer than all |
///
/// The library is asked for the files of the form, each once, in the order of the words, and for a
/// script only where the list is not refused. Each line is one piece, so the cost is one write for each
/// line. `run` makes its cluster before it writes the first line, and then writes slot by slot; a slot
/// costs its nodes, with a few searches in the script's index for each, whatever its number, and takes
/// memory for its report and for the readers of its hosts. The hypothesis test takes no memory, and its
/// slots cost the same way. `precision` runs the controllers alone, where its test says yes. For words of
/// no form the library is left alone and no memory is taken.
///
/// `sample` does all slots before its first line, and forms no text of a slot; it takes memory for its
/// script, and then as `run` does.
///
/// `run` and `sample` start threads in slots in which hosts write or read, and their rings pass the gate
/// before each step on a word. After their status 0 `kept` holds the cluster that ran, whose [`Cluster::done`] is the
/// script's number of slots; after every other call it holds none, whatever it held before.
pub fn bench<R: Threads + Wait + Sync, L: Library, K: Sink, G: Gate>(
    rt: &R,
    alloc: Global,
    words: &[String],
    library: &mut L,
    out: &mut K,
    gate: &G,
    kept: &mut Option<Cluster>,
) -> u8
    // The promise of every form: what is asked for, how it ends, and what is written.
    ensures promise { BenchPromise (form_of (texts_of words.now)) (outside (L.files library.old) (K.output out.old))
        (outside (L.files library.new) (K.output out.new)) (answer result kept.new) }
    // For `run`, in its own words: status 0 is the trace of the world's run for the numbers that the trace
    // names, which are legal. Where the script keeps the single-fault hypothesis, that run is safe from its start on,
    // clocks of correct nodes are near, and they have judged the same frames and run one mode; where armed nodes are
    // guaranteed their places, it is safe with armed nodes. Right files give one; with status 6 one was cut short, and
    // with status 7 it ends with a whole line before its last one. After status 0 the cluster that ran is kept, and
    // stands for these numbers.
    ensures run { (list script : List ℕ) → form_of (texts_of words.now) ≡ Some (run list script)
        → RunPromise list script (outside (L.files library.old) (K.output out.old))
        (outside (L.files library.new) (K.output out.new)) (answer result kept.new) }
    // For `sample`, in its own words: status 0 is the four lines on the generated run of the list, which are the
    // same for all legal message numbers; a right list gives them, and with status 7 nothing is written. After
    // status 0 the cluster that ran is kept, and stands for legal numbers.
    ensures sample { (list : List ℕ) (slots number : ℕ) → form_of (texts_of words.now) ≡ Some (sample list slots number)
        → SamplePromise list slots number (outside (L.files library.old) (K.output out.old))
        (outside (L.files library.new) (K.output out.new)) (answer result kept.new) }
    // For `verify`, in its own words: status 0 says that the whole text of the third file, however long, is the trace
    // of a run, and status 1 names its first wrong line; right files give one of the two, with status 6 it was cut
    // short, and with status 7 nothing is written.
    ensures verify { (list script trace : List ℕ) → form_of (texts_of words.now) ≡ Some (verify list script trace)
        → VerifyPromise list script trace (outside (L.files library.old) (K.output out.old))
        (outside (L.files library.new) (K.output out.new)) (answer result kept.new) }
    // For `modes`, in its own words: status 0 says that the third file is the trace of a run, and writes which mode
    // each node runs in it, and status 1 names the first wrong line; with status 6 the text was cut short, and with
    // status 7 nothing is written. Where the script keeps the single-fault hypothesis, the lines of all correct nodes
    // show one mode after each slot from the start on.
    ensures modes { (list script trace : List ℕ) → form_of (texts_of words.now) ≡ Some (modes list script trace)
        → ModesPromise list script trace (outside (L.files library.old) (K.output out.old))
        (outside (L.files library.new) (K.output out.new)) (answer result kept.new) }
    // For `schedule`, in its own words: status 0 is the slot table of the list.
    ensures schedule { (list : List ℕ) → form_of (texts_of words.now) ≡ Some (schedule list)
        → SchedulePromise list (outside (L.files library.old) (K.output out.old))
        (outside (L.files library.new) (K.output out.new)) (answer result kept.new) }
    // For `keeps`: status 0 is the last lines of a trace, those of the tests of the script.
    ensures keeps { (list script : List ℕ) → form_of (texts_of words.now) ≡ Some (keeps list script)
        → KeepsPromise list script (outside (L.files library.old) (K.output out.old))
        (outside (L.files library.new) (K.output out.new)) (answer result kept.new) }
    // For `precision`: status 0 is the line on the node; where that shows a start and a bound, the difference of clocks that
    // it shows is within the bound, and so are the clocks after each slot from the start on, in every run by legal
    // message numbers, and all nodes that are on are active and hold one membership.
    ensures precision { (list script : List ℕ) (node : ℕ) → form_of (texts_of words.now) ≡ Some (precision list script node)
        → PrecisionPromise list script node (outside (L.files library.old) (K.output out.old))
        (outside (L.files library.new) (K.output out.new)) (answer result kept.new) }
    // A cluster is kept exactly after status 0 of `run` and of `sample`, whatever was kept before.
    ensures kept { is_some kept.new ≡ (runs_cluster (form_of (texts_of words.now)) && (result == 0)) }
{
    obey(rt, alloc, words, library, out, gate, kept)
}
