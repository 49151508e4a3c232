//! What the runs so far come to.
ghost use Rattle.std.specs.Prelude.{◌≡◌, ◌+◌, ◌<◌, ◌^◌, [], ◌∷◌, ◌++◌, ℕ, List as Items, length};
ghost use Rattle.std.specs.Prelude.{if◌then◌else◌, nat_lt, nat_le, codes, OnOk};
ghost use Rattle.std.specs.List.{list_any};
ghost use Rattle.ttp_world.specs.declared.medl.Medl.{Medl};
ghost use Rattle.ttp_world.specs.declared.script.Event.{Event};
ghost use Rattle.ttp_world.specs.declared.script.Script.{Script};
ghost use Rattle.ttp_world.specs.declared.script.TheConstants.{EVENT_LIMIT};
ghost use Rattle.ttp_world.specs.Medl.{IsValid};
ghost use Rattle.ttp_world.specs.Script.{IsValidScript};
ghost use Rattle.campaign.specs.declared.cost.Cost.{Cost};
ghost use Rattle.campaign.specs.CostText.{cost_words};
ghost use Rattle.campaign.specs.Lines.{Summary, summary, head_line, own_line, counts_line};
ghost use Rattle.campaign.specs.Lines.{counts_of, is_same_cost, has_hurt, is_torn};
ghost use Rattle.fault_runs.specs.Runs.{AreAtMost, HasAtMost, AreCountsOf, IsTallyOf};
ghost use Rattle.fault_runs.specs.Tries.{tried_of};

use crate::campaign_text::{put_counts, put_head, put_own};
use crate::tried::{CampaignSetting, Tried};
use campaign::{Cost, Counts};
use std::alloc::Global;
use ttp_base::{GrowingText, Memory, NodeSet};
use ttp_world::{EVENT_LIMIT, Medl, Script};

/// What the runs so far come to, and where the lines of no fault are formed.
#[derive(Drop)]
pub(crate) struct Tally {
    kept: Counts,
    broken: Counts,
    /// The newest of these lines.
    pub(crate) line: GrowingText,
}

/// Whether a campaign may be run with a script: it has room for one event more.
pub fn has_room(script: &Script) -> bool
    ensures { result ≡ nat_lt (length script.now.events) EVENT_LIMIT }
{
    script.events.as_slice().len() < EVENT_LIMIT
}

// No runs.
fn no_counts() -> Counts
    ensures few { AreAtMost 0 result }
    ensures counts { (list : Medl) (own : Cost) → result ≡ counts_of list own [] }
{
    Counts {
        runs: 0,
        same: 0,
        hurt: 0,
        split: 0,
        torn: 0,
        dead: 0,
    }
}

// A count, with one more where it is one of those that are counted.
fn more(count: u64, is: bool) -> u64
    requires { count < 2 ^ 63 }
    ensures { result ≡ count + (if is then 1 else 0) }
{
    if is { count + 1 } else { count }
}

/// Whether a membership of two nodes or more is among some.
pub fn has_pair(sets: &[NodeSet]) -> bool
    ensures { result ≡ list_any (λ members. nat_le 2 (length members)) sets.now }
{
    for members in sets {
        if members.count() >= 2 {
            return true;
        }
    }
    false
}

// Whether a node was hurt.
fn has_hurt(cost: &Cost) -> bool
    ensures { result ≡ has_hurt cost.now }
{
    cost.hurt.count() != 0
}

/// Whether two memberships or more are left.
pub fn is_torn(cost: &Cost) -> bool
    ensures { result ≡ is_torn cost.now }
{
    cost.end.len() >= 2
}

// One run more, and whether it costs what the script's own run does.
fn with_run(counts: &Counts, cost: &Cost, is_same: bool) -> Counts
    requires { AreAtMost (2 ^ 62) counts.now }
    ensures few { (most : ℕ) → AreAtMost most counts.now → AreAtMost (most + 1) result }
    ensures counts { (list : Medl) (own : Cost) (costs : Items Cost)
        → counts.now ≡ counts_of list own costs → is_same ≡ is_same_cost list own cost.now
        → result ≡ counts_of list own (costs ++ cost.now ∷ []) }
{
    Counts {
        runs: counts.runs + 1,
        same: more(counts.same, is_same),
        hurt: more(counts.hurt, has_hurt(cost)),
        split: more(counts.split, cost.split.is_some()),
        torn: more(counts.torn, is_torn(cost)),
        dead: more(counts.dead, !has_pair(cost.end.as_slice())),
    }
}

impl Tally {
    /// Before the first run.
    pub(crate) fn new(alloc: Global) -> Tally
        ensures few { HasAtMost 0 result }
        ensures counts { (list : Medl) (own : Cost)
            → AreCountsOf list own [] result }
    {
        Tally {
            kept: no_counts(),
            broken: no_counts(),
            line: GrowingText::new(alloc),
        }
    }

    // Counts one run more.
    fn add(&mut self, yes: bool, cost: &Cost, is_same: bool)
        requires few { HasAtMost (2 ^ 62) self.old }
        ensures few { (most : ℕ) → HasAtMost most self.old → HasAtMost (most + 1) self.new }
        ensures counts { (list : Medl) (own : Cost) (runs : Items Summary) (s : Summary)
            → s.yes ≡ yes → s.cost ≡ cost.now → is_same ≡ is_same_cost list own cost.now
            → AreCountsOf list own runs self.old → AreCountsOf list own (runs ++ s ∷ []) self.new }
    {
        if yes {
            self.kept = with_run(&self.kept, cost, is_same);
        } else {
            self.broken = with_run(&self.broken, cost, is_same);
        }
    }

    /// Counts the run of one fault more.
    pub(crate) fn count(&mut self, tried: &Tried)
        requires few { HasAtMost (2 ^ 62) self.old }
        ensures few { (most : ℕ) → HasAtMost most self.old → HasAtMost (most + 1) self.new }
        ensures told { (list : Medl) (script : Script) (faults : Items Event) (fault : Event)
            → tried.now ≡ tried_of list script fault → IsTallyOf list script faults self.old
            → IsTallyOf list script (faults ++ fault ∷ []) self.new }
    {
        self.add(tried.yes, &tried.cost, tried.is_same);
    }

    /// The first line.
    pub(crate) fn form_head(&mut self, common: &CampaignSetting) -> Result<(), Memory>
        requires { IsValid common.now.list.now }
        ensures line { OnOk result (self.new.line
            ≡ head_line common.now.list.now common.now.script.now common.now.first common.now.last) }
        ensures kept { self.new.kept ≡ self.old.kept }
        ensures broken { self.new.broken ≡ self.old.broken }
    {
        self.line.clear();
        let (list, script) = (common.list, common.script);
        put_head(&mut self.line, list, script, common.first, common.last)
    }

    /// The line of the script's own run.
    pub(crate) fn form_own(
        &mut self,
        list: &Medl,
        script: &Script,
        words: &[u8],
    ) -> Result<(), Memory>
        requires valid { IsValid list.now }
        requires script { IsValidScript list.now script.now }
        requires words { words.now ≡ cost_words list.now (summary list.now script.now).cost }
        ensures line { OnOk result (self.new.line ≡ own_line list.now (summary list.now script.now)) }
        ensures kept { self.new.kept ≡ self.old.kept }
        ensures broken { self.new.broken ≡ self.old.broken }
    {
        self.line.clear();
        put_own(&mut self.line, list, script, words)
    }

    /// The counts of the runs whose test says yes.
    pub(crate) fn form_kept(&mut self) -> Result<(), Memory>
        ensures line { OnOk result (self.new.line ≡ counts_line (codes "kept ") self.old.kept) }
        ensures broken { self.new.broken ≡ self.old.broken }
    {
        self.line.clear();
        put_counts(&mut self.line, "kept ", &self.kept)
    }

    /// Those of the others.
    pub(crate) fn form_broken(&mut self) -> Result<(), Memory>
        ensures { OnOk result (self.new.line ≡ counts_line (codes "broken ") self.old.broken) }
    {
        self.line.clear();
        put_counts(&mut self.line, "broken ", &self.broken)
    }
}
