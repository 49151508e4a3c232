//! A run that follows a text: the lines that are due, looked for one after another.
ghost use Rattle.std.specs.Prelude.{◌<◌, [], IfOk, IfErr};
ghost use Rattle.ttp_world.specs.declared.script.Script.{Script as Said};
ghost use Rattle.ttp_world.specs.Legal.{IsLegal};
ghost use Rattle.ttp_world.specs.Medl.{IsValid};
ghost use Rattle.ttp_world.specs.Script.{IsValidScript};
ghost use Rattle.ttp_world.specs.World.{Numbers};
ghost use Rattle.trace_check.specs.Following.{FollowerStandsFor, StandsAt, GoesOnTo, DepartsAfter};
ghost use Rattle.trace_check.specs.Following.{IsTraceAnd, IsAmissAt};

use crate::hosts::{follow_reads, follow_writes, settle};
use crate::incoming::Incoming;
use crate::last_lines::follow_tests;
use crate::nodes::follow_nodes;
use crate::outgoing::Outgoing;
use crate::text::{Wrong, expect};
use controller::Plant;
use line_text::{NodeLines, behind_header};
use std::alloc::Global;
use ttp_base::{Line, Memory};
use ttp_world::{Medl, Script};

/// A run between two slots, whose lines so far are those of a text.
#[derive(Drop)]
pub(crate) struct Follower {
    plant: Plant,
    outgoing: Outgoing,
    incoming: Incoming,
    // Where lines are formed.
    lines: NodeLines,
    line: Line,
}

impl Follower {
    /// The run of a list before its first slot. Only this call takes memory.
    pub(crate) fn new(alloc: Global, list: &Medl) -> Result<Follower, Memory>
        requires { IsValid list.now }
        ensures { (script : Said) → IfOk result (λ f. FollowerStandsFor f list.now script []) }
    {
        let outgoing = Outgoing::new(alloc, list)?;
        let incoming = Incoming::new(alloc, list)?;
        let plant = Plant::new(alloc, list)?;
        Ok(Follower {
            plant,
            outgoing,
            incoming,
            lines: NodeLines::new(),
            line: Line::new(),
        })
    }

    // One slot, and its lines.
    fn follow_slot<'a>(
        &mut self,
        list: &Medl,
        script: &Script,
        slot: u32,
        text: &'a [u8],
    ) -> Result<&'a [u8], Wrong<'a>>
        requires list { IsValid list.now }
        requires script { IsValidScript list.now script.now }
        requires slot { slot < script.now.slots }
        requires stands { StandsAt self.old list.now script.now slot }
        ensures ok { (numbers : Numbers) → IsLegal list.now script.now numbers
            → FollowerStandsFor self.old list.now script.now numbers
            → IfOk result (λ rest. GoesOnTo self.new list.now script.now numbers text.now rest.now) }
        ensures wrong { (numbers : Numbers) → IsLegal list.now script.now numbers
            → FollowerStandsFor self.old list.now script.now numbers
            → IfErr result (λ wrong. DepartsAfter list.now script.now numbers text.now wrong.text.now) }
    {
        self.outgoing.choose(list, script, slot, text);
        self.plant.slot(list, script, self.outgoing.chosen());
        let rest = follow_nodes(
            &self.plant,
            &self.incoming,
            &mut self.lines,
            list,
            slot,
            text,
        )?;
        let rest = follow_writes(&mut self.outgoing, &mut self.line, list, script, slot, rest)?;
        let rest = follow_reads(
            &self.plant,
            &mut self.incoming,
            &mut self.line,
            list,
            script,
            slot,
            rest,
        )?;
        settle(&self.plant, &mut self.incoming, list, slot);
        Ok(rest)
    }

    /// What is left of a text behind the trace of a run, or the text from the first line on that no run
    /// has behind those before it.
    pub(crate) fn follow<'a>(
        &mut self,
        list: &Medl,
        script: &Script,
        text: &'a [u8],
    ) -> Result<&'a [u8], Wrong<'a>>
        requires list { IsValid list.now }
        requires script { IsValidScript list.now script.now }
        requires stands { FollowerStandsFor self.old list.now script.now [] }
        ensures ok { IfOk result (λ rest. IsTraceAnd list.now script.now text.now rest.now) }
        ensures wrong { IfErr result (λ wrong. IsAmissAt list.now script.now text.now wrong.text.now) }
    {
        let mut rest = expect(behind_header(list, script, text), text)?;
        for slot in 0..script.slots {
            rest = self.follow_slot(list, script, slot, rest)?;
        }
        follow_tests(list, script, rest)
    }
}
