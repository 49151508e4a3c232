//! How a controller takes its host's newest message.
ghost use Rattle.std.specs.Prelude.{◌≡◌, ◌+◌, ◌/◌, ◌≤◌, length, slice_get, IsSome, IsSomeAnd, IfOk, IsOk, OnOk};
ghost use Rattle.nbw_ring.specs.Attempts.{number_answered, attempt_steps, OnGot, OnOverrun};
ghost use Rattle.nbw_ring.specs.States.{new_reader};
ghost use Rattle.host_port.specs.Rings.{IsHostEndOf};
ghost use Rattle.host_port.specs.Fetching.{IsFetcherOf, IsWhole, HasSeen, joined};

use crate::ends::HostEnd;
use crate::port::Port;
use nbw_ring::{Pair, Reader, Try};
use std::marker::Model;
use ttp_base::{Gate, Memory};

/// A right to read the outgoing ring, with room for one message. It may go to another thread.
///
/// Contracts see it as the ring's reader.
#[derive(Drop)]
pub struct Fetcher {
    reader: Reader,
}

impl Model for Fetcher {
    ghost use Rattle.std.specs.Prelude.{◌≡◌, ◌+◌, length};
    ghost use Rattle.nbw_ring.specs.States.{ReaderState};

    ghost Value = { ReaderState };

    ghost view = { λ f. f.reader };

    ghost invariant = { λ f. length f.reader.got + f.reader.spare ≡ 1 };
}

impl HostEnd {
    /// A fetcher that gets no message older than the newest. It takes memory for one message; where
    /// that is refused, the end is as it was.
    pub fn lend_fetch(&mut self) -> Result<Fetcher, Memory>
        requires ring { IsSome self.old }
        ensures fetcher { IfOk result (λ f. IsSomeAnd self.old (λ w. f ≡ new_reader w 1)) }
        ensures end { self.new ≡ self.old }
    {
        let Some(writer) = &mut self.writer else {
            unreachable!()
        };
        let reader = writer.lend(1)?;
        Ok(Fetcher { reader })
    }

    /// Takes a fetcher of the ring back, and hands out the pair that it got, if it got one.
    pub fn settle_fetch(&mut self, f: Fetcher) -> Option<Pair>
        requires own { IsSomeAnd self.old (λ w. f.ring ≡ w.ring) }
        ensures pair { result ≡ slice_get f.got 0 }
        ensures whole { IsSomeAnd self.old (λ w. IsWhole w f) }
        ensures seen { IsSomeAnd self.old (λ w. HasSeen w f) }
        ensures joined { self.new ≡ joined self.old f }
    {
        let Fetcher { reader } = f;
        let Some(writer) = &mut self.writer else {
            unreachable!()
        };
        writer.settle_one(reader)
    }
}

impl Fetcher {
    /// One attempt to read the newest message. A fetcher that got one has no room for another.
    pub fn fetch<G: Gate>(&mut self, gate: &G) -> Try
        requires room { 1 ≤ self.old.spare }
        ensures ring { self.new.ring ≡ self.old.ring }
        ensures tries { self.new.tries ≡ self.old.tries + 1 }
        ensures steps { self.new.steps ≡ self.old.steps + attempt_steps self.new }
        ensures later { self.old.seen ≤ self.new.first }
        ensures forward { self.new.first ≤ self.new.seen }
        ensures number { number_answered result ≡ self.new.first / 2 }
        ensures floor { self.old.floor ≤ number_answered result }
        ensures got { OnGot self.old self.new result }
        ensures overrun { OnOverrun self.old self.new result }
    {
        self.reader.try_read(gate)
    }
}

impl Port {
    /// A fetcher that gets no message older than the host's newest. It takes memory for one message;
    /// where that is refused, the end is as it was.
    pub fn lend_fetch(&self, end: &mut HostEnd) -> Result<Fetcher, Memory>
        requires own { IsHostEndOf self.now end.old }
        requires ring { IsSome end.old }
        ensures own { IfOk result (λ f. IsFetcherOf self.now f) }
        ensures fetcher { IfOk result (λ f. IsSomeAnd end.old (λ w. f ≡ new_reader w 1)) }
        ensures end { end.new ≡ end.old }
    {
        end.lend_fetch()
    }

    /// One attempt to read the newest message. A fetcher that got one has no room for another.
    pub fn fetch<G: Gate>(&self, f: &mut Fetcher, gate: &G) -> Try
        requires own { IsFetcherOf self.now f.old }
        requires room { 1 ≤ f.old.spare }
        ensures own { IsFetcherOf self.now f.new }
        ensures ring { f.new.ring ≡ f.old.ring }
        ensures tries { f.new.tries ≡ f.old.tries + 1 }
        ensures steps { f.new.steps ≡ f.old.steps + attempt_steps f.new }
        ensures later { f.old.seen ≤ f.new.first }
        ensures forward { f.new.first ≤ f.new.seen }
        ensures number { number_answered result ≡ f.new.first / 2 }
        ensures floor { f.old.floor ≤ number_answered result }
        ensures got { OnGot f.old f.new result }
        ensures overrun { OnOverrun f.old f.new result }
    {
        f.fetch(gate)
    }

    /// Takes a fetcher back, and hands out the pair that it got, if it got one. It never wants memory.
    pub fn settle_fetch(&self, end: &mut HostEnd, f: Fetcher) -> Result<Option<Pair>, Memory>
        requires end { IsHostEndOf self.now end.old }
        requires fetcher { IsFetcherOf self.now f }
        ensures own { IsHostEndOf self.now end.new }
        ensures never { IsOk result }
        ensures pair { IfOk result (λ pair. pair ≡ slice_get f.got 0) }
        ensures whole { OnOk result (IsSomeAnd end.old (λ w. IsWhole w f)) }
        ensures seen { OnOk result (IsSomeAnd end.old (λ w. HasSeen w f)) }
        ensures joined { OnOk result (end.new ≡ joined end.old f) }
    {
        Ok(end.settle_fetch(f))
    }
}
