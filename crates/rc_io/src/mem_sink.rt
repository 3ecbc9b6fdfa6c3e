//! A sink in memory, whose calls fail as listed.

ghost use Rattle.std.specs.Prelude.{◌≡◌, ◌⊎◌, ◌↔◌, ◌<◌, ◌≤◌, ◌++◌, [], length, take, IfOk, OnErr, IsErr, Some, Contains};
ghost use Rattle.rc_io.specs.Causes.{HasCause, next_count};
ghost use Rattle.rc_io.specs.Memory.{taken_len, after_write, after_refusal};

use crate::{Failed, Sink};
use rc_fixed::{List, NoMemory};
use std::alloc::Global;
use std::marker::Model;

/// A sink in memory, which has a fixed room, tells all that it holds and fails where it is told to.
#[derive(Drop)]
pub struct MemSink {
    bytes: Vec<u8>,
    most: usize,
    room: usize,
    failing: List<u64>,
    calls: u64,
    faults: u64,
}

impl Model for MemSink {
    ghost use Rattle.std.specs.Prelude.{◌≤◌, length};
    ghost use Rattle.std.specs.Vec.{vec_capacity};
    ghost use Rattle.rc_io.specs.Memory.{SinkInMemory};

    ghost Value = { SinkInMemory };

    ghost view = { λ sink. record {
      bytes = sink.bytes.items;
      most = sink.most;
      room = sink.room;
      failing = sink.failing;
      calls = sink.calls;
      faults = sink.faults;
    } };

    ghost invariant = { λ sink. (1 ≤ sink.most) × (length sink.bytes.items ≤ sink.room)
        × (sink.room ≤ vec_capacity sink.bytes) };
}

impl MemSink {
    /// An empty sink for `room` bytes, for which it takes the memory at once. A write takes at most `most`
    /// bytes. Writes are numbered from 1, and those listed fail.
    ///
    /// # Errors
    ///
    /// `NoMemory` where there is none for the room.
    pub fn new(
        alloc: Global,
        most: usize,
        room: usize,
        failing: List<u64>,
    ) -> Result<MemSink, NoMemory>
        requires { 1 ≤ most }
        ensures { IfOk result (λ sink. sink ≡ record {
          bytes = [];
          most = most;
          room = room;
          failing = failing;
          calls = 0;
          faults = 0;
        }) }
    {
        Ok(MemSink {
            bytes: Vec::with_capacity(alloc, room)?,
            most,
            room,
            failing,
            calls: 0,
            faults: 0,
        })
    }

    /// All bytes that were appended.
    pub fn bytes(&self) -> &[u8]
        ensures { result.now ≡ self.now.bytes }
    {
        &self.bytes
    }

    /// How often it has failed.
    pub fn faults(&self) -> u64
        ensures { result ≡ self.now.faults }
    {
        self.faults
    }
}

impl Sink for MemSink {
    ghost written = { λ sink. Some sink.bytes };

    ghost faults = { λ sink. sink.faults };

    /// Fails exactly at a listed call and where no room is left. Its count of faults is raised by one then.
    fn write(&mut self, piece: &[u8]) -> Result<usize, Failed>
        requires { 0 < length piece.now }
        ensures some { IfOk result (λ count. 0 < count) }
        ensures count { IfOk result (λ count. count ≤ length piece.now) }
        ensures bytes { IfOk result (λ count.
            self.new.bytes ≡ self.old.bytes ++ take count piece.now) }
        ensures err { OnErr result (self.new.bytes ≡ self.old.bytes) }
        ensures cause { HasCause self.old.faults self.new.faults result }

        ensures fails { IsErr result ↔ (Contains self.old.failing (next_count self.old.calls)
            ⊎ (self.old.room ≤ length self.old.bytes)) }
        ensures exact { IfOk result (λ count. count ≡ taken_len self.old (length piece.now)) }
        ensures appends { IfOk result (λ count. self.new ≡ after_write self.old (take count piece.now)) }
        ensures counts { OnErr result (self.new ≡ after_refusal self.old) }
    {
        self.calls = self.calls.saturating_add(1);
        let left = self.room - self.bytes.len();
        if left == 0 || self.failing.items().contains(&self.calls) {
            self.faults = self.faults.saturating_add(1);
            return Err(Failed);
        }
        let count = piece.len().min(self.most).min(left);
        match self.bytes.extend_from_slice(&piece[..count]) {
            Ok(()) => Ok(count),
            Err(_) => unreachable!(),
        }
    }
}
