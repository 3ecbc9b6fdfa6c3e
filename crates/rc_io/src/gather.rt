//! The sink that a text is gathered in.

ghost use Rattle.std.specs.Prelude.{◌≡◌, ◌<◌, ◌≤◌, ◌++◌, [], length, take, IfOk, OnOk, OnErr, Some};
ghost use Rattle.rc_io.specs.Causes.{HasCause, next_count};

use crate::{Failed, Sink};
use std::alloc::Global;
use std::marker::Model;

/// A sink that gathers bytes in memory and tells all that it holds. It fails for want of memory alone.
#[derive(Drop)]
pub struct Gather {
    bytes: Vec<u8>,
    faults: u64,
}

impl Model for Gather {
    ghost use Rattle.rc_io.specs.Memory.{GatheredBytes};

    ghost Value = { GatheredBytes };

    ghost view = { λ sink. record { bytes = sink.bytes.items; faults = sink.faults } };
}

impl Gather {
    /// An empty sink. It takes no memory before the first write.
    pub fn new(alloc: Global) -> Gather
        ensures { result ≡ record { bytes = []; faults = 0 } }
    {
        Gather {
            bytes: Vec::new(alloc),
            faults: 0,
        }
    }

    /// All bytes that were appended.
    pub fn bytes(&self) -> &[u8]
        ensures { result.now ≡ self.now.bytes }
    {
        &self.bytes
    }

    /// How often it found no memory.
    pub fn faults(&self) -> u64
        ensures { result ≡ self.now.faults }
    {
        self.faults
    }
}

impl Sink for Gather {
    ghost written = { λ sink. Some sink.bytes };

    ghost faults = { λ sink. sink.faults };

    /// Takes the whole piece, or finds no memory: then it appends nothing, and its count of faults is raised by
    /// one.
    fn write(&mut self, piece: &[u8]) -> Result<usize, Failed>
        requires { 0 < length piece.now }
        ensures some { IfOk result (λ count. 0 < count) }
        ensures count { IfOk result (λ count. count ≤ length piece.now) }
        ensures bytes { IfOk result (λ count.
            self.new.bytes ≡ self.old.bytes ++ take count piece.now) }
        ensures err { OnErr result (self.new.bytes ≡ self.old.bytes) }
        ensures cause { HasCause self.old.faults self.new.faults result }

        ensures whole { IfOk result (λ count. count ≡ length piece.now) }
        ensures appends { OnOk result
            (self.new ≡ record self.old { bytes = self.old.bytes ++ piece.now }) }
        ensures counts { OnErr result
            (self.new ≡ record self.old { faults = next_count self.old.faults }) }
    {
        match self.bytes.extend_from_slice(piece) {
            Ok(()) => Ok(piece.len()),
            Err(_) => {
                self.faults = self.faults.saturating_add(1);
                Err(Failed)
            }
        }
    }
}
