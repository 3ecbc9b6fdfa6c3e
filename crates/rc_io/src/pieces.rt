//! The sink that a long text is gathered in.

ghost use Rattle.std.specs.Prelude.{◌≡◌, ◌<◌, ◌≤◌, ◌+◌, ◌-◌, ◌^◌, ◌++◌, [], length, min, take, IfOk, IfSome, IsOk, OnOk, OnErr, Some};
ghost use Rattle.std.specs.List.{flat_map};
ghost use Rattle.rc_io.specs.Bytes.{grown, GrewByPrefix, GrewByLess};
ghost use Rattle.rc_io.specs.Causes.{HasCause, next_count};

use crate::{Failed, Sink, WriteFault, write_all};
use rc_fixed::NoMemory;
use std::alloc::Global;
use std::marker::Model;

/// How many bytes a piece has room for; more where a single write brings more.
const PIECE: usize = 1 << 20;

/// A sink that gathers bytes in memory and tells all that it holds, as [`crate::Gather`] does. It keeps them in pieces of a
/// fixed room, so that no byte is moved once it is there. It fails for want of memory alone.
#[derive(Drop)]
pub struct Pieces {
    alloc: Global,
    pieces: Vec<Vec<u8>>,
    len: u64,
    faults: u64,
}

impl Model for Pieces {
    ghost use Rattle.std.specs.Prelude.{◌≡◌, ◌-◌, ◌^◌, length, min};
    ghost use Rattle.std.specs.List.{flat_map};
    ghost use Rattle.rc_io.specs.Memory.{GatheredBytes};

    ghost Value = { GatheredBytes };

    ghost view = { λ sink. record { bytes = flat_map (λ piece. piece.items) sink.pieces.items; faults = sink.faults } };

    ghost invariant = { λ sink. sink.len ≡ min (length (flat_map (λ piece. piece.items) sink.pieces.items)) (2 ^ 64 - 1) };
}

/// The place of the last piece, where it has room for so many bytes more.
fn place_for(pieces: &[Vec<u8>], len: usize) -> Option<usize>
    ensures { IfSome result (λ at. at + 1 ≡ length pieces.now) }
{
    let last = pieces.last()?;
    if last.capacity().saturating_sub(last.len()) < len {
        return None;
    }
    Some(pieces.len() - 1)
}

/// A piece that begins with these bytes.
fn piece_of(alloc: Global, bytes: &[u8]) -> Result<Vec<u8>, NoMemory>
    ensures { IfOk result (λ piece. piece.items ≡ bytes.now) }
{
    let mut piece = Vec::with_capacity(alloc, bytes.len().max(PIECE))?;
    piece.extend_from_slice(bytes)?;
    Ok(piece)
}

/// Appends bytes to the last piece, or to a new one where they have no room there.
fn append(alloc: Global, pieces: &mut Vec<Vec<u8>>, bytes: &[u8]) -> Result<(), NoMemory>
    ensures ok { OnOk result (flat_map (λ piece. piece.items) pieces.new.items ≡ flat_map (λ piece. piece.items) pieces.old.items ++ bytes.now) }
    ensures err { OnErr result (flat_map (λ piece. piece.items) pieces.new.items ≡ flat_map (λ piece. piece.items) pieces.old.items) }
{
    match place_for(pieces, bytes.len()) {
        Some(at) => pieces[at].extend_from_slice(bytes)?,
        None => pieces.push(piece_of(alloc, bytes)?)?,
    }
    Ok(())
}

impl Pieces {
    /// An empty sink. It takes no memory before the first write.
    pub fn new(alloc: Global) -> Pieces
        ensures { result ≡ record { bytes = []; faults = 0 } }
    {
        Pieces {
            alloc,
            pieces: Vec::new(alloc),
            len: 0,
            faults: 0,
        }
    }

    /// How many bytes were appended, up to the last number of 64 bits.
    pub fn len(&self) -> u64
        ensures { result ≡ min (length self.now.bytes) (2 ^ 64 - 1) }
    {
        self.len
    }

    /// How often it found no memory.
    pub fn faults(&self) -> u64
        ensures { result ≡ self.now.faults }
    {
        self.faults
    }

    /// Appends all bytes to another sink, piece by piece. Where there are none, it makes no call.
    ///
    /// # Errors
    ///
    /// `WriteFault` as for [`write_all`]: where a write fails, and only where the sink's count of faults rose. Some first bytes,
    /// but not all, were appended by then, and nothing else.
    pub fn write_to<K: Sink>(&self, sink: &mut K) -> Result<(), WriteFault>
        ensures all { OnOk result (K.written sink.new ≡ grown (K.written sink.old) self.now.bytes) }
        ensures prefix { GrewByPrefix (K.written sink.old) (K.written sink.new) self.now.bytes }
        ensures cut { OnErr result (GrewByLess (K.written sink.old) (K.written sink.new) self.now.bytes) }
        ensures none { self.now.bytes ≡ [] → sink.new ≡ sink.old }
        ensures nothing { self.now.bytes ≡ [] → IsOk result }
        ensures cause { HasCause (K.faults sink.old) (K.faults sink.new) result }
    {
        for piece in &self.pieces {
            write_all(sink, piece)?;
        }
        Ok(())
    }
}

impl Sink for Pieces {
    ghost written = { λ sink. Some sink.bytes };

    ghost faults = { λ sink. sink.faults };

    /// Takes all the bytes, or finds no memory: then it appends nothing, and its count of faults is raised by one.
    fn write(&mut self, piece: &[u8]) -> Result<usize, Failed>
        requires { 0 < length piece.now }
        ensures some { IfOk result (λ count. 0 < count) }
        ensures count { IfOk result (λ count. count ≤ length piece.now) }
        ensures bytes { IfOk result (λ count.
            self.new.bytes ≡ self.old.bytes ++ take count piece.now) }
        ensures err { OnErr result (self.new.bytes ≡ self.old.bytes) }
        ensures cause { HasCause self.old.faults self.new.faults result }

        ensures whole { IfOk result (λ count. count ≡ length piece.now) }
        ensures appends { OnOk result
            (self.new ≡ record self.old { bytes = self.old.bytes ++ piece.now }) }
        ensures counts { OnErr result
            (self.new ≡ record self.old { faults = next_count self.old.faults }) }
    {
        match append(self.alloc, &mut self.pieces, piece) {
            Ok(()) => {
                self.len = self.len.saturating_add(piece.len() as u64);
                Ok(piece.len())
            }
            Err(_) => {
                self.faults = self.faults.saturating_add(1);
                Err(Failed)
            }
        }
    }
}
