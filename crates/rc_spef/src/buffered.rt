//! Bytes on their way to a sink, gathered so that a sink is seldom called.

ghost use Rattle.std.specs.Prelude.{◌≡◌, ◌<◌, ◌≤◌, ◌+◌, [], false, true, ◌++◌, length};
ghost use Rattle.rc_spef.specs.Buffering.{at_sink, Puts};

use rc_io::{Sink, write_all};
use std::marker::Model;

/// Bytes that are held back, and whether the sink has failed. After a fault all further bytes are dropped. Contracts see
/// the bytes and the fault.
#[derive(Drop)]
pub struct Buffered<const N: usize> {
    held: [u8; N],
    len: usize,
    failed: bool,
}

impl<const N: usize> Model for Buffered<N> {
    ghost use Rattle.std.specs.Prelude.{◌≤◌, take};
    ghost use Rattle.rc_spef.specs.Buffering.{Held};

    ghost Value = { Held };

    ghost view = { λ buffer. record { bytes = take buffer.len buffer.held; failed = buffer.failed } };

    ghost invariant = { λ buffer. buffer.len ≤ N };
}

impl<const N: usize> Buffered<N> {
    /// A buffer that holds nothing.
    pub fn new() -> Buffered<N>
        ensures { result ≡ record { bytes = []; failed = false } }
    {
        Buffered {
            held: [0; N],
            len: 0,
            failed: false,
        }
    }

    /// Whether the sink has failed.
    pub fn has_failed(&self) -> bool
        ensures { result ≡ self.now.failed }
    {
        self.failed
    }

    /// Writes what is held.
    pub fn empty<K: Sink>(&mut self, sink: &mut K)
        ensures puts { Puts (at_sink (K.written sink.old) (K.faults sink.old) self.old) (at_sink (K.written sink.new) (K.faults sink.new) self.new) [] }
        ensures empty { self.new.failed ≡ false → self.new.bytes ≡ [] }
    {
        if self.failed {
            return;
        }
        match write_all(sink, &self.held[..self.len]) {
            Ok(()) => self.len = 0,
            Err(_) => self.failed = true,
        }
    }

    /// Puts bytes past those held, which are none.
    fn put_long<K: Sink>(&mut self, sink: &mut K, bytes: &[u8])
        requires { self.old.failed ≡ false → self.old.bytes ≡ [] }
        ensures { Puts (at_sink (K.written sink.old) (K.faults sink.old) self.old) (at_sink (K.written sink.new) (K.faults sink.new) self.new) bytes.now }
    {
        if self.failed {
            return;
        }
        match write_all(sink, bytes) {
            Ok(()) => {}
            Err(_) => self.failed = true,
        }
    }

    /// Whether so many bytes can be held besides.
    fn has_room(&self, len: usize) -> bool
        ensures { result ≡ true → length self.now.bytes + len ≤ N }
    {
        len <= N - self.len
    }

    /// Holds bytes for which there is room.
    fn hold(&mut self, bytes: &[u8])
        requires { length self.old.bytes + length bytes.now ≤ N }
        ensures bytes { self.new.bytes ≡ self.old.bytes ++ bytes.now }
        ensures failed { self.new.failed ≡ self.old.failed }
    {
        let end = self.len + bytes.len();
        let held = &mut self.held[..];
        held[self.len..end].copy_from_slice(bytes);
        self.len = end;
    }

    /// Puts bytes.
    pub fn put<K: Sink>(&mut self, sink: &mut K, bytes: &[u8])
        ensures { Puts (at_sink (K.written sink.old) (K.faults sink.old) self.old) (at_sink (K.written sink.new) (K.faults sink.new) self.new) bytes.now }
    {
        if self.has_room(bytes.len()) {
            self.hold(bytes);
            return;
        }
        self.empty(sink);
        if self.has_room(bytes.len()) {
            self.hold(bytes);
        } else {
            self.put_long(sink, bytes);
        }
    }
}
