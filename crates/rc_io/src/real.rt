//! The files and the streams of the operating system.

ghost use Rattle.std.specs.Prelude.{◌≡◌, ◌↔◌, ◌<◌, ◌≤◌, [], List, ℕ, false, None, length, IfOk, OnOk, OnErr, IsTrue};
ghost use Rattle.std.specs.Io.KnownBytes.{ReadConsumes, WriteAppends};
ghost use Rattle.rc_io.specs.Causes.{HasCause, Rose, next_count};

use crate::{Failed, Files, Sink};
use std::io::{Read, Write};
use std::marker::Model;
use std::{fs, rt};

/// The files of a runtime, by their paths. They don't tell what they hold.
///
/// One count of faults serves all names, and the file that is open has every name, for nothing is known of which
/// paths lead to one file.
#[derive(Drop)]
pub struct RealFiles<'a, R: rt::Files> {
    host: &'a R,
    file: Option<R::File>,
    faults: u64,
}

impl<'a, R: rt::Files> Model for RealFiles<'a, R> {
    ghost use Rattle.std.specs.Prelude.{is_some, option_and_then};
    ghost use Rattle.rc_io.specs.Streams.{OpenFile};

    ghost Value = { OpenFile };

    ghost view = { λ files. record {
      is_open = is_some files.file;
      left = option_and_then R.File.remaining files.file;
      faults = files.faults;
    } };
}

impl<'a, R: rt::Files> RealFiles<'a, R> {
    /// The files of this runtime, of which none is open yet and none has failed.
    pub fn new(host: &'a R) -> RealFiles<'a, R>
        ensures { result ≡ record { is_open = false; left = None; faults = 0 } }
    {
        RealFiles {
            host,
            file: None,
            faults: 0,
        }
    }

    /// How often they have failed.
    pub fn faults(&self) -> u64
        ensures { result ≡ self.now.faults }
    {
        self.faults
    }
}

impl<'a, R: rt::Files> Files for RealFiles<'a, R> {
    ghost tells = { λ files. false };

    ghost text = { λ files name. None };

    ghost rest = { λ files. [] };

    ghost begun = { λ files name. IsTrue files.is_open };

    ghost faults = { λ files name. files.faults };

    /// Opens the file of that path, and closes the one that was open. Where it can't, the count is raised by
    /// one, and the file that was open stays so.
    fn begin(&mut self, name: &str) -> Result<(), Failed>
        ensures begun { OnOk result (IsTrue self.new.is_open) }
        ensures later { self.old.faults ≤ self.new.faults }
        ensures cause { OnErr result (Rose self.old.faults self.new.faults) }

        ensures begins { OnOk result (self.new.faults ≡ self.old.faults) }
        ensures counts { OnErr result
            (self.new ≡ record self.old { faults = next_count self.old.faults }) }
    {
        match fs::open(self.host, name) {
            Ok(file) => {
                self.file = Some(file);
                Ok(())
            }
            Err(_) => {
                self.faults = self.faults.saturating_add(1);
                Err(Failed)
            }
        }
    }

    /// Reads from the file that is open. At every error the count is raised by one. A folder fails here at the
    /// latest.
    fn read(&mut self, buffer: &mut [u8]) -> Result<usize, Failed>
        requires room { 0 < length buffer.old }
        requires begun { (n : List ℕ) × IsTrue self.old.is_open }
        ensures begun { (n : List ℕ) → IsTrue self.new.is_open ↔ IsTrue self.old.is_open }
        ensures count { IfOk result (λ count. count ≤ length buffer.new) }
        ensures later { self.old.faults ≤ self.new.faults }
        ensures cause { OnErr result (Rose self.old.faults self.new.faults) }

        ensures file { ReadConsumes self.old.left self.new.left result buffer.new }
        ensures reads { OnOk result (self.new.faults ≡ self.old.faults) }
        ensures counts { OnErr result (self.new.faults ≡ next_count self.old.faults) }
    {
        let Some(file) = &mut self.file else {
            unreachable!();
        };
        match file.read(buffer) {
            Ok(count) => Ok(count),
            Err(_) => {
                self.faults = self.faults.saturating_add(1);
                Err(Failed)
            }
        }
    }
}

/// A file or a standard stream as a sink. It doesn't tell what it holds.
#[derive(Drop)]
pub struct RealSink<W: Write> {
    stream: W,
    faults: u64,
}

impl<W: Write> Model for RealSink<W> {
    ghost use Rattle.rc_io.specs.Streams.{OpenStream};

    ghost Value = { OpenStream };

    ghost view = { λ sink. record { held = W.contents sink.stream; faults = sink.faults } };
}

impl<W: Write> RealSink<W> {
    /// The sink that writes to this stream. It has not failed yet.
    pub fn new(stream: W) -> RealSink<W>
        ensures { result ≡ record { held = W.contents stream; faults = 0 } }
    {
        RealSink { stream, faults: 0 }
    }

    /// How often it has failed.
    pub fn faults(&self) -> u64
        ensures { result ≡ self.now.faults }
    {
        self.faults
    }
}

impl<W: Write> Sink for RealSink<W> {
    ghost written = { λ sink. None };

    ghost faults = { λ sink. sink.faults };

    /// Writes to the stream. At every error, and where the stream takes nothing, the count is raised by one.
    fn write(&mut self, piece: &[u8]) -> Result<usize, Failed>
        requires { 0 < length piece.now }
        ensures some { IfOk result (λ count. 0 < count) }
        ensures count { IfOk result (λ count. count ≤ length piece.now) }
        ensures cause { HasCause self.old.faults self.new.faults result }

        ensures stream { WriteAppends self.old.held self.new.held result piece.now }
        ensures writes { OnOk result (self.new.faults ≡ self.old.faults) }
        ensures counts { OnErr result (self.new.faults ≡ next_count self.old.faults) }
    {
        match self.stream.write(piece) {
            Ok(count) if 0 < count => Ok(count),
            _ => {
                self.faults = self.faults.saturating_add(1);
                Err(Failed)
            }
        }
    }
}
