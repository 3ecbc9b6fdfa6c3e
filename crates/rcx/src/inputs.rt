//! The files that the words name.

ghost use Rattle.std.specs.Prelude.{[], false, None, IsTrue};

use rc_io::{Failed, Files, RealFiles};
use std::rt;

/// Where the system has the standard input among its files.
const STANDARD_INPUT: &str = "/dev/stdin";

/// The files of the system by their paths, and the standard input by a dash. They don't tell what they hold.
#[derive(Drop)]
pub struct Inputs<'a, R: rt::Files> {
    files: RealFiles<'a, R>,
}

impl<'a, R: rt::Files> Inputs<'a, R> {
    /// The files of this runtime, of which none is open yet and none has failed.
    pub fn new(host: &'a R) -> Inputs<'a, R> {
        Inputs {
            files: RealFiles::new(host),
        }
    }
}

impl<'a, R: rt::Files> Files for Inputs<'a, R> {
    ghost tells = { λ inputs. false };

    ghost text = { λ inputs name. None };

    ghost rest = { λ inputs. [] };

    ghost begun = { λ inputs name. IsTrue inputs.files.is_open };

    ghost faults = { λ inputs name. inputs.files.faults };

    fn begin(&mut self, name: &str) -> Result<(), Failed> {
        self.files
            .begin(if name == "-" { STANDARD_INPUT } else { name })
    }

    fn read(&mut self, buffer: &mut [u8]) -> Result<usize, Failed> {
        self.files.read(buffer)
    }
}
