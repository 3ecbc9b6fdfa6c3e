//! Why the work of a run stops.

ghost use Rattle.std.specs.Prelude.{◌≡◌, ◌⊎◌};
ghost use Rattle.std.specs.Option.{option_copied};
ghost use Rattle.rc_cli.specs.Lines.{names_in, read_fault_line as read_fault_line_of};
ghost use Rattle.rc_cli.specs.Work.{TellsFault};
ghost use Rattle.rc_cli.specs.declared.stop.Stop.TheVariants as stop;

use crate::line::{read_fault_line, refusal_line};
use rc_fixed::{NoMemory, Text};
use rc_keys::{Fault as Failure, Refusal};
use rc_layout::Layout;
use std::alloc::Global;

/// Why the work gives no reply.
#[derive(Debug, Drop)]
pub enum Stop {
    /// The first refusal, by its line.
    Refused(Text),
    /// A file of the words failed, by the line that says so.
    Fault(Text),
    /// Memory ran out.
    NoMemory,
}

impl From<NoMemory> for Stop {
    ghost from_gives = { λ _ answer. answer ≡ stop.NoMemory };

    fn from(_: NoMemory) -> Self {
        Stop::NoMemory
    }
}

/// The file of that name failed.
pub fn failed(alloc: Global, name: &str) -> Stop
    ensures { (result ≡ stop.Fault (read_fault_line_of name.now)) ⊎ (result ≡ stop.NoMemory) }
{
    match read_fault_line(alloc, name) {
        Ok(line) => Stop::Fault(line),
        Err(NoMemory) => Stop::NoMemory,
    }
}

/// A fault of a file, or of the layout that its files link to.
pub fn refused(alloc: Global, layout: Option<&Layout>, file: &str, fault: &Failure) -> Stop
    ensures { TellsFault (names_in (option_copied layout.entry)) file.now fault.now result }
{
    match fault {
        Failure::Refused(refusal) => match refusal_line(alloc, layout, file, refusal) {
            Ok(line) => Stop::Refused(line),
            Err(NoMemory) => Stop::NoMemory,
        },
        Failure::NoMemory => Stop::NoMemory,
    }
}
