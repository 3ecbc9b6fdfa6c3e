//! A session that is open: its commands are carried out, and their replies told.

ghost use Rattle.std.specs.Prelude.{◌≡◌, ◌⊎◌, ◌≤◌, ◌<◌, ◌+◌, ◌*◌, ◌^◌, All, length};
ghost use Rattle.rc_io.specs.Bytes.{grown, GrewByPrefix};
ghost use Rattle.rc_io.specs.Causes.{Rose};
ghost use Rattle.rc_script.specs.Forms.{IsCommand};
ghost use Rattle.rc_session.specs.Sessions.{written};
ghost use Rattle.rc_session.specs.Cuts.{HasFirstReplies};
ghost use Rattle.rc_cli.specs.Lines.{no_memory_line};
ghost use Rattle.rc_cli.specs.Outcome.{ended};
ghost use Rattle.rc_cli.specs.Work.{opened_as};

use crate::line::tell_no_memory;
use crate::opening::Opened;
use rc_io::Sink;
use rc_session::{Cut, perform};
use rc_sweep::Meter;
use rc_windows::Gate;
use std::alloc::Global;
use std::thread::Threads;

/// Lets a value go.
fn discard<T: Drop>(_value: T) {}

/// Carries out the commands of a session, writes each reply whole, and answers the status: 0 where all was done, 4 where a sink
/// failed, 5 where memory ran out, behind whole replies.
pub fn tell_session<R: Threads + Sync, O: Sink, E: Sink, M: Meter, G: Gate>(
    rt: &R,
    alloc: Global,
    opened: Opened,
    out: &mut O,
    err: &mut E,
    meter: &mut M,
    gate: &G,
) -> u8
    requires commands { All IsCommand opened.commands }
    requires drawn { M.drawn meter.old + 2 ^ 21 * length opened.commands ≤ 2 ^ 62 }
    ensures status { (result ≡ 0) ⊎ (result ≡ 4) ⊎ (result ≡ 5) }
    ensures done { result ≡ 0 → O.written out.new ≡ grown (O.written out.old) (written (ended (opened_as opened))) }
    ensures kept { result ≡ 0 → err.new ≡ err.old }
    ensures memory { result ≡ 5 → HasFirstReplies (opened_as opened).setting (opened_as opened).state opened.commands (O.written out.old) (O.written out.new) }
    ensures told { result ≡ 5 → E.written err.new ≡ grown (E.written err.old) no_memory_line }
    ensures cut { result ≡ 4
        → (Rose (O.faults out.old) (O.faults out.new) × GrewByPrefix (O.written out.old) (O.written out.new) (written (ended (opened_as opened))) × (err.new ≡ err.old))
        ⊎ (Rose (E.faults err.old) (E.faults err.new) × GrewByPrefix (E.written err.old) (E.written err.new) no_memory_line
        × HasFirstReplies (opened_as opened).setting (opened_as opened).state opened.commands (O.written out.old) (O.written out.new)) }
    ensures passes { result ≡ 0 → M.drawn meter.new ≡ M.drawn meter.old + 2 * (ended (opened_as opened)).swept }
    ensures least { M.drawn meter.old ≤ M.drawn meter.new }
    ensures spent { M.drawn meter.new ≤ M.drawn meter.old + 2 * (ended (opened_as opened)).swept }
{
    let Opened {
        mut engine,
        commands,
    } = opened;
    let performed = perform(rt, alloc, &mut engine, commands.items(), out, gate, meter);
    discard(engine);
    discard(commands);
    match performed {
        Ok(()) => 0,
        Err(Cut::WriteFault) => 4,
        Err(Cut::NoMemory) => tell_no_memory(err),
    }
}
