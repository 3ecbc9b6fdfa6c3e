//! Sessions, from the first command to the last.

ghost use Rattle.std.specs.Prelude.{◌≡◌, ◌≤◌, ◌<◌, ◌+◌, ◌*◌, ◌^◌, IfOk, IfErr, OnOk, All, length};
ghost use Rattle.rc_io.specs.Bytes.{grown};
ghost use Rattle.rc_script.specs.Forms.{IsCommand};
ghost use Rattle.rc_session.specs.Sessions.{session, written};
ghost use Rattle.rc_session.specs.Cuts.{setting_of, state_of, IsCut};

use crate::reply::answer;
use rc_engine::Engine;
use rc_fixed::NoMemory;
use rc_io::{Gather, Sink, write_all};
use rc_script::Command;
use rc_sweep::Meter;
use rc_windows::Gate;
use std::alloc::Global;
use std::thread::Threads;

/// Why a session is cut off.
#[derive(Clone, Copy, Debug, PartialEq, Eq)]
pub enum Cut {
    /// Memory ran out. Whole replies were written by then.
    NoMemory,
    /// The sink failed.
    WriteFault,
}

/// Carries out the commands of a session one after the other, and writes the reply of each whole before the next one is begun. An
/// edit that is refused changes nothing. Two passes are drawn for each window that an accepted edit touches.
///
/// # Errors
///
/// `Cut::NoMemory` for want of memory, behind the whole replies of the first commands; `Cut::WriteFault` where the sink failed.
pub fn perform<R: Threads + Sync, O: Sink, G: Gate, M: Meter>(
    rt: &R,
    alloc: Global,
    engine: &mut Engine,
    commands: &[Command],
    out: &mut O,
    gate: &G,
    meter: &mut M,
) -> Result<(), Cut>
    requires commands { All IsCommand commands.now }
    requires drawn { M.drawn meter.old + 2 ^ 21 * length commands.now ≤ 2 ^ 62 }
    ensures state { OnOk result (state_of engine.new ≡ (session (setting_of engine.old) (state_of engine.old) commands.now).state) }
    ensures setting { setting_of engine.new ≡ setting_of engine.old }
    ensures written { OnOk result (O.written out.new ≡ grown (O.written out.old) (written (session (setting_of engine.old) (state_of engine.old) commands.now))) }
    ensures cut { IfErr result (IsCut (setting_of engine.old) (state_of engine.old) commands.now (O.written out.old) (O.written out.new) (O.faults out.old) (O.faults out.new)) }
    ensures later { O.faults out.old ≤ O.faults out.new }
    ensures ok { OnOk result (M.drawn meter.new ≡ M.drawn meter.old + 2 * (session (setting_of engine.old) (state_of engine.old) commands.now).swept) }
    ensures least { M.drawn meter.old ≤ M.drawn meter.new }
    ensures spent { M.drawn meter.new ≤ M.drawn meter.old + 2 * (session (setting_of engine.old) (state_of engine.old) commands.now).swept }
{
    for command in commands {
        let reply = match answer(rt, alloc, engine, command, gate, meter) {
            Ok(reply) => reply,
            Err(NoMemory) => return Err(Cut::NoMemory),
        };
        match write_all(out, reply.bytes()) {
            Ok(()) => {}
            Err(_) => return Err(Cut::WriteFault),
        }
    }
    Ok(())
}
