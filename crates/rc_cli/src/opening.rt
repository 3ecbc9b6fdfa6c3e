//! The opening of a session: its files, the engine, and the commands of its script.

ghost use Rattle.std.specs.Prelude.{◌≡◌, ◌≤◌, ◌+◌, ◌*◌, ◌^◌, IsTrue, IfOk, IfErr, All, Some, length};
ghost use Rattle.rc_script.specs.Forms.{IsCommand};
ghost use Rattle.rc_cli.specs.Command.{file_words, script_word};
ghost use Rattle.rc_cli.specs.Outcome.{Done, outcome, session_opening, ended, replied, passes};
ghost use Rattle.rc_cli.specs.Answers.{shelf};
ghost use Rattle.rc_cli.specs.Work.{HasStopped, opened_as};

use crate::command::Request;
use crate::extracting::started;
use crate::reading::read_commands;
use crate::stages::place;
use crate::stop::Stop;
use rc_engine::Engine;
use rc_fixed::List;
use rc_io::Files;
use rc_script::Command;
use rc_sweep::Meter;
use rc_windows::Gate;
use std::alloc::Global;
use std::thread::Threads;

/// A session before its first command.
#[derive(Drop)]
pub struct Opened {
    pub engine: Engine,
    pub commands: List<Command>,
}

/// Lets a value go.
fn discard<T: Drop>(_value: T) {}

/// Opens a session: reads its files in the order of work, sweeps the layout, and reads the script whole. Two passes are drawn for each
/// window of the layout's grid.
///
/// # Errors
///
/// Why there is no session: the first refusal, a file that failed, or want of memory.
pub fn open<R: Threads + Sync, F: Files, M: Meter, G: Gate>(
    rt: &R,
    alloc: Global,
    asked: &Request<'_>,
    script: &str,
    files: &mut F,
    meter: &mut M,
    gate: &G,
) -> Result<Opened, Stop>
    requires drawn { M.drawn meter.old ≤ 2 ^ 62 }
    requires script { script_word asked.now.task ≡ Some script.now }
    ensures done { IfOk result (λ opened. IsTrue (F.tells files.old) → session_opening (F.text files.old) asked.now.inputs script.now ≡ Done (opened_as opened)) }
    ensures stopped { IfErr result (HasStopped (shelf (F.tells files.old) (F.text files.old) (F.faults files.old)) (shelf (F.tells files.new) (F.text files.new) (F.faults files.new))
        (file_words asked.now) (λ texts. outcome texts asked.now)) }
    ensures commands { IfOk result (λ opened. All IsCommand opened.commands) }
    ensures count { IfOk result (λ opened. length opened.commands ≤ 2 ^ 30) }
    ensures comes { IfOk result (λ opened. IsTrue (F.tells files.old) → outcome (F.text files.old) asked.now ≡ Done (replied (opened_as opened))) }
    ensures passes { IfOk result (λ opened. IsTrue (F.tells files.old) → M.drawn meter.new + 2 * (ended (opened_as opened)).swept ≡ M.drawn meter.old + passes (F.text files.old) asked.now) }
    ensures few { IfOk result (λ _. M.drawn meter.new ≤ M.drawn meter.old + 2 ^ 21) }
    ensures least { M.drawn meter.old ≤ M.drawn meter.new }
    ensures spent { IsTrue (F.tells files.old) → M.drawn meter.new ≤ M.drawn meter.old + passes (F.text files.old) asked.now }
{
    let placed = match place(alloc, files, asked) {
        Ok(placed) => placed,
        Err(why) => return Err(why),
    };
    let room = placed.room;
    let engine = match started(rt, alloc, asked.workers(), asked.def(), placed, meter, gate) {
        Ok(engine) => engine,
        Err(why) => return Err(why),
    };
    match read_commands(alloc, files, script, room) {
        Ok((commands, _left)) => Ok(Opened { engine, commands }),
        Err(why) => {
            discard(engine);
            Err(why)
        }
    }
}
