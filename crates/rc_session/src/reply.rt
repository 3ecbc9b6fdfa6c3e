//! What one command says.

ghost use Rattle.std.specs.Prelude.{◌≡◌, ◌≤◌, ◌+◌, ◌*◌, ◌^◌, IfOk, All};
ghost use Rattle.rc_wire.specs.Forms.{IsRegular};
ghost use Rattle.rc_spef.specs.Text.{spef_text};
ghost use Rattle.rc_engine.specs.Extraction.{extraction};
ghost use Rattle.rc_engine.specs.Names.{escaped_in};
ghost use Rattle.rc_script.specs.Forms.{IsCommand};
ghost use Rattle.rc_session.specs.Replies.{refused_line as refused_line_of, replaced_line as replaced_line_of};
ghost use Rattle.rc_session.specs.Sessions.{Answer, after_edit, answer as answer_of, block, edit_named, number_of};
ghost use Rattle.rc_session.specs.Cuts.{setting_of, state_of, Answers};

use crate::code::code_of;
use crate::line::{refused_line, replaced_line, swept_line};
use rc_engine::Engine;
use rc_fixed::{NoMemory, Text};
use rc_io::{Gather, write_all};
use rc_keys::{Code, Fault};
use rc_layout::Layout;
use rc_script::Command;
use rc_spef::{block_text, escape, text};
use rc_sweep::Meter;
use rc_windows::Gate;
use rc_wire::RawPath;
use std::alloc::Global;
use std::thread::Threads;

/// Lets a value go.
fn discard<T: Drop>(_value: T) {}

/// These bytes, as they are handed to a sink.
fn gathered(alloc: Global, bytes: &[u8]) -> Result<Gather, NoMemory>
    ensures { IfOk result (λ reply. reply.bytes ≡ bytes.now) }
{
    let mut reply = Gather::new(alloc);
    match write_all(&mut reply, bytes) {
        Ok(()) => Ok(reply),
        Err(_) => Err(NoMemory),
    }
}

/// The SPEF text of the layout.
fn spef(alloc: Global, engine: &Engine) -> Result<Gather, NoMemory>
    ensures { IfOk result (λ reply. reply.bytes ≡ spef_text (extraction engine.now.layout engine.now.rules)) }
{
    let value = engine.parasitics(alloc)?;
    let mut reply = Gather::new(alloc);
    let told = text(&value, &mut reply);
    discard(value);
    match told {
        Ok(()) => Ok(reply),
        Err(_) => Err(NoMemory),
    }
}

/// The block of a net, or the refusal of a name that no net has.
fn net_block(alloc: Global, engine: &Engine, name: &Text, line: u32) -> Result<Gather, NoMemory>
    ensures { IfOk result (λ reply. reply.bytes ≡ block (setting_of engine.now) (state_of engine.now) line (number_of engine.now.layout name.now)) }
{
    let Some(number) = engine.net(name.bytes()) else {
        return refused(alloc, line, Code::E06);
    };
    let net = engine.net_value(alloc, number)?;
    let mut reply = Gather::new(alloc);
    match block_text(&net, &mut reply) {
        Ok(()) => Ok(reply),
        Err(_) => Err(NoMemory),
    }
}

/// `// replaced NAME`, where the name is escaped as the SPEF text of a layout has it.
fn replaced(alloc: Global, layout: &Layout, name: &Text) -> Result<Gather, NoMemory>
    ensures { IfOk result (λ reply. reply.bytes ≡ replaced_line_of (escaped_in layout.now.parts name.now)) }
{
    let (left, right) = layout.bus();
    let escaped = escape(alloc, name.bytes(), layout.divider(), left, right)?;
    gathered(alloc, &replaced_line(alloc, escaped.bytes())?)
}

/// `// refused line N Exx`.
fn refused(alloc: Global, line: u32, code: Code) -> Result<Gather, NoMemory>
    ensures { IfOk result (λ reply. reply.bytes ≡ refused_line_of line code) }
{
    gathered(alloc, &refused_line(alloc, line, code)?)
}

/// Gives the net of a name other paths, and says so; or says what refuses that. The memory of the reply to an edit that is accepted is
/// taken before the edit.
fn replace<R: Threads + Sync, G: Gate, M: Meter>(
    rt: &R,
    alloc: Global,
    engine: &mut Engine,
    name: &Text,
    paths: &[RawPath],
    line: u32,
    gate: &G,
    meter: &mut M,
) -> Result<Gather, NoMemory>
    requires paths { All IsRegular paths.now }
    requires drawn { M.drawn meter.old ≤ 2 ^ 62 }
    ensures { Answers result engine.old engine.new (M.drawn meter.old) (M.drawn meter.new)
        (after_edit (state_of engine.old) line name.now (edit_named (setting_of engine.old) (state_of engine.old) name.now paths.now)) }
{
    let Some(number) = engine.net(name.bytes()) else {
        return refused(alloc, line, Code::E06);
    };
    let accepted = replaced(alloc, engine.layout(), name)?;
    match engine.replace(rt, alloc, number, paths, gate, meter) {
        Ok(_) => Ok(accepted),
        Err(Fault::Refused(refusal)) => refused(alloc, line, code_of(&refusal)),
        Err(Fault::NoMemory) => Err(NoMemory),
    }
}

/// Carries out a command, and answers what it says. Two passes are drawn for each window that an accepted edit touches.
///
/// # Errors
///
/// `NoMemory` for want of memory.
pub fn answer<R: Threads + Sync, G: Gate, M: Meter>(
    rt: &R,
    alloc: Global,
    engine: &mut Engine,
    command: &Command,
    gate: &G,
    meter: &mut M,
) -> Result<Gather, NoMemory>
    requires command { IsCommand command.now }
    requires drawn { M.drawn meter.old ≤ 2 ^ 62 }
    ensures { Answers result engine.old engine.new (M.drawn meter.old) (M.drawn meter.new) (answer_of (setting_of engine.old) (state_of engine.old) command.now) }
{
    match command {
        Command::Replace { name, paths, line } => {
            replace(rt, alloc, engine, name, paths.items(), *line, gate, meter)
        }
        Command::Spef => spef(alloc, engine),
        Command::Net { name, line } => net_block(alloc, engine, name, *line),
        Command::Stat => gathered(alloc, &swept_line(alloc, engine.stat())?),
    }
}
