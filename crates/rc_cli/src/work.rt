//! The work of a run: from its files to its reply.

ghost use Rattle.std.specs.Prelude.{◌≡◌, ◌≤◌, ◌+◌, ◌^◌, List as Bytes, ℕ, IsTrue, IfOk, IfErr, Some, None};
ghost use Rattle.std.specs.Option.{option_copied};
ghost use Rattle.rc_spef.specs.Text.{spef_text};
ghost use Rattle.rc_cli.specs.Command.{file_words, spef_word, script_word};
ghost use Rattle.rc_cli.specs.Outcome.{Done, outcome, reply as reply_of, written as written_of, compared as compared_of, passes};
ghost use Rattle.rc_cli.specs.Answers.{shelf};
ghost use Rattle.rc_cli.specs.Work.{Keeps, HasStopped, OnlyVerifyDiffers};

use crate::command::Request;
use crate::extracting::extracted;
use crate::reading::read_spef;
use crate::stages::place;
use crate::stop::Stop;
use crate::verdict::{Verdict, verify};
use rc_fixed::NoMemory;
use rc_io::{Files, Gather, write_all};
use rc_spef::{Spef, text};
use rc_sweep::Meter;
use rc_windows::Gate;
use std::alloc::Global;
use std::marker::Model;
use std::thread::Threads;

/// What a run writes, and whether that says that two values differ.
#[derive(Drop)]
pub struct Reply {
    text: Gather,
    differs: bool,
}

impl Model for Reply {
    ghost use Rattle.rc_cli.specs.Outcome.{Reply};

    ghost Value = { Reply };

    ghost view = { λ reply. record { text = reply.text.bytes; differs = reply.differs } };
}

impl Reply {
    /// The text.
    pub fn text(&self) -> &[u8]
        ensures { result.now ≡ self.now.text }
    {
        self.text.bytes()
    }

    /// Whether the text says that two values differ.
    pub fn differs(&self) -> bool
        ensures { result ≡ self.now.differs }
    {
        self.differs
    }
}

/// Lets a value go.
fn discard<T: Drop>(_value: T) {}

/// The extraction is written.
fn written(alloc: Global, spef: &Spef) -> Result<Reply, NoMemory>
    ensures { IfOk result (λ reply. reply ≡ written_of spef.now) }
{
    let mut gathered = Gather::new(alloc);
    let Ok(()) = text(spef, &mut gathered) else {
        return Err(NoMemory);
    };
    Ok(Reply {
        text: gathered,
        differs: false,
    })
}

/// The extraction is compared with a SPEF file.
fn compared(alloc: Global, spef: &Spef, file: &Spef) -> Result<Reply, NoMemory>
    ensures { IfOk result (λ reply. reply ≡ compared_of spef.now file.now) }
{
    let told = verify(alloc, spef, file)?;
    let mut gathered = Gather::new(alloc);
    let Ok(()) = write_all(&mut gathered, told.text.bytes()) else {
        return Err(NoMemory);
    };
    let differs = match told.verdict {
        Verdict::Same => false,
        Verdict::Differs => true,
    };
    Ok(Reply {
        text: gathered,
        differs,
    })
}

/// The reply of a task, from the extraction and the task's own file.
fn answer<F: Files>(
    alloc: Global,
    files: &mut F,
    asked: &Request<'_>,
    room: u64,
    spef: &Spef,
) -> Result<Reply, Stop>
    requires { room ≤ 2 ^ 30 }
    ensures keeps { Keeps (shelf (F.tells files.old) (F.text files.old) (F.faults files.old)) (shelf (F.tells files.new) (F.text files.new) (F.faults files.new)) }
    ensures done { IfOk result (λ reply. IsTrue (F.tells files.old) → reply_of (F.text files.old) (spef_word asked.now.task) room spef.now ≡ Done reply) }
    ensures stopped { IfErr result (HasStopped (shelf (F.tells files.old) (F.text files.old) (F.faults files.old)) (shelf (F.tells files.new) (F.text files.new) (F.faults files.new))
        (file_words asked.now) (λ texts. reply_of texts (spef_word asked.now.task) room spef.now)) }
    ensures differs { IfOk result (OnlyVerifyDiffers asked.now) }
{
    let Some(name) = asked.spef() else {
        return match written(alloc, spef) {
            Ok(reply) => Ok(reply),
            Err(NoMemory) => Err(Stop::NoMemory),
        };
    };
    let (file, _left) = match read_spef(alloc, files, name, room) {
        Ok(read) => read,
        Err(why) => return Err(why),
    };
    let verdict = compared(alloc, spef, &file);
    discard(file);
    match verdict {
        Ok(reply) => Ok(reply),
        Err(NoMemory) => Err(Stop::NoMemory),
    }
}

/// Does the work of a request that asks for no session: reads its files in the order of work, extracts the layout, and gathers the reply. Two passes are
/// drawn for each window of the layout's grid.
///
/// # Errors
///
/// Why there is no reply: the first refusal, a file that failed, or want of memory.
pub fn work<R: Threads + Sync, F: Files, M: Meter, G: Gate>(
    rt: &R,
    alloc: Global,
    asked: &Request<'_>,
    files: &mut F,
    meter: &mut M,
    gate: &G,
) -> Result<Reply, Stop>
    requires drawn { M.drawn meter.old ≤ 2 ^ 62 }
    requires value { script_word asked.now.task ≡ None }
    ensures done { IfOk result (λ reply. IsTrue (F.tells files.old) → outcome (F.text files.old) asked.now ≡ Done reply) }
    ensures stopped { IfErr result (HasStopped (shelf (F.tells files.old) (F.text files.old) (F.faults files.old)) (shelf (F.tells files.new) (F.text files.new) (F.faults files.new))
        (file_words asked.now) (λ texts. outcome texts asked.now)) }
    ensures differs { IfOk result (OnlyVerifyDiffers asked.now) }
    ensures passes { IfOk result (λ _. IsTrue (F.tells files.old) → M.drawn meter.new ≡ M.drawn meter.old + passes (F.text files.old) asked.now) }
    ensures least { M.drawn meter.old ≤ M.drawn meter.new }
    ensures spent { IsTrue (F.tells files.old) → M.drawn meter.new ≤ M.drawn meter.old + passes (F.text files.old) asked.now }
{
    let placed = match place(alloc, files, asked) {
        Ok(placed) => placed,
        Err(why) => return Err(why),
    };
    let room = placed.room;
    let spef = match extracted(rt, alloc, asked.workers(), asked.def(), placed, meter, gate) {
        Ok(spef) => spef,
        Err(why) => return Err(why),
    };
    let answered = answer(alloc, files, asked, room, &spef);
    discard(spef);
    answered
}
