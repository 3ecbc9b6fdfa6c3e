//! The top call: what a run answers and writes.

ghost use Rattle.std.specs.Prelude.{◌≡◌, ◌≢◌, ◌⊎◌, ◌<◌, ◌≤◌, ◌+◌, ◌^◌, List, ℕ, Bool, true, false, Option, Some, None, map, IsTrue};
ghost use Rattle.std.specs.String.{string_bytes};
ghost use Rattle.rc_io.specs.Bytes.{grown, GrewByPrefix};
ghost use Rattle.rc_io.specs.Causes.{Rose};
ghost use Rattle.rc_cli.specs.Command.{Request as Asked, request_of, script_word};
ghost use Rattle.rc_cli.specs.Lines.{usage_line, no_memory_line, read_fault_line};
ghost use Rattle.rc_cli.specs.Outcome.{Course, Missing, Refused, Done, Reply as Replied, outcome, passes};
ghost use Rattle.rc_cli.specs.Answers.{shelf, sinks, OutKept, ErrKept, WroteText, WroteLine, NoFileFailed, IsTold, IsReadFault, IsVerify, IsSession, HasWholeReplies, ComesTo, IsCutText, IsCutLine, reply_status};

use crate::command::Request;
use crate::line::{tell, tell_no_memory, tell_usage};
use crate::opening::open;
use crate::session::tell_session;
use crate::stop::Stop;
use crate::work::{Reply, work};
use rc_io::{Files, Sink, WriteFault, write_all};
use rc_sweep::Meter;
use rc_windows::Gate;
use std::alloc::Global;
use std::thread::Threads;

/// Writes a reply, and answers the status: 6 where it says that two values differ, 0 where not, 4 where the sink failed.
fn tell_reply<O: Sink>(out: &mut O, reply: &Reply) -> u8
    ensures status { (result ≡ reply_status reply.now) ⊎ (result ≡ 4) }
    ensures whole { (result ≡ 0) ⊎ (result ≡ 6) → (result ≡ reply_status reply.now) × (O.written out.new ≡ grown (O.written out.old) reply.now.text) }
    ensures prefix { GrewByPrefix (O.written out.old) (O.written out.new) reply.now.text }
    ensures fault { result ≡ 4 → Rose (O.faults out.old) (O.faults out.new) }
{
    match write_all(out, reply.text()) {
        Ok(()) => { if reply.differs() { 6 } else { 0 } }
        Err(WriteFault) => 4,
    }
}

/// Does all that the program does for words that ask for a session. The clauses are those of `run`.
fn run_session<R: Threads + Sync, F: Files, O: Sink, E: Sink, M: Meter, G: Gate>(
    rt: &R,
    alloc: Global,
    words: &[String],
    asked: &Request<'_>,
    script: &str,
    files: &mut F,
    out: &mut O,
    err: &mut E,
    meter: &mut M,
    gate: &G,
) -> u8
    requires drawn { M.drawn meter.old ≤ 2 ^ 61 }
    requires asked { request_of (map string_bytes words.now) ≡ Some asked.now }
    requires script { script_word asked.now.task ≡ Some script.now }
    ensures statuses { (result < 7) × (result ≢ 1) × (result ≢ 6) }
    ensures done { result ≡ 0 → (text : List ℕ)
        × ComesTo (shelf (F.tells files.old) (F.text files.old) (F.faults files.old)) (map string_bytes words.now) (Done (record { text = text; differs = false }))
        × WroteText (sinks (O.written out.old) (O.written out.new) (E.written err.old) (E.written err.new)) text }
    ensures refused { result ≡ 2 → (line : List ℕ)
        × ComesTo (shelf (F.tells files.old) (F.text files.old) (F.faults files.old)) (map string_bytes words.now) (Refused line)
        × WroteLine (sinks (O.written out.old) (O.written out.new) (E.written err.old) (E.written err.new)) line }
    ensures read_fault { result ≡ 3 → (asked : Asked) × (name : List ℕ)
        × (request_of (map string_bytes words.now) ≡ Some asked)
        × IsReadFault (shelf (F.tells files.old) (F.text files.old) (F.faults files.old)) (shelf (F.tells files.new) (F.text files.new) (F.faults files.new)) asked name
        × WroteLine (sinks (O.written out.old) (O.written out.new) (E.written err.old) (E.written err.new)) (read_fault_line name) }
    ensures write_fault { result ≡ 4
        → IsCutText (shelf (F.tells files.old) (F.text files.old) (F.faults files.old)) (sinks (O.written out.old) (O.written out.new) (E.written err.old) (E.written err.new)) (map string_bytes words.now) (O.faults out.old) (O.faults out.new)
        ⊎ IsCutLine (shelf (F.tells files.old) (F.text files.old) (F.faults files.old)) (shelf (F.tells files.new) (F.text files.new) (F.faults files.new)) (sinks (O.written out.old) (O.written out.new) (E.written err.old) (E.written err.new)) (map string_bytes words.now) (E.faults err.old) (E.faults err.new) }
    ensures memory { result ≡ 5 → E.written err.new ≡ grown (E.written err.old) no_memory_line }
    ensures whole_replies { result ≡ 5
        → HasWholeReplies (shelf (F.tells files.old) (F.text files.old) (F.faults files.old)) (sinks (O.written out.old) (O.written out.new) (E.written err.old) (E.written err.new)) (map string_bytes words.now) }
    ensures out_kept { (result ≡ 2) ⊎ (result ≡ 3) → out.new ≡ out.old }
    ensures out_kept_memory { result ≡ 5 → (out.new ≡ out.old) ⊎ IsSession (map string_bytes words.now) }
    ensures err_kept { result ≡ 0 → err.new ≡ err.old }
    ensures one_sink { result ≡ 4 → (out.new ≡ out.old) ⊎ (err.new ≡ err.old) ⊎ IsSession (map string_bytes words.now) }
    ensures complete { (asked : Asked) → request_of (map string_bytes words.now) ≡ Some asked → IsTrue (F.tells files.old)
        → NoFileFailed (shelf (F.tells files.old) (F.text files.old) (F.faults files.old)) (shelf (F.tells files.new) (F.text files.new) (F.faults files.new)) asked
        → ¬ Rose (O.faults out.old) (O.faults out.new) → ¬ Rose (E.faults err.old) (E.faults err.new)
        → IsTold (sinks (O.written out.old) (O.written out.new) (E.written err.old) (E.written err.new)) (outcome (F.text files.old) asked) result
        ⊎ (result ≡ 5) }
    ensures passes { result ≡ 0 → (asked : Asked) → request_of (map string_bytes words.now) ≡ Some asked → IsTrue (F.tells files.old)
        → M.drawn meter.new ≡ M.drawn meter.old + passes (F.text files.old) asked }
    ensures spent { (asked : Asked) → request_of (map string_bytes words.now) ≡ Some asked → IsTrue (F.tells files.old)
        → M.drawn meter.new ≤ M.drawn meter.old + passes (F.text files.old) asked }
    ensures least { M.drawn meter.old ≤ M.drawn meter.new }
{
    match open(rt, alloc, asked, script, files, meter, gate) {
        Ok(opened) => tell_session(rt, alloc, opened, out, err, meter, gate),
        Err(Stop::Refused(line)) => tell(err, 2, line.bytes()),
        Err(Stop::Fault(line)) => tell(err, 3, line.bytes()),
        Err(Stop::NoMemory) => tell_no_memory(err),
    }
}

/// Does all that the program does, and answers its status.
///
/// `words` are those after the program's name. `extract W RULES DEF LEF..` writes the SPEF text of the design to `out`, and
/// `verify W SPEF RULES DEF LEF..` one line, `same N` for N nets or `differs NAME`. `session W SCRIPT RULES DEF LEF..` carries out the
/// commands of a script, and writes the reply to each whole before it begins the next. No other words are listed. W workers sweep.
/// The files are read in the order of work: each LEF, the DEF, the rules, and at last the SPEF file or the script. Of the meter two
/// passes are drawn for each window of the layout's grid, and two for each window that an accepted edit touches.
///
/// # Statuses
///
/// * 0: all was done.
/// * 1: the words have no listed form. `err` gets `rcx: usage`.
/// * 2: the first refusal, whose line `err` gets.
/// * 3: a file of the words failed. `err` gets `rcx: read fault NAME`.
/// * 4: `out` or `err` failed.
/// * 5: memory ran out. `err` gets `rcx: no memory`.
/// * 6: all was done, and some net differs.
///
/// Nothing is written to `out` but at 0, 4 and 6, and the whole replies to the first commands of a session at 5.
pub fn run<R: Threads + Sync, F: Files, O: Sink, E: Sink, M: Meter, G: Gate>(
    rt: &R,
    alloc: Global,
    words: &[String],
    files: &mut F,
    out: &mut O,
    err: &mut E,
    meter: &mut M,
    gate: &G,
) -> u8
    requires { M.drawn meter.old ≤ 2 ^ 61 }
    ensures statuses { result < 7 }

    // 1: the words have no listed form.
    ensures usage { result ≡ 1 → (request_of (map string_bytes words.now) ≡ None)
        × WroteLine (sinks (O.written out.old) (O.written out.new) (E.written err.old) (E.written err.new)) usage_line }
    ensures listed { request_of (map string_bytes words.now) ≡ None → (result ≡ 1) ⊎ (result ≡ 4) }

    // 0: all was done. Over files that tell, the text is the one that they come to, and it says of no two values that they differ.
    ensures done { result ≡ 0 → (text : List ℕ)
        × ComesTo (shelf (F.tells files.old) (F.text files.old) (F.faults files.old)) (map string_bytes words.now) (Done (record { text = text; differs = false }))
        × WroteText (sinks (O.written out.old) (O.written out.new) (E.written err.old) (E.written err.new)) text }

    // 6: a comparison was asked for. Over files that tell, the two values differ, and the text is the one that they come to.
    ensures differs { result ≡ 6 → (text : List ℕ)
        × IsVerify (map string_bytes words.now)
        × ComesTo (shelf (F.tells files.old) (F.text files.old) (F.faults files.old)) (map string_bytes words.now) (Done (record { text = text; differs = true }))
        × WroteText (sinks (O.written out.old) (O.written out.new) (E.written err.old) (E.written err.new)) text }

    // 2: the first refusal. Over files that tell, the line is the one that they come to.
    ensures refused { result ≡ 2 → (line : List ℕ)
        × ComesTo (shelf (F.tells files.old) (F.text files.old) (F.faults files.old)) (map string_bytes words.now) (Refused line)
        × WroteLine (sinks (O.written out.old) (O.written out.new) (E.written err.old) (E.written err.new)) line }

    // 3: a file of the words failed, and nothing before it is missing or refused.
    ensures read_fault { result ≡ 3 → (asked : Asked) × (name : List ℕ)
        × (request_of (map string_bytes words.now) ≡ Some asked)
        × IsReadFault (shelf (F.tells files.old) (F.text files.old) (F.faults files.old)) (shelf (F.tells files.new) (F.text files.new) (F.faults files.new)) asked name
        × WroteLine (sinks (O.written out.old) (O.written out.new) (E.written err.old) (E.written err.new)) (read_fault_line name) }

    // 4: a sink failed, after a front of the very text, or of a line that has its cause.
    ensures write_fault { result ≡ 4
        → IsCutText (shelf (F.tells files.old) (F.text files.old) (F.faults files.old)) (sinks (O.written out.old) (O.written out.new) (E.written err.old) (E.written err.new)) (map string_bytes words.now) (O.faults out.old) (O.faults out.new)
        ⊎ IsCutLine (shelf (F.tells files.old) (F.text files.old) (F.faults files.old)) (shelf (F.tells files.new) (F.text files.new) (F.faults files.new)) (sinks (O.written out.old) (O.written out.new) (E.written err.old) (E.written err.new)) (map string_bytes words.now) (E.faults err.old) (E.faults err.new) }

    // 5: memory ran out. Out holds nothing more, but for the whole replies to the first commands of a session.
    ensures memory { result ≡ 5 → E.written err.new ≡ grown (E.written err.old) no_memory_line }
    ensures whole_replies { result ≡ 5
        → HasWholeReplies (shelf (F.tells files.old) (F.text files.old) (F.faults files.old)) (sinks (O.written out.old) (O.written out.new) (E.written err.old) (E.written err.new)) (map string_bytes words.now) }

    // For every sink: nothing is written to out but at 0, 4 and 6, and in a session at 5; nothing to err at 0 and 6; and at 4 to one of
    // both alone, but in a session.
    ensures out_kept { (result ≡ 1) ⊎ (result ≡ 2) ⊎ (result ≡ 3) → out.new ≡ out.old }
    ensures out_kept_memory { result ≡ 5 → (out.new ≡ out.old) ⊎ IsSession (map string_bytes words.now) }
    ensures err_kept { (result ≡ 0) ⊎ (result ≡ 6) → err.new ≡ err.old }
    ensures one_sink { result ≡ 4 → (out.new ≡ out.old) ⊎ (err.new ≡ err.old) ⊎ IsSession (map string_bytes words.now) }

    // What the words and the files come to is told, unless a file or a sink fails or memory runs out.
    ensures complete { (asked : Asked) → request_of (map string_bytes words.now) ≡ Some asked → IsTrue (F.tells files.old)
        → NoFileFailed (shelf (F.tells files.old) (F.text files.old) (F.faults files.old)) (shelf (F.tells files.new) (F.text files.new) (F.faults files.new)) asked
        → ¬ Rose (O.faults out.old) (O.faults out.new) → ¬ Rose (E.faults err.old) (E.faults err.new)
        → IsTold (sinks (O.written out.old) (O.written out.new) (E.written err.old) (E.written err.new)) (outcome (F.text files.old) asked) result
        ⊎ (result ≡ 5) }

    // Two passes are drawn for each window, and in a session two for each window that an accepted edit touches, where all was done; and in no case more.
    ensures passes { (result ≡ 0) ⊎ (result ≡ 6) → (asked : Asked) → request_of (map string_bytes words.now) ≡ Some asked → IsTrue (F.tells files.old)
        → M.drawn meter.new ≡ M.drawn meter.old + passes (F.text files.old) asked }
    ensures spent { (asked : Asked) → request_of (map string_bytes words.now) ≡ Some asked → IsTrue (F.tells files.old)
        → M.drawn meter.new ≤ M.drawn meter.old + passes (F.text files.old) asked }
    ensures least { M.drawn meter.old ≤ M.drawn meter.new }
    ensures unlisted { request_of (map string_bytes words.now) ≡ None → M.drawn meter.new ≡ M.drawn meter.old }
{
    let Some(asked) = Request::from_words(words) else {
        return tell_usage(err);
    };
    if let Some(script) = asked.script() {
        return run_session(
            rt, alloc, words, &asked, script, files, out, err, meter, gate,
        );
    }
    match work(rt, alloc, &asked, files, meter, gate) {
        Ok(reply) => tell_reply(out, &reply),
        Err(Stop::Refused(line)) => tell(err, 2, line.bytes()),
        Err(Stop::Fault(line)) => tell(err, 3, line.bytes()),
        Err(Stop::NoMemory) => tell_no_memory(err),
    }
}
