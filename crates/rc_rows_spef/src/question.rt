//! What is asked of a text.

use anyhow::bail;
use rc_fixed::{NoMemory, Text};
use rc_io::Gather;
use rc_keys::{Fault, Refusal};
use rc_spef::Spef;
use std::alloc::Global;

/// The greatest text.
const MOST: usize = 1 << 20;

/// What a text comes to: its value, or why it has none.
#[derive(Debug, Drop)]
enum Course {
    Value(Spef),
    Refused(String),
}

/// A text of many lines from one line, where `^` stands for a line's end.
fn lines(alloc: Global, row: &str) -> Result<Vec<u8>, NoMemory> {
    let mut text = Vec::from_slice(alloc, row.as_bytes())?;
    for byte in text.iter_mut() {
        if *byte == b'^' {
            *byte = b'\n';
        }
    }
    Ok(text)
}

/// The same the other way round.
fn in_one_line(alloc: Global, text: &[u8]) -> anyhow::Result<String> {
    let mut line = String::new(alloc);
    for byte in text {
        line.push(if *byte == b'\n' {
            '^'
        } else {
            char::from(*byte)
        })?;
    }
    Ok(line)
}

/// Why a text has no value.
fn reason(alloc: Global, fault: Fault) -> anyhow::Result<String> {
    match fault {
        Fault::Refused(Refusal::At { code, line }) => Ok(format!(in alloc; "{code:?} {line}")?),
        Fault::Refused(_) => Ok(String::from_str(alloc, "another refusal")?),
        Fault::NoMemory => Ok(String::from_str(alloc, "no memory")?),
    }
}

/// What a text comes to.
fn value_of(alloc: Global, row: &str) -> anyhow::Result<Course> {
    let text = lines(alloc, row)?;
    if text.len() > MOST {
        bail!("a text is too long");
    }
    match rc_spef::read(alloc, &text) {
        Ok(spef) => Ok(Course::Value(spef)),
        Err(fault) => Ok(Course::Refused(reason(alloc, fault)?)),
    }
}

/// The text of a value.
fn written(alloc: Global, spef: &Spef) -> anyhow::Result<String> {
    let mut sink = Gather::new(alloc);
    match rc_spef::text(spef, &mut sink) {
        Ok(()) => in_one_line(alloc, sink.bytes()),
        Err(_) => bail!("no memory"),
    }
}

/// Whether a value is balanced.
fn balance(alloc: Global, spef: &Spef) -> anyhow::Result<String> {
    match rc_spef::is_balanced(alloc, spef) {
        Ok(true) => Ok(String::from_str(alloc, "true")?),
        Ok(false) => Ok(String::from_str(alloc, "false")?),
        Err(NoMemory) => bail!("no memory"),
    }
}

/// The name of a net, where it is there.
fn name(spef: &Spef, net: usize) -> Option<&Text> {
    let net = spef.nets.items().get(net)?;
    spef.names.items().get((net.name as usize).checked_sub(1)?)
}

/// The name of the first net that differs: that of the first value, or of the second where the first has no net there.
fn differing(alloc: Global, ours: &Spef, theirs: &Spef, net: usize) -> anyhow::Result<String> {
    let name = match name(ours, net) {
        Some(name) => Some(name),
        None => name(theirs, net),
    };
    match name {
        Some(name) => {
            let name = in_one_line(alloc, name.bytes())?;
            Ok(format!(in alloc; "differs {name}")?)
        }
        None => bail!("a net without a name"),
    }
}

/// Whether two values hold the same nets.
fn compare(alloc: Global, ours: &Spef, theirs: &Spef) -> anyhow::Result<String> {
    let (first, second) = (ours.nets.items().len(), theirs.nets.items().len());
    for net in 0..first.max(second) {
        if net >= first || net >= second || !rc_spef::same_net(ours, net, theirs, net) {
            return differing(alloc, ours, theirs, net);
        }
    }
    Ok(format!(in alloc; "same {first}")?)
}

/// Whether two texts hold the same nets.
fn same(alloc: Global, row: &str) -> anyhow::Result<String> {
    let Some((ours, theirs)) = row.split_once('~') else {
        bail!("one text alone");
    };
    match (value_of(alloc, ours)?, value_of(alloc, theirs)?) {
        (Course::Value(ours), Course::Value(theirs)) => compare(alloc, &ours, &theirs),
        (Course::Refused(reason), _) | (_, Course::Refused(reason)) => Ok(reason),
    }
}

/// How a name is escaped where `/` stands between levels, and `[` and `]` around a bit's number.
fn escaped(alloc: Global, name: &str) -> anyhow::Result<String> {
    match rc_spef::escape(alloc, name.as_bytes(), b'/', b'[', b']') {
        Ok(text) => in_one_line(alloc, text.bytes()),
        Err(NoMemory) => bail!("no memory"),
    }
}

/// What is told of a text that is read.
fn told(alloc: Global, word: &str, spef: &Spef) -> anyhow::Result<String> {
    match word {
        "read" => Ok(String::from_str(alloc, "ok")?),
        "again" => written(alloc, spef),
        "balanced" => balance(alloc, spef),
        _ => bail!("no such question"),
    }
}

/// The answer to a question.
pub fn answer(alloc: Global, word: &str, row: &str) -> anyhow::Result<String> {
    match word {
        "same" => same(alloc, row),
        "escape" => escaped(alloc, row),
        _ => match value_of(alloc, row)? {
            Course::Value(spef) => told(alloc, word, &spef),
            Course::Refused(reason) => Ok(reason),
        },
    }
}
