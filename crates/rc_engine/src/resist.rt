//! The resistors of a net, as they stand in a SPEF value.

ghost use Rattle.std.specs.Prelude.{◌≡◌, ◌<◌, ◌^◌, IfOk};
ghost use Rattle.rc_engine.specs.Connections.{node_end as node_end_of, res_end, res_line, res_lines, res_to as res_to_of};

use crate::any::push_any;
use rc_fixed::{Fixed, List, NoMemory, Text};
use rc_nodes::{Res, ResEnd};
use rc_spef::{End, SpefConn, SpefRes, Sub};
use std::alloc::Global;

/// A node of a net, as an end.
pub fn node_end(net: u32, node: u32) -> End
    requires { net < 2 ^ 20 }
    ensures { result ≡ node_end_of net node }
{
    End {
        name: net + 1,
        sub: Sub::Num(node),
    }
}

/// A copy of what stands behind a name.
fn copied_sub(alloc: Global, sub: &Sub) -> Result<Sub, NoMemory>
    ensures { IfOk result (λ copy. copy ≡ sub.now) }
{
    match sub {
        Sub::Bare => Ok(Sub::Bare),
        Sub::Num(number) => Ok(Sub::Num(*number)),
        Sub::Word(word) => Ok(Sub::Word(Text::from(alloc, word.bytes())?)),
    }
}

/// A copy of an end.
fn copied(alloc: Global, end: &End) -> Result<End, NoMemory>
    ensures { IfOk result (λ copy. copy ≡ end.now) }
{
    Ok(End {
        name: end.name,
        sub: copied_sub(alloc, &end.sub)?,
    })
}

/// Where a resistor of a net ends, by the lines of the net's connections.
fn end_of(alloc: Global, net: u32, lines: &[SpefConn], to: ResEnd) -> Result<Option<End>, NoMemory>
    requires { net < 2 ^ 20 }
    ensures { IfOk result (λ end. end ≡ res_end net lines.now to) }
{
    match to {
        ResEnd::Node(node) => Ok(Some(node_end(net, node))),
        ResEnd::Conn(conn) => match lines.get(conn as usize) {
            Some(line) => Ok(Some(copied(alloc, &line.end)?)),
            None => Ok(None),
        },
    }
}

/// A resistor of a net, from its node to this end.
fn res_to(net: u32, res: &Res, b: End) -> SpefRes
    requires { net < 2 ^ 20 }
    ensures { result ≡ res_to_of net res.now b }
{
    SpefRes {
        a: node_end(net, res.a),
        b,
        value: Fixed(res.value),
    }
}

/// A resistor of a net, by the lines of the net's connections.
fn line_of(
    alloc: Global,
    net: u32,
    lines: &[SpefConn],
    res: &Res,
) -> Result<Option<SpefRes>, NoMemory>
    requires { net < 2 ^ 20 }
    ensures { IfOk result (λ line. line ≡ res_line net lines.now res.now) }
{
    match end_of(alloc, net, lines, res.b)? {
        Some(b) => Ok(Some(res_to(net, res, b))),
        None => Ok(None),
    }
}

/// The resistors of a net, by the lines of the net's connections.
///
/// # Errors
///
/// `NoMemory` for want of memory.
pub fn resistances(
    alloc: Global,
    net: u32,
    lines: &[SpefConn],
    resistors: &[Res],
) -> Result<List<SpefRes>, NoMemory>
    requires { net < 2 ^ 20 }
    ensures { IfOk result (λ list. list ≡ res_lines net lines.now resistors.now) }
{
    let mut list = List::with_capacity(alloc, resistors.len())?;
    for res in resistors {
        let line = line_of(alloc, net, lines, res)?;
        push_any(&mut list, line)?;
    }
    Ok(list)
}
