//! A net of a layout with other wiring.

ghost use Rattle.std.specs.Prelude.{◌≡◌, ◌+◌, ◌-◌, ◌≤◌, ◌^◌, nat_le, All, IfOk, length};
ghost use Rattle.rc_layout.specs.Entries.{net_rule as net_rule_of};
ghost use Rattle.rc_layout.specs.Layouts.{net_anew, with_wiring};
ghost use Rattle.rc_layout.specs.Refusals.{Links};
ghost use Rattle.rc_layout.specs.Ranges.{IsParts, IsPath};

use crate::draw::draw_paths;
use crate::net::Net;
use crate::parts::Parts;
use crate::path::rule_named;
use crate::wiring::Wiring;
use rc_fixed::{List, NoMemory, Text};
use rc_keys::{Fault, Quantity, Refusal};
use rc_wire::RawPath;
use std::alloc::Global;

/// The nondefault rule of a net, by its number.
pub fn net_rule(parts: &Parts, line: u32, rule: &Option<Text>) -> Result<Option<usize>, Refusal>
    ensures { result ≡ net_rule_of parts.now line rule.now }
{
    match rule {
        None => Ok(None),
        Some(name) => match rule_named(&parts.rules, line, name.bytes()) {
            Ok(number) => Ok(Some(number)),
            Err(refusal) => Err(refusal),
        },
    }
}

fn copied(alloc: Global, rule: &Option<Text>) -> Result<Option<Text>, NoMemory>
    ensures { IfOk result (λ copy. copy ≡ rule.now) }
{
    match rule {
        None => Ok(None),
        Some(name) => Ok(Some(Text::from(alloc, name.bytes())?)),
    }
}

/// The net with other wiring.
fn rewired(alloc: Global, old: &Net, drawn: Wiring) -> Result<Net, NoMemory>
    ensures { IfOk result (λ net. net ≡ with_wiring old.now drawn) }
{
    let name = Text::from(alloc, old.name.bytes())?;
    let rule = copied(alloc, &old.rule)?;
    let conns = List::from_vec(Vec::from_slice(alloc, old.conns.items())?);
    Ok(Net {
        name,
        line: old.line,
        rule,
        conns,
        points: drawn.points,
        vias: drawn.vias,
        items: drawn.items,
    })
}

/// Whether the limit of shapes leaves room for so many more, where so many go.
fn has_room(shapes: u64, fewer: u64, more: u64) -> bool
    requires had { fewer ≤ shapes }
    requires few { shapes ≤ 2 ^ 22 }
    ensures { result ≡ nat_le (shapes - fewer + more) (2 ^ 22) }
{
    more <= 4_194_304 - (shapes - fewer)
}

/// The net with other paths, in a layout of so many shapes.
#[tactic(auto, unfolding(crate::specs::Layouts::net_anew))]
pub fn draw_anew(
    alloc: Global,
    parts: &Parts,
    shapes: u64,
    old: &Net,
    paths: &[RawPath],
) -> Result<Net, Fault>
    requires parts { IsParts parts.now }
    requires paths { All IsPath paths.now }
    requires had { length old.now.items ≤ shapes }
    requires few { shapes ≤ 2 ^ 22 }
    ensures { Links result (net_anew parts.now shapes old.now paths.now) }
{
    let rule = match net_rule(parts, old.line, &old.rule) {
        Ok(rule) => rule,
        Err(refusal) => return Err(Fault::Refused(refusal)),
    };
    let drawn = match draw_paths(alloc, parts, rule, paths) {
        Ok(drawn) => drawn,
        Err(fault) => return Err(fault),
    };
    if !has_room(shapes, old.items.len() as u64, drawn.items.len() as u64) {
        return Err(Fault::Refused(too_many()));
    }
    match rewired(alloc, old, drawn) {
        Ok(net) => Ok(net),
        Err(_) => Err(Fault::NoMemory),
    }
}

fn too_many() -> Refusal
    ensures { result ≡ Refusal.Limit Quantity.Shapes }
{
    Refusal::Limit {
        what: Quantity::Shapes,
    }
}
