//! Nondefault rules of a design.

ghost use Rattle.std.specs.Prelude.{◌≡◌, ◌≤◌, ◌++◌, OnOk};
ghost use Rattle.rc_layout.specs.Entries.{link_rule as link_rule_of, with_width, on_routing};
ghost use Rattle.rc_layout.specs.Refusals.{Leaves, Links, through};
ghost use Rattle.rc_layout.specs.Scope.{layer_named as layer_named_of};

use crate::part::Rule;
use crate::process::Process;
use crate::via::refused;
use crate::wide::scale;
use rc_def::RawRule;
use rc_fixed::{List, NoMemory, Text};
use rc_keys::{Code, Fault, Refusal};
use rc_lef::LayerKind;
use std::alloc::Global;

/// What the layer of that name is for.
pub fn layer_named(process: &Process, line: u32, name: &[u8]) -> Result<LayerKind, Refusal>
    ensures { result ≡ layer_named_of process.now.layers line name.now }
{
    match process.kind(name) {
        Some(kind) => Ok(kind),
        None => Err(refused(Code::E06, line)),
    }
}

fn put_width(widths: &mut List<(u8, i64)>, kind: LayerKind, width: i64) -> Result<(), NoMemory>
    ensures { OnOk result (widths.new ≡ widths.old ++ on_routing kind width) }
{
    if let LayerKind::Routing(number) = kind {
        widths.push((number, width))?;
    }
    Ok(())
}

fn add_width(
    process: &Process,
    factor: u32,
    line: u32,
    widths: &mut List<(u8, i64)>,
    entry: &(Text, i32),
) -> Result<(), Fault>
    requires { factor ≤ 20000 }
    ensures { Leaves result widths.new (with_width process.now.layers factor line widths.old entry.now) }
{
    let kind = match layer_named(process, line, entry.0.bytes()) {
        Ok(kind) => kind,
        Err(refusal) => return Err(Fault::Refused(refusal)),
    };
    let Ok(()) = put_width(widths, kind, scale(factor, entry.1)) else {
        return Err(Fault::NoMemory);
    };
    Ok(())
}

/// The widths of a rule are added.
fn add_widths(
    process: &Process,
    factor: u32,
    line: u32,
    widths: &mut List<(u8, i64)>,
    entries: &[(Text, i32)],
) -> Result<(), Fault>
    requires { factor ≤ 20000 }
    ensures { Leaves result widths.new (through (with_width process.now.layers factor line) widths.old entries.now) }
{
    for entry in entries {
        match add_width(process, factor, line, widths, entry) {
            Ok(()) => {}
            Err(fault) => return Err(fault),
        }
    }
    Ok(())
}

/// A nondefault rule, with widths in units of the layout.
#[tactic(auto, unfolding(crate::specs::Entries::link_rule))]
pub fn link_rule(alloc: Global, process: &Process, factor: u32, raw: RawRule) -> Result<Rule, Fault>
    requires { factor ≤ 20000 }
    ensures { Links result (link_rule_of process.now.layers factor raw) }
{
    let mut widths = List::new(alloc);
    match add_widths(process, factor, raw.line, &mut widths, raw.widths.items()) {
        Ok(()) => {}
        Err(fault) => return Err(fault),
    }
    Ok(Rule {
        name: raw.name,
        widths,
    })
}
