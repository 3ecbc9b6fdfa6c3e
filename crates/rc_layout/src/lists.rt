//! The entries of a design before its nets.

ghost use Rattle.std.specs.Prelude.{◌≡◌, ◌≤◌, All, IfSome};
ghost use Rattle.rc_def.specs.Forms.{IsMade};
ghost use Rattle.rc_layout.specs.Ranges.{CanStand};
ghost use Rattle.rc_layout.specs.Entries.{link_comp as link_comp_of, link_pin as link_pin_of, link_rule as link_rule_of, link_via as link_via_of};
ghost use Rattle.rc_layout.specs.Layouts.{link_lists as link_lists_of};
ghost use Rattle.rc_layout.specs.Refusals.{each, Links};

use crate::comp::link_comp;
use crate::own_via::link_via;
use crate::part::{Comp, Port, Rule};
use crate::port::link_pin;
use crate::process::Process;
use crate::rule::link_rule;
use rc_def::{RawComp, RawPin, RawRule, RawVia};
use rc_fixed::{List, Text};
use rc_keys::Fault;
use rc_lef::Via;
use std::alloc::Global;

/// What stands before the entries of a design.
#[derive(Drop)]
pub struct Head {
    pub design: Text,
    pub divider: u8,
    pub bus_left: u8,
    pub bus_right: u8,
    pub units: u32,
    pub units_line: u32,
}

/// The entries of a design before its nets, as they are written.
#[derive(Drop)]
pub struct RawLists {
    pub vias: List<RawVia>,
    pub rules: List<RawRule>,
    pub comps: List<RawComp>,
    pub pins: List<RawPin>,
}

/// What they link to.
#[derive(Drop)]
pub struct Lists {
    pub vias: List<Via>,
    pub rules: List<Rule>,
    pub comps: List<Comp>,
    pub ports: List<Port>,
}

/// The vias of a design.
fn link_vias(
    alloc: Global,
    process: &Process,
    factor: u32,
    raws: List<RawVia>,
) -> Result<List<Via>, Fault>
    requires factor { factor ≤ 20000 }
    requires made { All (λ raw. IfSome raw.made IsMade) raws }
    ensures { Links result (each (link_via_of process.now.layers factor) raws) }
{
    let mut vias = List::new(alloc);
    for raw in raws.into_vec() {
        let via = match link_via(alloc, process, factor, raw) {
            Ok(via) => via,
            Err(fault) => return Err(fault),
        };
        let Ok(()) = vias.push(via) else {
            return Err(Fault::NoMemory);
        };
    }
    Ok(vias)
}

/// The nondefault rules of a design.
fn link_rules(
    alloc: Global,
    process: &Process,
    factor: u32,
    raws: List<RawRule>,
) -> Result<List<Rule>, Fault>
    requires { factor ≤ 20000 }
    ensures { Links result (each (link_rule_of process.now.layers factor) raws) }
{
    let mut rules = List::new(alloc);
    for raw in raws.into_vec() {
        let rule = match link_rule(alloc, process, factor, raw) {
            Ok(rule) => rule,
            Err(fault) => return Err(fault),
        };
        let Ok(()) = rules.push(rule) else {
            return Err(Fault::NoMemory);
        };
    }
    Ok(rules)
}

/// The components of a design.
fn link_comps(
    alloc: Global,
    process: &Process,
    factor: u32,
    raws: List<RawComp>,
) -> Result<List<Comp>, Fault>
    requires factor { factor ≤ 20000 }
    requires cells { All CanStand process.now.macros }
    ensures { Links result (each (link_comp_of process.now.macros factor) raws) }
{
    let Ok(mut comps) = List::with_capacity(alloc, raws.len()) else {
        return Err(Fault::NoMemory);
    };
    for raw in raws.into_vec() {
        let comp = match link_comp(process, factor, raw) {
            Ok(comp) => comp,
            Err(refusal) => return Err(Fault::Refused(refusal)),
        };
        let Ok(()) = comps.push(comp) else {
            return Err(Fault::NoMemory);
        };
    }
    Ok(comps)
}

/// The die pins of a design.
fn link_pins(
    alloc: Global,
    process: &Process,
    factor: u32,
    raws: List<RawPin>,
) -> Result<List<Port>, Fault>
    requires { factor ≤ 20000 }
    ensures { Links result (each (link_pin_of process.now.layers factor) raws) }
{
    let Ok(mut ports) = List::with_capacity(alloc, raws.len()) else {
        return Err(Fault::NoMemory);
    };
    for raw in raws.into_vec() {
        let port = match link_pin(alloc, process, factor, raw) {
            Ok(port) => port,
            Err(fault) => return Err(fault),
        };
        let Ok(()) = ports.push(port) else {
            return Err(Fault::NoMemory);
        };
    }
    Ok(ports)
}

/// The entries of a design before its nets.
#[tactic(auto, unfolding(crate::specs::Layouts::link_lists))]
pub fn link_lists(
    alloc: Global,
    process: &Process,
    factor: u32,
    raw: RawLists,
) -> Result<Lists, Fault>
    requires factor { factor ≤ 20000 }
    requires made { All (λ via. IfSome via.made IsMade) raw.vias }
    requires cells { All CanStand process.now.macros }
    ensures { Links result (link_lists_of process.now factor raw) }
{
    let vias = match link_vias(alloc, process, factor, raw.vias) {
        Ok(vias) => vias,
        Err(fault) => return Err(fault),
    };
    let rules = match link_rules(alloc, process, factor, raw.rules) {
        Ok(rules) => rules,
        Err(fault) => return Err(fault),
    };
    let comps = match link_comps(alloc, process, factor, raw.comps) {
        Ok(comps) => comps,
        Err(fault) => return Err(fault),
    };
    let ports = match link_pins(alloc, process, factor, raw.pins) {
        Ok(ports) => ports,
        Err(fault) => return Err(fault),
    };
    Ok(Lists {
        vias,
        rules,
        comps,
        ports,
    })
}
