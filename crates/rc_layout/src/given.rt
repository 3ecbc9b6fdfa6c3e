//! What a design may name: its own entries, and those of the technology.

ghost use Rattle.std.specs.Prelude.{◌≡◌, ◌≤◌, ◌++◌, ◌∷◌, [], All, IfOk, IfSome, OnOk, map, true};
ghost use Rattle.rc_layout.specs.Names.{DifferInNames, HaveNames};
ghost use Rattle.rc_keys.specs.Tables.{are_new};
ghost use Rattle.rc_lef.specs.Technology.{name_of_rule as name_of_ndr, name_of_via};
ghost use Rattle.rc_def.specs.Forms.{IsMade};
ghost use Rattle.rc_layout.specs.Layouts.{factor_at, link_parts as link_parts_of, parts_of as parts_from, parts_with, rule_of as rule_from, tables_of as tables_from};
ghost use Rattle.rc_layout.specs.Refusals.{Links};

use crate::firsts::Firsts;
use crate::lists::{Head, Lists, RawLists, link_lists};
use crate::part::{Comp, Port, Rule};
use crate::parts::Parts;
use crate::process::Process;
use crate::via::refused;
use rc_fixed::{List, NoMemory, Text};
use rc_keys::{Code, Fault, Named, Refusal, Table};
use rc_lef::{Ndr, Tech, Via};
use std::alloc::Global;

/// How many units of the layout one of the design has.
fn factor_of(tech: &Tech, head: &Head) -> Result<u32, Refusal>
    requires { 1 ≤ head.now.units }
    ensures is { result ≡ factor_at tech.now head.now }
    ensures few { IfOk result (λ factor. factor ≤ 20000) }
{
    let Some(m) = tech.m() else {
        return Err(refused(Code::E08, head.units_line));
    };
    if m % head.units != 0 {
        return Err(refused(Code::E08, head.units_line));
    }
    Ok(m / head.units)
}

/// A copy of a via.
fn copied_via(alloc: Global, via: &Via) -> Result<Via, NoMemory>
    ensures { IfOk result (λ copy. copy ≡ via.now) }
{
    let name = Text::from(alloc, via.name.bytes())?;
    let pads = List::from_vec(Vec::from_slice(alloc, via.pads.items())?);
    Ok(Via {
        name,
        usable: via.usable,
        lower: via.lower,
        cut: via.cut,
        upper: via.upper,
        cuts: via.cuts,
        pads,
    })
}

/// Copies of vias.
fn copied_vias(alloc: Global, vias: &[Via]) -> Result<List<Via>, NoMemory>
    ensures { IfOk result (λ copies. copies ≡ vias.now) }
{
    let mut copies = List::with_capacity(alloc, vias.len())?;
    for via in vias {
        copies.push(copied_via(alloc, via)?)?;
    }
    Ok(copies)
}

/// Copies of widths, with room for wide ones.
fn copied_widths(alloc: Global, widths: &[(u8, i32)]) -> Result<List<(u8, i64)>, NoMemory>
    ensures { IfOk result (λ copies. copies ≡ widths.now) }
{
    let mut copies = List::with_capacity(alloc, widths.len())?;
    for width in widths {
        copies.push((width.0, i64::from(width.1)))?;
    }
    Ok(copies)
}

/// A nondefault rule of the technology.
fn rule_of(alloc: Global, ndr: &Ndr) -> Result<Rule, NoMemory>
    ensures { IfOk result (λ rule. rule ≡ rule_from ndr.now) }
{
    let name = Text::from(alloc, ndr.name.bytes())?;
    let widths = copied_widths(alloc, ndr.widths.items())?;
    Ok(Rule { name, widths })
}

/// The nondefault rules of the technology.
fn rules_of(alloc: Global, ndrs: &[Ndr]) -> Result<List<Rule>, NoMemory>
    ensures { IfOk result (λ rules. rules ≡ map rule_from ndrs.now) }
{
    let mut rules = List::with_capacity(alloc, ndrs.len())?;
    for ndr in ndrs {
        rules.push(rule_of(alloc, ndr)?)?;
    }
    Ok(rules)
}

/// A table of things of different names.
pub fn table_of<T: Named + Drop>(alloc: Global, items: List<T>) -> Result<Table<T>, NoMemory>
    requires { are_new T.called [] items ≡ true }
    ensures { IfOk result (λ table. table ≡ items) }
{
    let mut table = Table::new(alloc);
    table.append(items)?;
    Ok(table)
}

/// The vias of a design, and then those of the technology.
fn all_vias(alloc: Global, process: &Process, own: List<Via>) -> Result<Firsts<Via>, NoMemory>
    requires own { are_new (λ via. via.name) [] own ≡ true }
    requires tech { are_new name_of_via [] process.now.vias ≡ true }
    ensures { IfOk result (λ vias. vias ≡ own ++ process.now.vias) }
{
    let Ok(others) = copied_vias(alloc, process.tech().vias()) else {
        return Err(NoMemory);
    };
    Firsts::new(alloc, own, others)
}

/// The nondefault rules of a design, and then those of the technology.
fn all_rules(alloc: Global, process: &Process, own: List<Rule>) -> Result<Firsts<Rule>, NoMemory>
    requires own { are_new (λ rule. rule.name) [] own ≡ true }
    requires tech { are_new name_of_ndr [] process.now.rules ≡ true }
    ensures { IfOk result (λ rules. rules ≡ own ++ map rule_from process.now.rules) }
{
    let Ok(others) = rules_of(alloc, process.tech().rules()) else {
        return Err(NoMemory);
    };
    Firsts::new(alloc, own, others)
}

/// Lets a value go.
pub fn discard<T: Drop>(_value: T) {}

/// What entries link to, found by name, with what the technology has.
#[derive(Drop)]
pub struct Tables {
    pub vias: Firsts<Via>,
    pub rules: Firsts<Rule>,
    pub comps: Table<Comp>,
    pub ports: Table<Port>,
}

/// What entries link to, found by name, with what the technology has.
fn tables_of(alloc: Global, process: &Process, lists: Lists) -> Result<Tables, NoMemory>
    requires names { HaveNames lists }
    requires vias { are_new name_of_via [] process.now.vias ≡ true }
    requires rules { are_new name_of_ndr [] process.now.rules ≡ true }
    ensures { IfOk result (λ tables. tables ≡ tables_from process.now lists) }
{
    let Lists {
        vias,
        rules,
        comps,
        ports,
    } = lists;
    let Ok(vias) = all_vias(alloc, process, vias) else {
        discard(rules);
        discard(comps);
        discard(ports);
        return Err(NoMemory);
    };
    let Ok(rules) = all_rules(alloc, process, rules) else {
        discard(vias);
        discard(comps);
        discard(ports);
        return Err(NoMemory);
    };
    let Ok(comps) = table_of(alloc, comps) else {
        discard(vias);
        discard(rules);
        discard(ports);
        return Err(NoMemory);
    };
    let Ok(ports) = table_of(alloc, ports) else {
        discard(vias);
        discard(rules);
        discard(comps);
        return Err(NoMemory);
    };
    Ok(Tables {
        vias,
        rules,
        comps,
        ports,
    })
}

/// All that nets may name, by its pieces.
fn joined(process: Process, factor: u32, head: Head, tables: Tables) -> Parts
    ensures { result ≡ parts_with process factor head tables }
{
    Parts {
        tech: process,
        factor,
        design: head.design,
        divider: head.divider,
        bus_left: head.bus_left,
        bus_right: head.bus_right,
        vias: tables.vias,
        rules: tables.rules,
        comps: tables.comps,
        ports: tables.ports,
    }
}

/// All that nets may name.
fn parts_of(
    alloc: Global,
    process: Process,
    factor: u32,
    head: Head,
    lists: Lists,
) -> Result<Parts, NoMemory>
    requires names { HaveNames lists }
    requires vias { are_new name_of_via [] process.vias ≡ true }
    requires rules { are_new name_of_ndr [] process.rules ≡ true }
    ensures { IfOk result (λ parts. parts ≡ parts_from process factor head lists) }
{
    let Ok(tables) = tables_of(alloc, &process, lists) else {
        discard(process);
        discard(head);
        return Err(NoMemory);
    };
    Ok(joined(process, factor, head, tables))
}

/// All that nets may name: what a design has beside its nets, and the technology.
#[tactic(auto, unfolding(crate::specs::Layouts::link_parts))]
pub fn link_parts(alloc: Global, tech: Tech, head: Head, raw: RawLists) -> Result<Parts, Fault>
    requires units { 1 ≤ head.units }
    requires made { All (λ via. IfSome via.made IsMade) raw.vias }
    requires names { DifferInNames raw }
    ensures { Links result (link_parts_of tech head raw) }
{
    tech.facts();
    let factor = match factor_of(&tech, &head) {
        Ok(factor) => factor,
        Err(refusal) => {
            discard(tech);
            discard(head);
            discard(raw);
            return Err(Fault::Refused(refusal));
        }
    };
    let process = Process::new(tech);
    let lists = match link_lists(alloc, &process, factor, raw) {
        Ok(lists) => lists,
        Err(fault) => {
            discard(process);
            discard(head);
            return Err(fault);
        }
    };
    match parts_of(alloc, process, factor, head, lists) {
        Ok(parts) => Ok(parts),
        Err(_) => Err(Fault::NoMemory),
    }
}
