//! The resistors of a net.
ghost use Rattle.std.specs.Prelude.{◌≡◌, ◌<◌, ◌≤◌, ◌^◌, ◌++◌, ◌-ℤ◌, unsigned_abs, Some, All, map, length, IfOk, OnOk};
ghost use Rattle.rc_layout.specs.Nets.{IsWellFormed};
ghost use Rattle.rc_rules.specs.RuleFile.{HasRules};
ghost use Rattle.rc_nodes.specs.Nodes.{AreInOrder};
ghost use Rattle.rc_nodes.specs.Resistors.{contact_resistor as contact_resistor_of, distance as distance_of, node_of, resistors_of, via_resistor as via_resistor_of, via_value as via_value_of, wire_resistor as wire_resistor_of, CanRate};

use crate::Node;
use crate::contact::{Contact, contacts};
use crate::line::Lines;
use crate::link::{ViaLink, via_links};
use crate::wire::{Wire, wires};
use rc_fixed::{List, NoMemory};
use rc_geom::Pt;
use rc_layout::{Layout, Net};
use rc_lef::Via;
use rc_rules::Rules;
use std::alloc::Global;

/// Where a resistor ends.
#[derive(Clone, Copy, Debug, PartialEq, Eq)]
pub enum ResEnd {
    /// In a node, by its number.
    Node(u32),
    /// In a connection of the net, by its place among them.
    Conn(u32),
}

/// A resistor from a node, by its number, to another node or a connection. Its value is in 10^-15 ohm.
#[derive(Clone, Copy, Debug, PartialEq, Eq)]
pub struct Res {
    pub a: u32,
    pub b: ResEnd,
    pub value: u128,
}

/// How far a coordinate is from another.
fn apart(from: i32, to: i32) -> u64
    ensures is { result ≡ unsigned_abs (to -ℤ from) }
    ensures bound { result < 2 ^ 33 }
{
    (i64::from(to) - i64::from(from)).unsigned_abs()
}

/// How far a point is from another, along both axes.
fn distance(p: Pt, q: Pt) -> u64
    ensures is { result ≡ distance_of p q }
    ensures bound { result < 2 ^ 34 }
{
    let across = apart(p.x, q.x);
    let along = apart(p.y, q.y);
    across + along
}

/// The node of a number.
fn node_at(nodes: &[Node], number: u32) -> Node
    requires some { 1 ≤ number }
    requires within { number ≤ length nodes.now }
    ensures { result ≡ node_of nodes.now number }
{
    nodes[number as usize - 1]
}

/// The resistor of a wire.
fn wire_resistor(rules: &Rules, nodes: &[Node], wire: &Wire) -> Res
    requires { CanRate rules.now nodes.now wire.now }
    ensures { result ≡ wire_resistor_of rules.now nodes.now wire.now }
{
    let lower = node_at(nodes, wire.lower);
    let upper = node_at(nodes, wire.upper);
    let length = distance(lower.at, upper.at);
    let ohm = rules.ohm(lower.layer, wire.width);
    Res {
        a: wire.lower,
        b: ResEnd::Node(wire.upper),
        value: u128::from(length) * ohm,
    }
}

/// Adds the resistors of wires.
fn add_wires(
    all: &mut List<Res>,
    rules: &Rules,
    nodes: &[Node],
    wires: &[Wire],
) -> Result<(), NoMemory>
    requires { All (CanRate rules.now nodes.now) wires.now }
    ensures { OnOk result (all.new ≡ all.old ++ map (wire_resistor_of rules.now nodes.now) wires.now) }
{
    for k in 0..wires.len() {
        all.push(wire_resistor(rules, nodes, &wires[k]))?;
    }
    Ok(())
}

/// The resistance of a via: that of one cut, parted among its cuts and rounded down; 0 where the rules have none for the cut.
fn via_value(rules: &Rules, via: &Via) -> u128
    ensures { result ≡ via_value_of rules.now (Some via.now) }
{
    let Some(cut) = rules.via_ohm(via.cut) else {
        return 0;
    };
    if via.cuts == 0 {
        return 0;
    }
    cut / u128::from(via.cuts)
}

/// The resistor of a placed via.
fn via_resistor(rules: &Rules, vias: &[Via], link: &ViaLink) -> Res
    ensures { result ≡ via_resistor_of rules.now vias.now link.now }
{
    let value = match vias.get(link.via as usize) {
        Some(via) => via_value(rules, via),
        None => 0,
    };
    Res {
        a: link.lower,
        b: ResEnd::Node(link.upper),
        value,
    }
}

/// Adds the resistors of placed vias.
fn add_links(
    all: &mut List<Res>,
    rules: &Rules,
    vias: &[Via],
    links: &[ViaLink],
) -> Result<(), NoMemory>
    ensures { OnOk result (all.new ≡ all.old ++ map (via_resistor_of rules.now vias.now) links.now) }
{
    for link in links {
        all.push(via_resistor(rules, vias, link))?;
    }
    Ok(())
}

/// The resistor of a contact.
fn contact_resistor(rules: &Rules, contact: &Contact) -> Res
    ensures { result ≡ contact_resistor_of rules.now contact.now }
{
    Res {
        a: contact.node,
        b: ResEnd::Conn(contact.conn),
        value: rules.contact(),
    }
}

/// Adds the resistors of contacts.
fn add_contacts(all: &mut List<Res>, rules: &Rules, contacts: &[Contact]) -> Result<(), NoMemory>
    ensures { OnOk result (all.new ≡ all.old ++ map (contact_resistor_of rules.now) contacts.now) }
{
    for contact in contacts {
        all.push(contact_resistor(rules, contact))?;
    }
    Ok(())
}

/// The resistors of a net of the layout, whose nodes these are: first its wires, one for each two neighbouring nodes on a
/// line that a piece covers, with the length times the resistance of the greatest width that is drawn there; then its vias,
/// one for each different via and point, with a cut's value parted among the cuts and rounded down at 10^-15 ohm; then its
/// contacts, one for each connection and node where the node lies in a closed rectangle of the pin on its layer. Wires and
/// vias stand by the lower node, the upper node and the via, contacts by the connection and the node.
///
/// # Errors
///
/// `NoMemory` for want of memory.
pub fn resistors(
    alloc: Global,
    layout: &Layout,
    net: &Net,
    nodes: &[Node],
    rules: &Rules,
) -> Result<List<Res>, NoMemory>
    requires net { IsWellFormed net.now }
    requires order { AreInOrder nodes.now }
    requires few { length nodes.now ≤ 2 ^ 22 }
    requires rules { All (λ item. HasRules rules.now item.layer) net.now.items }
    ensures { IfOk result (λ all. all ≡ resistors_of layout.now.parts rules.now net.now nodes.now) }
{
    layout.facts();
    let lines = Lines::new(alloc, nodes)?;
    let wires = wires(alloc, net.items.items(), nodes, &lines)?;
    let links = via_links(alloc, nodes, layout.vias(), net.vias.items())?;
    let contacts = contacts(alloc, layout, net.conns.items(), nodes)?;
    let mut all = List::new(alloc);
    add_wires(&mut all, rules, nodes, wires.items())?;
    add_links(&mut all, rules, layout.vias(), &links)?;
    add_contacts(&mut all, rules, &contacts)?;
    Ok(all)
}
