//! The nodes of a net that lie in the rectangles of its pins.
ghost use Rattle.std.specs.Prelude.{◌≡◌, ◌≤◌, ◌<◌, ◌^◌, ◌++◌, [], Some, None, true, false, All, length, map, filter, slice_get, IfOk, IfSome, MatchOption, OnOk};
ghost use Rattle.std.specs.Option.{option_map_or};
ghost use Rattle.std.specs.List.{flat_map, enumerate_from};
ghost use Rattle.std.specs.List.Sorted.{IsPartitionPoint};
ghost use Rattle.rc_nodes.specs.Nodes.{AreInOrder, numbered};
ghost use Rattle.rc_nodes.specs.Contacts.{is_in as is_in_of, is_below as is_below_of, is_above as is_above_of, contacts_of, hits, pin_hits};
ghost use Rattle.rc_nodes.specs.Pins.{comp_rects, conn_rects, placed_rect as placed_rect_of, placed_rects, port_rects, rects_in, CanPlaceConn, CanPlaceIn, CanPlaceOf, CanPlacePin, CanPlaceRect};

use crate::Node;
use crate::pin::placed_rect;
use rc_fixed::NoMemory;
use rc_geom::{Orient, Pt, Rect};
use rc_layout::{Comp, Conn, Layout, Port};
use rc_lef::{Macro, MacroPin};
use std::alloc::Global;

/// A pin of a net, by its place among the connections, and a node that lies in one of its rectangles.
#[derive(Clone, Copy, Debug, PartialEq, Eq, PartialOrd, Ord)]
pub struct Contact {
    pub conn: u32,
    pub node: u32,
}

/// Whether a node stands before all that lie in a rectangle on a layer.
fn is_below(layer: u8, rect: Rect, node: &Node) -> bool
    ensures { result ≡ is_below_of layer rect node.now }
{
    node.layer < layer || (node.layer == layer && node.at.y < rect.y0)
}

/// Whether a node stands behind all that lie in a rectangle on a layer.
fn is_above(layer: u8, rect: Rect, node: &Node) -> bool
    ensures { result ≡ is_above_of layer rect node.now }
{
    layer < node.layer || (layer == node.layer && rect.y1 < node.at.y)
}

/// Whether a node lies in a closed rectangle on a layer.
fn is_in(layer: u8, rect: Rect, node: &Node) -> bool
    ensures { result ≡ is_in_of layer rect node.now }
{
    node.layer == layer
        && (rect.x0 <= node.at.x && node.at.x <= rect.x1)
        && (rect.y0 <= node.at.y && node.at.y <= rect.y1)
}

/// How many nodes stand before those that lie in a rectangle.
fn first_in(layer: u8, rect: Rect, nodes: &[Node]) -> usize
    requires { AreInOrder nodes.now }
    ensures bound { result ≤ length nodes.now }
    ensures parted { IsPartitionPoint (λ node. is_below_of layer rect node ≡ true) (λ node. is_below_of layer rect node ≡ false) nodes.now result }
{
    nodes.partition_point(|node| is_below(layer, rect, node))
}

/// Adds the nodes that lie in a rectangle of a pin.
fn add_hits(
    contacts: &mut Vec<Contact>,
    conn: u32,
    layer: u8,
    rect: Rect,
    nodes: &[Node],
) -> Result<(), NoMemory>
    requires order { AreInOrder nodes.now }
    requires few { length nodes.now ≤ 2 ^ 22 }
    ensures { OnOk result (contacts.new.items ≡ contacts.old.items ++ hits nodes.now conn (layer, rect)) }
{
    for k in first_in(layer, rect, nodes)..nodes.len() {
        let node = &nodes[k];
        if is_above(layer, rect, node) {
            return Ok(());
        }
        if is_in(layer, rect, node) {
            contacts.push(Contact {
                conn,
                node: k as u32 + 1,
            })?;
        }
    }
    Ok(())
}

/// Adds the nodes that lie in the rectangles of a pin.
fn add_pin(
    contacts: &mut Vec<Contact>,
    conn: u32,
    rects: &[(u8, Rect)],
    nodes: &[Node],
) -> Result<(), NoMemory>
    requires order { AreInOrder nodes.now }
    requires few { length nodes.now ≤ 2 ^ 22 }
    ensures { OnOk result (contacts.new.items ≡ contacts.old.items ++ pin_hits nodes.now (conn, rects.now)) }
{
    for (layer, rect) in rects {
        add_hits(contacts, conn, *layer, *rect, nodes)?;
    }
    Ok(())
}

/// Adds the nodes that lie in rectangles of a placed cell.
fn add_placed(
    contacts: &mut Vec<Contact>,
    conn: u32,
    cell: &Macro,
    at: Pt,
    o: Orient,
    drawn: &[(u8, Rect)],
    nodes: &[Node],
) -> Result<(), NoMemory>
    requires order { AreInOrder nodes.now }
    requires few { length nodes.now ≤ 2 ^ 22 }
    requires rects { All (λ rect. CanPlaceRect cell.now (at, o) rect.1) drawn.now }
    ensures { OnOk result (contacts.new.items ≡ contacts.old.items ++ pin_hits nodes.now (conn, map (placed_rect_of cell.now (at, o)) drawn.now)) }
{
    for k in 0..drawn.len() {
        let (layer, rect) = drawn[k];
        add_hits(contacts, conn, layer, placed_rect(cell, at, o, rect), nodes)?;
    }
    Ok(())
}

/// Adds the nodes that lie in the rectangles of a pin of a cell, where a component is placed.
fn add_placed_pin(
    contacts: &mut Vec<Contact>,
    conn: u32,
    cell: &Macro,
    place: Option<(Pt, Orient)>,
    pin: &MacroPin,
    nodes: &[Node],
) -> Result<(), NoMemory>
    requires order { AreInOrder nodes.now }
    requires few { length nodes.now ≤ 2 ^ 22 }
    requires place { CanPlacePin cell.now place pin.now }
    ensures { OnOk result (contacts.new.items ≡ contacts.old.items ++ pin_hits nodes.now (conn, placed_rects cell.now place pin.now)) }
{
    match place {
        None => Ok(()),
        Some((at, o)) => {
            add_placed(contacts, conn, cell, at, o, pin.rects.items(), nodes)?;
            Ok(())
        }
    }
}

/// The pin of a cell of that number.
fn pin_at(cell: &Macro, number: u32) -> Option<&MacroPin>
    ensures { MatchOption result (slice_get cell.now.pins number ≡ None) (λ pin. slice_get cell.now.pins number ≡ Some pin.now) }
{
    if number as usize >= cell.pins.len() {
        return None;
    }
    Some(&cell.pins.items()[number as usize])
}

/// Adds the nodes that lie in the rectangles of a numbered pin of a component's cell.
fn add_cell_pin(
    contacts: &mut Vec<Contact>,
    conn: u32,
    comp: &Comp,
    cell: &Macro,
    number: u32,
    nodes: &[Node],
) -> Result<(), NoMemory>
    requires order { AreInOrder nodes.now }
    requires few { length nodes.now ≤ 2 ^ 22 }
    requires place { IfSome (slice_get cell.now.pins number) (CanPlacePin cell.now comp.now.at) }
    ensures { OnOk result (contacts.new.items ≡ contacts.old.items ++ pin_hits nodes.now (conn, option_map_or (placed_rects cell.now comp.now.at) (slice_get cell.now.pins number) [])) }
{
    match pin_at(cell, number) {
        None => Ok(()),
        Some(pin) => {
            add_placed_pin(contacts, conn, cell, comp.at, pin, nodes)?;
            Ok(())
        }
    }
}

/// The cell of that number.
fn cell_at(cells: &[Macro], number: u32) -> Option<&Macro>
    ensures { MatchOption result (slice_get cells.now number ≡ None) (λ cell. slice_get cells.now number ≡ Some cell.now) }
{
    if number as usize >= cells.len() {
        return None;
    }
    Some(&cells[number as usize])
}

/// Adds the nodes that lie in the rectangles of a numbered pin of a component.
fn add_pin_of(
    contacts: &mut Vec<Contact>,
    conn: u32,
    cells: &[Macro],
    comp: &Comp,
    number: u32,
    nodes: &[Node],
) -> Result<(), NoMemory>
    requires order { AreInOrder nodes.now }
    requires few { length nodes.now ≤ 2 ^ 22 }
    requires place { CanPlaceIn comp.now (slice_get cells.now comp.now.cell) number }
    ensures { OnOk result (contacts.new.items ≡ contacts.old.items ++ pin_hits nodes.now (conn, rects_in comp.now (slice_get cells.now comp.now.cell) number)) }
{
    match cell_at(cells, comp.cell) {
        None => Ok(()),
        Some(cell) => {
            add_cell_pin(contacts, conn, comp, cell, number, nodes)?;
            Ok(())
        }
    }
}

/// The component of that number.
fn comp_at(comps: &[Comp], number: u32) -> Option<&Comp>
    ensures { MatchOption result (slice_get comps.now number ≡ None) (λ comp. slice_get comps.now number ≡ Some comp.now) }
{
    if number as usize >= comps.len() {
        return None;
    }
    Some(&comps[number as usize])
}

/// Adds the nodes that lie in the rectangles of a component's pin, both by their numbers.
fn add_comp_pin(
    contacts: &mut Vec<Contact>,
    conn: u32,
    cells: &[Macro],
    comps: &[Comp],
    comp: u32,
    number: u32,
    nodes: &[Node],
) -> Result<(), NoMemory>
    requires order { AreInOrder nodes.now }
    requires few { length nodes.now ≤ 2 ^ 22 }
    requires place { CanPlaceOf cells.now (slice_get comps.now comp) number }
    ensures { OnOk result (contacts.new.items ≡ contacts.old.items ++ pin_hits nodes.now (conn, comp_rects cells.now (slice_get comps.now comp) number)) }
{
    match comp_at(comps, comp) {
        None => Ok(()),
        Some(comp) => {
            add_pin_of(contacts, conn, cells, comp, number, nodes)?;
            Ok(())
        }
    }
}

/// The die pin of that number.
fn port_at(ports: &[Port], number: u32) -> Option<&Port>
    ensures { MatchOption result (slice_get ports.now number ≡ None) (λ port. slice_get ports.now number ≡ Some port.now) }
{
    if number as usize >= ports.len() {
        return None;
    }
    Some(&ports[number as usize])
}

/// Adds the nodes that lie in the rectangles of a die pin.
fn add_port(
    contacts: &mut Vec<Contact>,
    conn: u32,
    ports: &[Port],
    port: u32,
    nodes: &[Node],
) -> Result<(), NoMemory>
    requires order { AreInOrder nodes.now }
    requires few { length nodes.now ≤ 2 ^ 22 }
    ensures { OnOk result (contacts.new.items ≡ contacts.old.items ++ pin_hits nodes.now (conn, port_rects (slice_get ports.now port))) }
{
    match port_at(ports, port) {
        None => Ok(()),
        Some(port) => {
            add_pin(contacts, conn, port.rects.items(), nodes)?;
            Ok(())
        }
    }
}

/// Adds the nodes that lie in the rectangles of what a net connects.
fn add_conn(
    contacts: &mut Vec<Contact>,
    number: u32,
    layout: &Layout,
    conn: Conn,
    nodes: &[Node],
) -> Result<(), NoMemory>
    requires order { AreInOrder nodes.now }
    requires few { length nodes.now ≤ 2 ^ 22 }
    requires place { CanPlaceConn layout.now.parts conn }
    ensures { OnOk result (contacts.new.items ≡ contacts.old.items ++ pin_hits nodes.now (number, conn_rects layout.now.parts conn)) }
{
    match conn {
        Conn::Pin { comp, pin } => {
            let cells = layout.tech().macros();
            add_comp_pin(contacts, number, cells, layout.comps(), comp, pin, nodes)
        }
        Conn::Port { port } => add_port(contacts, number, layout.ports(), port, nodes),
    }
}

/// The nodes that lie in the rectangles of all that a net connects, one connection after another.
fn all_hits(
    alloc: Global,
    layout: &Layout,
    conns: &[Conn],
    nodes: &[Node],
) -> Result<Vec<Contact>, NoMemory>
    requires order { AreInOrder nodes.now }
    requires few { length nodes.now ≤ 2 ^ 22 }
    requires few_conns { length conns.now ≤ 2 ^ 30 }
    requires place { All (CanPlaceConn layout.now.parts) conns.now }
    ensures { IfOk result (λ contacts. contacts.items ≡ flat_map (pin_hits nodes.now) (enumerate_from 0 (map (conn_rects layout.now.parts) conns.now))) }
{
    let mut contacts = Vec::new(alloc);
    for k in 0..conns.len() as u32 {
        let conn = conns[k as usize];
        add_conn(&mut contacts, k, layout, conn, nodes)?;
    }
    Ok(contacts)
}

/// The contacts of what a net connects: one for each connection and node where the node lies in a closed rectangle of the
/// pin on its layer, by connection and then by node.
pub fn contacts(
    alloc: Global,
    layout: &Layout,
    conns: &[Conn],
    nodes: &[Node],
) -> Result<Vec<Contact>, NoMemory>
    requires order { AreInOrder nodes.now }
    requires few { length nodes.now ≤ 2 ^ 22 }
    requires few_conns { length conns.now ≤ 2 ^ 30 }
    requires place { All (CanPlaceConn layout.now.parts) conns.now }
    ensures { IfOk result (λ contacts. contacts.items ≡ contacts_of (map (conn_rects layout.now.parts) conns.now) nodes.now) }
{
    let mut found = all_hits(alloc, layout, conns, nodes)?;
    found.sort_unstable();
    found.dedup();
    Ok(found)
}
