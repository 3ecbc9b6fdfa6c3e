//! Connections of a net.

ghost use Rattle.std.specs.Prelude.{◌≡◌, ◌≤◌, ◌<◌, ◌^◌, All, Ok, Err, Some, length, position, slice_get, IfOk, IfSome, OnOk};
ghost use Rattle.std.specs.Option.{option_copied};
ghost use Rattle.rc_lef.specs.declared.cell.Macro.{Macro};
ghost use Rattle.std.specs.Str.{bytes_eq};
ghost use Rattle.rc_layout.specs.Entries.{at_first as at_first_of, link_conn as link_conn_of, pin_conn as pin_conn_of, pin_in as pin_in_of, port_conn as port_conn_of, same_conn as same_conn_of};
ghost use Rattle.rc_layout.specs.declared.net.Conn.{Conn as ConnOf};
ghost use Rattle.rc_layout.specs.Ranges.{IsParts};
ghost use Rattle.rc_layout.specs.Refusals.{adds, Leaves, Links, through};

use crate::net::Conn;
use crate::parts::Parts;
use crate::via::refused;
use indexmap::IndexSet;
use rc_fixed::{List, NoMemory, Text};
use rc_keys::{Code, Fault, Refusal};
use rc_lef::{Macro, MacroPin};
use std::alloc::Global;

/// The die pin of that name.
fn port_conn(parts: &Parts, line: u32, name: &[u8]) -> Result<Conn, Refusal>
    requires { IsParts parts.now }
    ensures { result ≡ port_conn_of parts.now line name.now }
{
    match parts.ports.place(name) {
        Some(place) => Ok(Conn::Port { port: place as u32 }),
        None => Err(refused(Code::E06, line)),
    }
}

fn pin_place(pins: &[MacroPin], name: &[u8]) -> Option<usize>
    ensures place { result ≡ position (λ pin. bytes_eq name.now pin.name) pins.now }
    ensures within { IfSome result (λ place. place < length pins.now) }
{
    pins.iter().position(|pin| name == pin.name.bytes())
}

/// The cell of that number.
fn cell_at(cells: &[Macro], cell: u32) -> Option<&Macro>
    requires { All (λ (cell : Macro). length cell.pins ≤ 2 ^ 30) cells.now }
    ensures is { option_copied result ≡ slice_get cells.now cell }
    ensures few { IfSome result (λ found. length found.now.pins ≤ 2 ^ 30) }
{
    let Some(found) = cells.get(cell as usize) else {
        return None;
    };
    Some(found)
}

/// The pin of that name in a cell.
fn pin_of(cell: &Macro, name: &[u8]) -> Option<u32>
    requires { length cell.now.pins ≤ 2 ^ 30 }
    ensures { result ≡ pin_in_of (Some cell.now) name.now }
{
    match pin_place(cell.pins.items(), name) {
        Some(place) => Some(place as u32),
        None => None,
    }
}

/// The pin of that name in a cell by its number.
fn pin_in(parts: &Parts, cell: u32, name: &[u8]) -> Option<u32>
    requires { IsParts parts.now }
    ensures { result ≡ pin_in_of (slice_get parts.now.tech.macros cell) name.now }
{
    let Some(cell) = cell_at(parts.tech.tech().macros(), cell) else {
        return None;
    };
    pin_of(cell, name)
}

/// The pin of a component.
fn pin_conn(parts: &Parts, line: u32, comp: &[u8], pin: &[u8]) -> Result<Conn, Refusal>
    requires { IsParts parts.now }
    ensures { result ≡ pin_conn_of parts.now line comp.now pin.now }
{
    let Some(place) = parts.comps.place(comp) else {
        return Err(refused(Code::E06, line));
    };
    let Some(found) = parts.comps.items().get(place) else {
        return Err(refused(Code::E06, line));
    };
    match pin_in(parts, found.cell, pin) {
        Some(pin) => Ok(Conn::Pin {
            comp: place as u32,
            pin,
        }),
        None => Err(refused(Code::E06, line)),
    }
}

/// A connection: a component and a pin of it, or PIN and a die pin.
#[tactic(auto, unfolding(crate::specs::Entries::link_conn))]
pub fn link_conn(parts: &Parts, line: u32, entry: &(Text, Text)) -> Result<Conn, Refusal>
    requires { IsParts parts.now }
    ensures { result ≡ link_conn_of parts.now line entry.now }
{
    if entry.0.bytes() == b"PIN".as_slice() {
        port_conn(parts, line, entry.1.bytes())
    } else {
        pin_conn(parts, line, entry.0.bytes(), entry.1.bytes())
    }
}

/// A connection joins the others.
fn put_conn(
    parts: &Parts,
    line: u32,
    conns: &mut List<Conn>,
    entry: &(Text, Text),
) -> Result<(), Fault>
    requires { IsParts parts.now }
    ensures { Leaves result conns.new (adds (link_conn_of parts.now line) conns.old entry.now) }
{
    let conn = match link_conn(parts, line, entry) {
        Ok(conn) => conn,
        Err(refusal) => return Err(Fault::Refused(refusal)),
    };
    let Ok(()) = conns.push(conn) else {
        return Err(Fault::NoMemory);
    };
    Ok(())
}

/// The connections of a net join the others.
pub fn put_conns(
    parts: &Parts,
    line: u32,
    conns: &mut List<Conn>,
    entries: &[(Text, Text)],
) -> Result<(), Fault>
    requires { IsParts parts.now }
    ensures { Leaves result conns.new (through (adds (link_conn_of parts.now line)) conns.old entries.now) }
{
    for entry in entries {
        match put_conn(parts, line, conns, entry) {
            Ok(()) => {}
            Err(fault) => return Err(fault),
        }
    }
    Ok(())
}

/// Two connections are equal exactly where they are the same. Nothing is computed here.
fn equal_are_same()
    ensures { (a : ConnOf) → (b : ConnOf) → ⟦<Conn as PartialEq>⟧.eq a b ≡ same_conn_of a b }
{}

/// The connections without those that stand again.
pub fn at_first(alloc: Global, conns: &[Conn]) -> Result<List<Conn>, NoMemory>
    ensures { IfOk result (λ first. first ≡ at_first_of conns.now) }
{
    equal_are_same();
    let mut seen: IndexSet<Conn> = IndexSet::new(alloc);
    for conn in conns {
        let Ok(_) = seen.insert(*conn) else {
            return Err(NoMemory);
        };
    }
    Ok(List::from_vec(Vec::from_slice(alloc, seen.as_slice())?))
}
