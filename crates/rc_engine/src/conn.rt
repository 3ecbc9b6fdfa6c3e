//! The connections of a net, as they stand in a SPEF value, and the die pins.

ghost use Rattle.std.specs.Prelude.{◌≡◌, ◌<◌, ◌^◌, map, option_map, slice_get, IfOk, Some};
ghost use Rattle.std.specs.List.{enumerate_from};
ghost use Rattle.std.specs.Option.{option_and_then};
ghost use Rattle.rc_engine.specs.Connections.{cell_of as cell_of_comp, conn_line, conn_lines, direction as direction_of, line_in, pin_end as pin_end_of, pin_line as pin_line_of, port_end as port_end_of, port_line as port_line_of, port_of};

use crate::any::push_any;
use crate::naming::{Naming, escaped};
use rc_fixed::{List, NoMemory};
use rc_layout::{Comp, Conn, Layout, Net, Port};
use rc_lef::{Dir, Macro, MacroPin};
use rc_spef::{Dir3, End, SpefConn, SpefPort, Sub, sub};
use std::alloc::Global;

/// A direction, as SPEF tells it.
fn direction(dir: Dir) -> Dir3
    ensures { result ≡ direction_of dir }
{
    match dir {
        Dir::I => Dir3::I,
        Dir::O => Dir3::O,
        Dir::B => Dir3::B,
    }
}

/// Where a pin of a component is an end.
fn pin_end(
    alloc: Global,
    layout: &Layout,
    naming: &Naming,
    comp: u32,
    pin: &[u8],
) -> Result<End, NoMemory>
    ensures { IfOk result (λ end. end ≡ pin_end_of layout.now.parts naming.now comp pin.now) }
{
    let word = escaped(alloc, layout, pin)?;
    Ok(End {
        name: naming.comp(comp),
        sub: sub(alloc, word.bytes())?,
    })
}

/// Where a die pin is an end.
fn port_end(naming: &Naming, port: u32) -> End
    requires { port < 2 ^ 20 }
    ensures { result ≡ port_end_of naming.now port }
{
    End {
        name: naming.port(port),
        sub: Sub::Bare,
    }
}

/// The line of a connection to a pin of a component.
fn pin_line(
    alloc: Global,
    layout: &Layout,
    naming: &Naming,
    comp: u32,
    cell: &Macro,
    pin: &MacroPin,
) -> Result<SpefConn, NoMemory>
    ensures { IfOk result (λ line. line ≡ pin_line_of layout.now.parts naming.now comp cell.now pin.now) }
{
    let end = pin_end(alloc, layout, naming, comp, pin.name.bytes())?;
    let cell = escaped(alloc, layout, cell.name.bytes())?;
    Ok(SpefConn {
        port: false,
        end,
        dir: direction(pin.dir),
        cell: Some(cell),
    })
}

/// The line of a connection to a die pin.
fn port_line(naming: &Naming, number: u32, port: &Port) -> SpefConn
    requires { number < 2 ^ 20 }
    ensures { result ≡ port_line_of naming.now number port.now }
{
    SpefConn {
        port: true,
        end: port_end(naming, number),
        dir: direction(port.dir),
        cell: None,
    }
}

/// The cell of a component.
fn cell_of<'a>(layout: &'a Layout, comp: &Comp) -> Option<&'a Macro>
    ensures { option_map (λ cell. cell.now) result ≡ cell_of_comp layout.now.parts comp.now }
{
    layout.tech().macros().get(comp.cell as usize)
}

/// The line of a connection to the pin of that number in a cell.
fn pin_line_in(
    alloc: Global,
    layout: &Layout,
    naming: &Naming,
    comp: u32,
    pin: u32,
    cell: &Macro,
) -> Result<Option<SpefConn>, NoMemory>
    ensures { IfOk result (λ line. line ≡ line_in layout.now.parts naming.now comp pin (Some cell.now)) }
{
    match cell.pins.items().get(pin as usize) {
        Some(pin) => Ok(Some(pin_line(alloc, layout, naming, comp, cell, pin)?)),
        None => Ok(None),
    }
}

/// The line of a connection to a pin of a component.
fn comp_line(
    alloc: Global,
    layout: &Layout,
    naming: &Naming,
    comp: u32,
    pin: u32,
) -> Result<Option<SpefConn>, NoMemory>
    ensures { IfOk result (λ line. line ≡ line_in layout.now.parts naming.now comp pin (option_and_then (cell_of_comp layout.now.parts) (slice_get layout.now.parts.comps comp))) }
{
    let Some(of) = layout.comps().get(comp as usize) else {
        return Ok(None);
    };
    match cell_of(layout, of) {
        Some(cell) => pin_line_in(alloc, layout, naming, comp, pin, cell),
        None => Ok(None),
    }
}

/// The line of a connection to a die pin.
fn die_pin_line(layout: &Layout, naming: &Naming, number: u32) -> Option<SpefConn>
    ensures { result ≡ option_map (port_line_of naming.now number) (slice_get layout.now.parts.ports number) }
{
    layout.facts();
    match layout.ports().get(number as usize) {
        Some(port) => Some(port_line(naming, number, port)),
        None => None,
    }
}

/// The line of a connection.
fn line_of(
    alloc: Global,
    layout: &Layout,
    naming: &Naming,
    conn: Conn,
) -> Result<Option<SpefConn>, NoMemory>
    ensures { IfOk result (λ line. line ≡ conn_line layout.now.parts naming.now conn) }
{
    match conn {
        Conn::Pin { comp, pin } => comp_line(alloc, layout, naming, comp, pin),
        Conn::Port { port } => Ok(die_pin_line(layout, naming, port)),
    }
}

/// The connections of a net, in its order.
///
/// # Errors
///
/// `NoMemory` for want of memory.
pub fn connections(
    alloc: Global,
    layout: &Layout,
    naming: &Naming,
    net: &Net,
) -> Result<List<SpefConn>, NoMemory>
    ensures { IfOk result (λ lines. lines ≡ conn_lines layout.now.parts naming.now net.now.conns) }
{
    let conns = net.conns.items();
    let mut lines = List::with_capacity(alloc, conns.len())?;
    for conn in conns {
        let line = line_of(alloc, layout, naming, *conn)?;
        push_any(&mut lines, line)?;
    }
    Ok(lines)
}

/// The die pins, in the order of the design.
///
/// # Errors
///
/// `NoMemory` for want of memory.
pub fn die_pins(alloc: Global, layout: &Layout, naming: &Naming) -> Result<List<SpefPort>, NoMemory>
    ensures { IfOk result (λ ports. ports ≡ map (port_of naming.now) (enumerate_from 0 layout.now.parts.ports)) }
{
    layout.facts();
    let ports = layout.ports();
    let mut lines = List::with_capacity(alloc, ports.len())?;
    for number in 0..ports.len() {
        lines.push(SpefPort {
            name: naming.port(number as u32),
            dir: direction(ports[number].dir),
        })?;
    }
    Ok(lines)
}
