//! Die pins of a design.

ghost use Rattle.std.specs.Prelude.{◌≡◌, ◌≤◌, true, false, All, is_some, MatchOption, OnOk};
ghost use Rattle.rc_layout.specs.Entries.{direction as direction_of, link_pin as link_pin_of, with_port, with_port_rect, with_placed, with_placed_rect};
ghost use Rattle.rc_layout.specs.Refusals.{Leaves, Links, through};
ghost use Rattle.rc_geom.specs.Bounds.{is_within};
ghost use Rattle.rc_layout.specs.Units.{moved as moved_of, scaled_rect, turned_rect as turned_rect_of};
ghost use Rattle.rc_layout.specs.Wide.{HasCoordinates};

use crate::part::Port;
use crate::piece::too_far;
use crate::process::Process;
use crate::rule::layer_named;
use crate::special::scale_rect;
use crate::spot::{moved, turned_rect};
use crate::wide::{near_point, near_rect, scale_point};
use rc_def::{RawPin, RawPort};
use rc_fixed::{List, Text};
use rc_geom::{Orient, Pt, Rect};
use rc_keys::Fault;
use rc_lef::{Dir, LayerKind};
use std::alloc::Global;

/// A rectangle of a port joins the others, where it lies on a routing layer and the port is placed.
fn put_port_rect(
    process: &Process,
    factor: u32,
    line: u32,
    is_placed: bool,
    rects: &mut List<(u8, Rect)>,
    entry: &(Text, Rect),
) -> Result<(), Fault>
    requires factor { factor ≤ 20000 }
    requires near { All (λ rect. HasCoordinates rect.1) rects.old }
    ensures near { OnOk result (All (λ rect. HasCoordinates rect.1) rects.new) }
    ensures is { Leaves result rects.new (with_port_rect process.now.layers factor line is_placed rects.old entry.now) }
{
    let kind = match layer_named(process, line, entry.0.bytes()) {
        Ok(kind) => kind,
        Err(refusal) => return Err(Fault::Refused(refusal)),
    };
    if !is_placed {
        return Ok(());
    }
    let LayerKind::Routing(number) = kind else {
        return Ok(());
    };
    let Some(rect) = near_rect(scale_rect(factor, entry.1)) else {
        return Err(Fault::Refused(too_far()));
    };
    let Ok(()) = rects.push((number, rect)) else {
        return Err(Fault::NoMemory);
    };
    Ok(())
}

/// The rectangles of a port join the others.
fn put_port_rects(
    process: &Process,
    factor: u32,
    line: u32,
    is_placed: bool,
    rects: &mut List<(u8, Rect)>,
    entries: &[(Text, Rect)],
) -> Result<(), Fault>
    requires factor { factor ≤ 20000 }
    requires near { All (λ rect. HasCoordinates rect.1) rects.old }
    ensures near { OnOk result (All (λ rect. HasCoordinates rect.1) rects.new) }
    ensures is { Leaves result rects.new (through (with_port_rect process.now.layers factor line is_placed) rects.old entries.now) }
{
    for entry in entries {
        match put_port_rect(process, factor, line, is_placed, rects, entry) {
            Ok(()) => {}
            Err(fault) => return Err(fault),
        }
    }
    Ok(())
}

/// The rectangle, turned and moved, where it then lies within the coordinates of a layout.
fn stands_at(at: Pt, o: Orient, rect: Rect) -> Option<Rect>
    requires { HasCoordinates rect }
    ensures { MatchOption result (is_within (moved_of at (turned_rect_of o rect)) ≡ false) (λ there. (there ≡ moved_of at (turned_rect_of o rect)) × (is_within (moved_of at (turned_rect_of o rect)) ≡ true)) }
{
    near_rect(moved(at, turned_rect(o, rect)))
}

/// A rectangle of a port joins the placed ones, turned and moved.
fn put_placed_rect(
    at: Pt,
    o: Orient,
    done: &mut List<(u8, Rect)>,
    layer: u8,
    rect: Rect,
) -> Result<(), Fault>
    requires { HasCoordinates rect }
    ensures { Leaves result done.new (with_placed_rect at o done.old (layer, rect)) }
{
    let Some(there) = stands_at(at, o, rect) else {
        return Err(Fault::Refused(too_far()));
    };
    let Ok(()) = done.push((layer, there)) else {
        return Err(Fault::NoMemory);
    };
    Ok(())
}

/// The rectangles of a port join the placed ones.
fn put_placed_rects(
    at: Pt,
    o: Orient,
    done: &mut List<(u8, Rect)>,
    rects: &[(u8, Rect)],
) -> Result<(), Fault>
    requires { All (λ rect. HasCoordinates rect.1) rects.now }
    ensures { Leaves result done.new (through (with_placed_rect at o) done.old rects.now) }
{
    for rect in rects {
        match put_placed_rect(at, o, done, rect.0, rect.1) {
            Ok(()) => {}
            Err(fault) => return Err(fault),
        }
    }
    Ok(())
}

/// The rectangles of a port join the placed ones, where it is placed.
fn put_placed(
    factor: u32,
    at: Option<(Pt, Orient)>,
    done: &mut List<(u8, Rect)>,
    rects: &[(u8, Rect)],
) -> Result<(), Fault>
    requires factor { factor ≤ 20000 }
    requires near { All (λ rect. HasCoordinates rect.1) rects.now }
    ensures { Leaves result done.new (with_placed factor at done.old rects.now) }
{
    let Some((at, o)) = at else {
        return Ok(());
    };
    let Some(near) = near_point(scale_point(factor, at)) else {
        return Err(Fault::Refused(too_far()));
    };
    match put_placed_rects(near, o, done, rects) {
        Ok(()) => Ok(()),
        Err(fault) => Err(fault),
    }
}

/// A port of a die pin.
fn put_port(
    alloc: Global,
    process: &Process,
    factor: u32,
    line: u32,
    done: &mut List<(u8, Rect)>,
    port: &RawPort,
) -> Result<(), Fault>
    requires { factor ≤ 20000 }
    ensures { Leaves result done.new (with_port process.now.layers factor line done.old port.now) }
{
    let mut rects = List::new(alloc);
    let is_placed = port.at.is_some();
    match put_port_rects(
        process,
        factor,
        line,
        is_placed,
        &mut rects,
        port.rects.items(),
    ) {
        Ok(()) => {}
        Err(fault) => return Err(fault),
    }
    match put_placed(factor, port.at, done, rects.items()) {
        Ok(()) => Ok(()),
        Err(fault) => Err(fault),
    }
}

/// The ports of a die pin.
fn put_ports(
    alloc: Global,
    process: &Process,
    factor: u32,
    line: u32,
    done: &mut List<(u8, Rect)>,
    ports: &[RawPort],
) -> Result<(), Fault>
    requires { factor ≤ 20000 }
    ensures { Leaves result done.new (through (with_port process.now.layers factor line) done.old ports.now) }
{
    for port in ports {
        match put_port(alloc, process, factor, line, done, port) {
            Ok(()) => {}
            Err(fault) => return Err(fault),
        }
    }
    Ok(())
}

/// The direction that a letter says.
fn direction(letter: u8) -> Dir
    ensures { result ≡ direction_of letter }
{
    match letter {
        b'I' => Dir::I,
        b'O' => Dir::O,
        _ => Dir::B,
    }
}

/// A die pin of a design, with its rectangles where they are placed.
#[tactic(auto, unfolding(crate::specs::Entries::link_pin))]
pub fn link_pin(alloc: Global, process: &Process, factor: u32, raw: RawPin) -> Result<Port, Fault>
    requires { factor ≤ 20000 }
    ensures { Links result (link_pin_of process.now.layers factor raw) }
{
    let mut rects = List::new(alloc);
    match put_ports(
        alloc,
        process,
        factor,
        raw.line,
        &mut rects,
        raw.ports.items(),
    ) {
        Ok(()) => {}
        Err(fault) => return Err(fault),
    }
    Ok(Port {
        name: raw.name,
        dir: direction(raw.dir),
        rects,
    })
}
