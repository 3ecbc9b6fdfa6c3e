//! Vias of a design.

ghost use Rattle.std.specs.Prelude.{◌≡◌, ◌≤◌, ◌<◌, ◌^◌, Some, IfOk, IfSome, List as Elements, ℕ, unsigned_abs, map};
ghost use Rattle.rc_lef.specs.Usable.{unusable as unusable_of, IsModest};
ghost use Rattle.rc_layout.specs.Entries.{array_in as array_in_of, array_of as array_of_numbers, link_via as link_via_of, via_made, via_rect};
ghost use Rattle.rc_layout.specs.Refusals.{adds, each, after, Leaves, Links, through};
ghost use Rattle.rc_def.specs.Forms.{IsCount, IsMade};
ghost use Rattle.rc_wire.specs.Forms.{IsLength};
ghost use Rattle.rc_layout.specs.Sizes.{array_from as array_from_of, sizes_in as sizes_in_of, AreSizes};
ghost use Rattle.rc_layout.specs.Scope.{layer_named as layer_named_of};
ghost use Rattle.rc_layout.specs.Units.{scaled, scaled_rect};
ghost use Rattle.rc_layout.specs.Wide.{as_rect, brought as brought_of, brought_in, far_rect};

use crate::process::Process;
use crate::rule::layer_named;
use crate::special::scale_rect;
use crate::wide::{WideRect, near_rect, scale};
use rc_def::RawVia;
use rc_fixed::{List, NoMemory, Text};
use rc_geom::Rect;
use rc_keys::Fault;
use rc_lef::{Array, LayerKind, Via, drawn_via, made_via};
use std::alloc::Global;

/// A rectangle that lies too far out for a layout.
fn far() -> Rect
    ensures { result ≡ far_rect }
{
    Rect {
        x0: 536_870_913,
        y0: 0,
        x1: 536_870_913,
        y1: 0,
    }
}

/// The rectangle, or another that lies too far out for a layout where it does.
fn brought(wide: WideRect) -> Rect
    ensures { result ≡ brought_of (as_rect wide) }
{
    match near_rect(wide) {
        Some(rect) => rect,
        None => far(),
    }
}

/// A rectangle of a via joins the others.
fn put_rect(
    process: &Process,
    factor: u32,
    line: u32,
    rects: &mut List<(LayerKind, Rect)>,
    entry: &(Text, Rect),
) -> Result<(), Fault>
    requires { factor ≤ 20000 }
    ensures { Leaves result rects.new (adds (after brought_in (via_rect process.now.layers factor line)) rects.old entry.now) }
{
    let kind = match layer_named(process, line, entry.0.bytes()) {
        Ok(kind) => kind,
        Err(refusal) => return Err(Fault::Refused(refusal)),
    };
    let Ok(()) = rects.push((kind, brought(scale_rect(factor, entry.1)))) else {
        return Err(Fault::NoMemory);
    };
    Ok(())
}

/// The rectangles of a via join the others.
fn put_rects(
    process: &Process,
    factor: u32,
    line: u32,
    rects: &mut List<(LayerKind, Rect)>,
    entries: &[(Text, Rect)],
) -> Result<(), Fault>
    requires { factor ≤ 20000 }
    ensures { Leaves result rects.new (through (adds (after brought_in (via_rect process.now.layers factor line))) rects.old entries.now) }
{
    for entry in entries {
        match put_rect(process, factor, line, rects, entry) {
            Ok(()) => {}
            Err(fault) => return Err(fault),
        }
    }
    Ok(())
}

/// The kind of a layer joins the others.
fn put_kind(
    process: &Process,
    line: u32,
    kinds: &mut List<LayerKind>,
    name: &Text,
) -> Result<(), Fault>
    ensures { Leaves result kinds.new (adds (layer_named_of process.now.layers line) kinds.old name.now) }
{
    let kind = match layer_named(process, line, name.bytes()) {
        Ok(kind) => kind,
        Err(refusal) => return Err(Fault::Refused(refusal)),
    };
    let Ok(()) = kinds.push(kind) else {
        return Err(Fault::NoMemory);
    };
    Ok(())
}

/// The kinds of layers join the others.
fn put_kinds(
    process: &Process,
    line: u32,
    kinds: &mut List<LayerKind>,
    names: &[Text],
) -> Result<(), Fault>
    ensures { Leaves result kinds.new (through (adds (layer_named_of process.now.layers line)) kinds.old names.now) }
{
    for name in names {
        match put_kind(process, line, kinds, name) {
            Ok(()) => {}
            Err(fault) => return Err(fault),
        }
    }
    Ok(())
}

/// A length of the design in units of the layout.
fn length(factor: u32, z: i32) -> i64
    requires factor { factor ≤ 20000 }
    requires length { IsLength z }
    ensures is { result ≡ scaled factor z }
    ensures modest { unsigned_abs result ≤ 2 ^ 44 }
{
    scale(factor, z)
}

/// A via that can't be used.
fn unusable(alloc: Global, name: Text) -> Via
    ensures { result ≡ unusable_of name }
{
    Via {
        name,
        usable: false,
        lower: 0,
        cut: 0,
        upper: 0,
        cuts: 0,
        pads: List::new(alloc),
    }
}

/// The numbers of a via's array, as they are written.
#[derive(Clone, Copy, Debug, PartialEq, Eq)]
pub struct Sizes {
    pub cut_x: i32,
    pub cut_y: i32,
    pub space_x: i32,
    pub space_y: i32,
    pub first_x: i32,
    pub first_y: i32,
    pub third_x: i32,
    pub third_y: i32,
    pub rows: i32,
    pub columns: i32,
}

/// The ten numbers of an array.
fn sizes_in(numbers: &[i32]) -> Option<Sizes>
    ensures { result ≡ sizes_in_of numbers.now }
{
    match numbers {
        [cx, cy, sx, sy, bx, by, tx, ty, rows, columns] => Some(Sizes {
            cut_x: *cx,
            cut_y: *cy,
            space_x: *sx,
            space_y: *sy,
            first_x: *bx,
            first_y: *by,
            third_x: *tx,
            third_y: *ty,
            rows: *rows,
            columns: *columns,
        }),
        _ => None,
    }
}

/// A number of rows or columns.
fn count(z: i32) -> i64
    requires { IsCount z }
    ensures is { result ≡ z }
    ensures few { unsigned_abs result < 2 ^ 16 }
{
    i64::from(z)
}

/// The array, with its lengths in units of the layout.
fn array_from(factor: u32, sizes: &Sizes) -> Array
    requires factor { factor ≤ 20000 }
    requires sizes { AreSizes sizes.now }
    ensures is { result ≡ array_from_of factor sizes.now }
    ensures modest { IsModest result }
{
    Array {
        cut_x: length(factor, sizes.cut_x),
        cut_y: length(factor, sizes.cut_y),
        space_x: length(factor, sizes.space_x),
        space_y: length(factor, sizes.space_y),
        first_x: length(factor, sizes.first_x),
        first_y: length(factor, sizes.first_y),
        third_x: length(factor, sizes.third_x),
        third_y: length(factor, sizes.third_y),
        rows: count(sizes.rows),
        columns: count(sizes.columns),
    }
}

/// The array by its ten numbers.
fn array_of(factor: u32, numbers: &[i32]) -> Option<Array>
    requires factor { factor ≤ 20000 }
    requires made { IsMade numbers.now }
    ensures is { result ≡ array_of_numbers factor numbers.now }
    ensures modest { IfSome result IsModest }
{
    match sizes_in(numbers) {
        Some(sizes) => Some(array_from(factor, &sizes)),
        None => None,
    }
}

/// The array of a via, where it has one.
fn array_in(factor: u32, made: &Option<[i32; 10]>) -> Option<Array>
    requires factor { factor ≤ 20000 }
    requires made { IfSome made.now IsMade }
    ensures is { result ≡ array_in_of factor made.now }
    ensures modest { IfSome result IsModest }
{
    match made {
        Some(numbers) => array_of(factor, numbers),
        None => None,
    }
}

/// A via by its rectangles, or by its array where layers are named for it.
fn made(
    alloc: Global,
    raw: RawVia,
    rects: &[(LayerKind, Rect)],
    kinds: &[LayerKind],
    array: Option<Array>,
) -> Result<Via, NoMemory>
    requires { IfSome array IsModest }
    ensures { IfOk result (λ via. via ≡ via_made raw rects.now kinds.now array) }
{
    match kinds {
        [] => match array {
            None => drawn_via(alloc, raw.name, raw.plain, rects),
            Some(_) => Ok(unusable(alloc, raw.name)),
        },
        [first, cut, third] => match array {
            Some(array) => made_via(alloc, raw.name, raw.plain, (*first, *cut, *third), &array),
            None => Ok(unusable(alloc, raw.name)),
        },
        _ => Ok(unusable(alloc, raw.name)),
    }
}

/// A via of a design, with its rectangles or its array in units of the layout.
#[tactic(auto, unfolding(crate::specs::Entries::link_via))]
pub fn link_via(alloc: Global, process: &Process, factor: u32, raw: RawVia) -> Result<Via, Fault>
    requires factor { factor ≤ 20000 }
    requires made { IfSome raw.made IsMade }
    ensures { Links result (link_via_of process.now.layers factor raw) }
{
    let mut rects = List::new(alloc);
    match put_rects(process, factor, raw.line, &mut rects, raw.rects.items()) {
        Ok(()) => {}
        Err(fault) => return Err(fault),
    }
    let mut kinds = List::new(alloc);
    match put_kinds(process, raw.line, &mut kinds, raw.layers.items()) {
        Ok(()) => {}
        Err(fault) => return Err(fault),
    }
    let array = array_in(factor, &raw.made);
    match made(alloc, raw, rects.items(), kinds.items(), array) {
        Ok(via) => Ok(via),
        Err(_) => Err(Fault::NoMemory),
    }
}
