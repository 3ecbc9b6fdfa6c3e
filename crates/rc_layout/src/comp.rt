//! Components of a design.

ghost use Rattle.std.specs.Prelude.{◌≡◌, ◌≤◌, ◌<◌, ◌^◌, ◌+ℤ◌, ◌&&◌, All, Ok, Err, length, IfOk, MatchResult};
ghost use Rattle.std.specs.List.{list_all};
ghost use Rattle.std.specs.Str.{bytes_eq};
ghost use Rattle.rc_geom.specs.Bounds.{is_within};
ghost use Rattle.rc_geom.specs.Orients.{placed_rect as placed_rect_of, CanPlace, CanTurn};
ghost use Rattle.rc_keys.specs.declared.code.Code.TheVariants.{E06};
ghost use Rattle.rc_keys.specs.declared.fault.Refusal.TheVariants.{At};
ghost use Rattle.rc_layout.specs.Entries.{cell_rect, fits_at as fits_at_of, link_comp as link_comp_of, link_place as link_place_of};
ghost use Rattle.rc_layout.specs.Items.{IsPoint};
ghost use Rattle.rc_layout.specs.Ranges.{CanStand, HasNearRects};
ghost use Rattle.rc_layout.specs.Refusals.{there, Links};
ghost use Rattle.rc_layout.specs.Scope.{numbered};
ghost use Rattle.rc_layout.specs.Wide.{as_rect, HasCoordinates};

use crate::part::Comp;
use crate::piece::too_far;
use crate::process::Process;
use crate::spot::{high_corner, low_corner, moved, spanned};
use crate::via::refused;
use crate::wide::{WideRect, near_point, near_rect, scale_point};
use rc_def::RawComp;
use rc_geom::{Orient, Pt, Rect, place};
use rc_keys::{Code, Refusal};
use rc_lef::{Macro, MacroPin};

/// The rectangle, moved, where neither lies far out.
fn shifted(by: Pt, r: Rect) -> Rect
    requires by { IsPoint by }
    requires rect { HasCoordinates r }
    ensures x0 { result.x0 ≡ by.x +ℤ r.x0 }
    ensures y0 { result.y0 ≡ by.y +ℤ r.y0 }
    ensures x1 { result.x1 ≡ by.x +ℤ r.x1 }
    ensures y1 { result.y1 ≡ by.y +ℤ r.y1 }
    ensures low { CanTurn (record { x = result.x0; y = result.y0 }) }
    ensures high { CanTurn (record { x = result.x1; y = result.y1 }) }
{
    Rect {
        x0: by.x + r.x0,
        y0: by.y + r.y0,
        x1: by.x + r.x1,
        y1: by.y + r.y1,
    }
}

/// The rectangle of a cell, turned with it.
fn placed(cell: &Macro, o: Orient, r: Rect) -> Rect
    requires cell { CanStand cell.now }
    requires low { CanTurn (record { x = r.x0; y = r.y0 }) }
    requires high { CanTurn (record { x = r.x1; y = r.y1 }) }
    ensures { result ≡ placed_rect_of o cell.now.w cell.now.h r }
{
    spanned(
        place(o, cell.w, cell.h, low_corner(r)),
        place(o, cell.w, cell.h, high_corner(r)),
    )
}

/// Whether a rectangle lies within the coordinates of a layout.
fn lies_near(wide: WideRect) -> bool
    ensures { result ≡ is_within (as_rect wide) }
{
    near_rect(wide).is_some()
}

/// Whether a rectangle of a cell lies within the coordinates of a layout when the cell stands there.
fn fits_rect(cell: &Macro, o: Orient, at: Pt, rect: Rect) -> bool
    requires cell { CanStand cell.now }
    requires rect { HasCoordinates rect }
    ensures { result ≡ is_within (cell_rect cell.now o at rect) }
{
    lies_near(moved(at, placed(cell, o, shifted(cell.origin, rect))))
}

/// Whether all of these rectangles do.
fn fits_rects(cell: &Macro, o: Orient, at: Pt, rects: &[(u8, Rect)]) -> bool
    requires cell { CanStand cell.now }
    requires rects { All (λ rect. HasCoordinates rect.1) rects.now }
    ensures { result ≡ list_all (λ rect. is_within (cell_rect cell.now o at rect.1)) rects.now }
{
    match rects {
        [] => true,
        [first, others @ ..] => {
            fits_rect(cell, o, at, first.1) && fits_rects(cell, o, at, others)
        }
    }
}

/// Whether all rectangles of a pin do.
fn fits_pin(cell: &Macro, o: Orient, at: Pt, pin: &MacroPin) -> bool
    requires cell { CanStand cell.now }
    requires pin { HasNearRects pin.now }
    ensures { result ≡ list_all (λ rect. is_within (cell_rect cell.now o at rect.1)) pin.now.rects }
{
    fits_rects(cell, o, at, pin.rects.items())
}

/// Whether all rectangles of pins do.
fn fits_pins(cell: &Macro, o: Orient, at: Pt, pins: &[MacroPin]) -> bool
    requires cell { CanStand cell.now }
    requires pins { All HasNearRects pins.now }
    ensures { result ≡ list_all (λ pin. list_all (λ rect. is_within (cell_rect cell.now o at rect.1)) pin.rects) pins.now }
{
    match pins {
        [] => true,
        [first, others @ ..] => { fits_pin(cell, o, at, first) && fits_pins(cell, o, at, others) }
    }
}

/// Whether all rectangles of the cell's pins lie within the coordinates of a layout when the cell stands there.
fn fits_at(cell: &Macro, o: Orient, at: Pt) -> bool
    requires { CanStand cell.now }
    ensures { result ≡ fits_at_of cell.now o at }
{
    fits_pins(cell, o, at, cell.pins.items())
}

/// Where a component is placed.
fn link_place(
    factor: u32,
    cell: &Macro,
    at: Option<(Pt, Orient)>,
) -> Result<Option<(Pt, Orient)>, Refusal>
    requires factor { factor ≤ 20000 }
    requires cell { CanStand cell.now }
    ensures { result ≡ link_place_of factor cell.now at }
{
    let Some((at, o)) = at else {
        return Ok(None);
    };
    let Some(near) = near_point(scale_point(factor, at)) else {
        return Err(too_far());
    };
    if !fits_at(cell, o, near) {
        return Err(too_far());
    }
    Ok(Some((near, o)))
}

/// The cell of that name, with its number.
fn cell_named<'a>(process: &'a Process, line: u32, name: &[u8]) -> Result<(u32, &'a Macro), Refusal>
    requires { All CanStand process.now.macros }
    ensures cell { IfOk result (λ found. CanStand found.1.now) }
    ensures is { MatchResult result (λ found. there (At E06 line) (numbered (λ cell. bytes_eq name.now cell.name) process.now.macros) ≡ Ok (found.0, found.1.now)) (λ refusal. there (At E06 line) (numbered (λ cell. bytes_eq name.now cell.name) process.now.macros) ≡ Err refusal) }
{
    let Some(place) = process.tech().cell(name) else {
        return Err(refused(Code::E06, line));
    };
    let Some(cell) = process.tech().macros().get(place as usize) else {
        return Err(refused(Code::E06, line));
    };
    Ok((place, cell))
}

/// A component of a design.
#[tactic(auto, unfolding(crate::specs::Entries::link_comp))]
pub fn link_comp(process: &Process, factor: u32, raw: RawComp) -> Result<Comp, Refusal>
    requires factor { factor ≤ 20000 }
    requires cells { All CanStand process.now.macros }
    ensures { result ≡ link_comp_of process.now.macros factor raw }
{
    let (cell, found) = match cell_named(process, raw.line, raw.cell.bytes()) {
        Ok(found) => found,
        Err(refusal) => return Err(refusal),
    };
    match link_place(factor, found, raw.at) {
        Ok(at) => Ok(Comp {
            name: raw.name,
            cell,
            at,
        }),
        Err(refusal) => Err(refusal),
    }
}
