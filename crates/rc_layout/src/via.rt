//! Vias of paths.

ghost use Rattle.std.specs.Prelude.{◌≡◌, ◌<◌, ◌≤◌, ◌^◌, ◌||◌, ◌==◌, if◌then◌else◌, ◌++◌, ◌∷◌, [], All, Ok, Err, length, IfOk, OnOk, MatchResult};
ghost use Rattle.rc_layout.specs.Paths.{with_pad, with_via, via_drawn};
ghost use Rattle.rc_layout.specs.Scope.{usable_via};
ghost use Rattle.rc_layout.specs.Refusals.{Leaves, through};
ghost use Rattle.rc_layout.specs.Wide.{HasCoordinates, HasNearPads, IsNearVia};

use crate::firsts::Firsts;
use crate::spot::pad;
use crate::wiring::{Pen, Wiring};
use rc_fixed::NoMemory;
use rc_geom::{Orient, Pt, Rect};
use rc_keys::{Code, Fault, Refusal};
use rc_lef::Via;

/// The refusal of an entry.
pub fn refused(code: Code, line: u32) -> Refusal
    ensures { result ≡ Refusal.At code line }
{
    Refusal::At { code, line }
}

/// The via of that name, with its number; it has to be usable.
#[tactic(auto, unfolding(crate::specs::Scope::usable_via))]
pub fn usable<'a>(vias: &'a Firsts<Via>, line: u32, name: &[u8]) -> Result<(u32, &'a Via), Refusal>
    requires few { length vias.now ≤ 2 ^ 31 }
    requires pads { All IsNearVia vias.now }
    ensures near { IfOk result (λ found. HasNearPads found.1.now) }
    ensures is { MatchResult result (λ found. usable_via vias.now line name.now ≡ Ok (found.0, found.1.now)) (λ refusal. usable_via vias.now line name.now ≡ Err refusal) }
{
    let Some(place) = vias.place(name) else {
        return Err(refused(Code::E06, line));
    };
    let Some(via) = vias.items().get(place) else {
        return Err(refused(Code::E06, line));
    };
    if !via.usable {
        return Err(refused(Code::E04, line));
    }
    Ok((place as u32, via))
}

impl Wiring {
    /// A pad of a via at a point.
    fn put_pad(&mut self, orient: Orient, at: Pt, layer: u8, rect: Rect) -> Result<(), Fault>
        requires { HasCoordinates rect }
        ensures { Leaves result self.new (with_pad orient at self.old (layer, rect)) }
    {
        let item = match pad(orient, at, layer, rect) {
            Ok(item) => item,
            Err(refusal) => return Err(Fault::Refused(refusal)),
        };
        let Ok(()) = self.items.push(item) else {
            return Err(Fault::NoMemory);
        };
        Ok(())
    }

    /// The pads of a via at a point.
    fn put_pads(&mut self, orient: Orient, at: Pt, pads: &[(u8, Rect)]) -> Result<(), Fault>
        requires { All (λ pad. HasCoordinates pad.1) pads.now }
        ensures { Leaves result self.new (through (with_pad orient at) self.old pads.now) }
    {
        for pad in pads {
            match self.put_pad(orient, at, pad.0, pad.1) {
                Ok(()) => {}
                Err(fault) => return Err(fault),
            }
        }
        Ok(())
    }

    /// Both ends of a via, and its number.
    fn put_ends(&mut self, number: u32, via: &Via, at: Pt) -> Result<(), NoMemory>
        ensures { OnOk result (self.new ≡ record self.old { points = self.old.points ++ (via.now.lower, at) ∷ (via.now.upper, at) ∷ []; vias = self.old.vias ++ (number, at) ∷ [] }) }
    {
        self.points.push((via.lower, at))?;
        self.points.push((via.upper, at))?;
        self.vias.push((number, at))?;
        Ok(())
    }

    /// A via at a point.
    pub fn put_via(&mut self, number: u32, via: &Via, orient: Orient, at: Pt) -> Result<(), Fault>
        requires { HasNearPads via.now }
        ensures { Leaves result self.new (with_via (number, via.now) orient at self.old) }
    {
        let Ok(()) = self.put_ends(number, via, at) else {
            return Err(Fault::NoMemory);
        };
        match self.put_pads(orient, at, via.pads.items()) {
            Ok(()) => Ok(()),
            Err(fault) => Err(fault),
        }
    }
}

fn other_end(via: &Via, layer: u8) -> u8
    ensures { result ≡ (if layer == via.now.lower then via.now.upper else via.now.lower) }
{
    if layer == via.lower {
        via.upper
    } else {
        via.lower
    }
}

fn has_layer(via: &Via, layer: u8) -> bool
    ensures { result ≡ ((layer == via.now.lower) || (layer == via.now.upper)) }
{
    layer == via.lower || layer == via.upper
}

impl Pen {
    /// A via at the last point of a path.
    #[tactic(auto, unfolding(crate::specs::Paths::via_drawn))]
    pub fn pierce(
        &mut self,
        line: u32,
        vias: &Firsts<Via>,
        name: &[u8],
        orient: Orient,
    ) -> Result<(), Fault>
        requires few { length vias.now ≤ 2 ^ 31 }
        requires pads { All IsNearVia vias.now }
        ensures stop { OnOk result (self.new.stop ≡ self.old.stop) }
        ensures is { Leaves result self.new (via_drawn line vias.now self.old name.now orient) }
    {
        let (number, via) = match usable(vias, line, name) {
            Ok(found) => found,
            Err(refusal) => return Err(Fault::Refused(refusal)),
        };
        if !has_layer(via, self.layer) {
            return Err(Fault::Refused(refused(Code::E10, line)));
        }
        match self.drawn.put_via(number, via, orient, self.stop.at) {
            Ok(()) => {}
            Err(fault) => return Err(fault),
        }
        self.layer = other_end(via, self.layer);
        Ok(())
    }
}
