//! Rectangles and vias of special nets.

ghost use Rattle.std.specs.Prelude.{◌≡◌, ◌≤◌, All};
ghost use Rattle.rc_layout.specs.Drawn.{lone_patch};
ghost use Rattle.rc_layout.specs.Entries.{link_special as link_special_of, with_rect, with_lone_via};
ghost use Rattle.rc_layout.specs.Paths.{near};
ghost use Rattle.rc_layout.specs.Ranges.{IsParts, IsPath};
ghost use Rattle.rc_layout.specs.Refusals.{Leaves, Links, through};
ghost use Rattle.rc_layout.specs.Units.{scaled_rect};
ghost use Rattle.rc_layout.specs.Wide.{as_rect};

use crate::draw::draw_paths;
use crate::item::{Item, ItemKind};
use crate::net::Net;
use crate::parts::Parts;
use crate::path::path_layer;
use crate::piece::too_far;
use crate::spot::{low_corner, spot};
use crate::via::usable;
use crate::wide::{WideRect, near_point, near_rect, scale_point};
use crate::wiring::Wiring;
use rc_def::RawNet;
use rc_fixed::{List, Text};
use rc_geom::{Orient, Pt, Rect};
use rc_keys::{Fault, Refusal};
use std::alloc::Global;

/// A rectangle of the design in units of the layout.
pub fn scale_rect(factor: u32, r: Rect) -> WideRect
    requires { factor ≤ 20000 }
    ensures { as_rect result ≡ scaled_rect factor r }
{
    let low = scale_point(factor, Pt { x: r.x0, y: r.y0 });
    let high = scale_point(factor, Pt { x: r.x1, y: r.y1 });
    WideRect {
        x0: low.x,
        y0: low.y,
        x1: high.x,
        y1: high.y,
    }
}

/// The patch of a rectangle that stands alone, where it lies within the coordinates of a layout.
fn lone(layer: u8, wide: WideRect) -> Result<Item, Refusal>
    ensures { result ≡ near (lone_patch layer (as_rect wide)) }
{
    let Some(rect) = near_rect(wide) else {
        return Err(too_far());
    };
    Ok(spot(ItemKind::Patch, layer, rect, low_corner(rect)))
}

impl Wiring {
    /// A rectangle of a special net.
    fn put_rect(&mut self, parts: &Parts, line: u32, entry: &(Text, Rect)) -> Result<(), Fault>
        requires { IsParts parts.now }
        ensures { Leaves result self.new (with_rect parts.now line self.old entry.now) }
    {
        let layer = match path_layer(&parts.tech, line, entry.0.bytes()) {
            Ok(layer) => layer,
            Err(refusal) => return Err(Fault::Refused(refusal)),
        };
        let item = match lone(layer, scale_rect(parts.factor, entry.1)) {
            Ok(item) => item,
            Err(refusal) => return Err(Fault::Refused(refusal)),
        };
        let Ok(()) = self.items.push(item) else {
            return Err(Fault::NoMemory);
        };
        Ok(())
    }

    /// A via of a special net.
    fn put_lone_via(
        &mut self,
        parts: &Parts,
        line: u32,
        entry: &(Text, Orient, Pt),
    ) -> Result<(), Fault>
        requires { IsParts parts.now }
        ensures { Leaves result self.new (with_lone_via parts.now line self.old entry.now) }
    {
        let (number, via) = match usable(&parts.vias, line, entry.0.bytes()) {
            Ok(found) => found,
            Err(refusal) => return Err(Fault::Refused(refusal)),
        };
        let Some(at) = near_point(scale_point(parts.factor, entry.2)) else {
            return Err(Fault::Refused(too_far()));
        };
        match self.put_via(number, via, entry.1, at) {
            Ok(()) => Ok(()),
            Err(fault) => Err(fault),
        }
    }

    /// The rectangles of a special net.
    fn put_rects(&mut self, parts: &Parts, line: u32, entries: &[(Text, Rect)]) -> Result<(), Fault>
        requires { IsParts parts.now }
        ensures { Leaves result self.new (through (with_rect parts.now line) self.old entries.now) }
    {
        for entry in entries {
            match self.put_rect(parts, line, entry) {
                Ok(()) => {}
                Err(fault) => return Err(fault),
            }
        }
        Ok(())
    }

    /// The vias of a special net.
    fn put_lone_vias(
        &mut self,
        parts: &Parts,
        line: u32,
        entries: &[(Text, Orient, Pt)],
    ) -> Result<(), Fault>
        requires { IsParts parts.now }
        ensures { Leaves result self.new (through (with_lone_via parts.now line) self.old entries.now) }
    {
        for entry in entries {
            match self.put_lone_via(parts, line, entry) {
                Ok(()) => {}
                Err(fault) => return Err(fault),
            }
        }
        Ok(())
    }
}

/// A special net: its paths, then its rectangles, then its vias.
#[tactic(auto, unfolding(crate::specs::Entries::link_special))]
pub fn link_special(alloc: Global, parts: &Parts, raw: &RawNet) -> Result<Net, Fault>
    requires parts { IsParts parts.now }
    requires paths { All IsPath raw.now.paths }
    ensures { Links result (link_special_of parts.now raw.now) }
{
    let mut drawn = match draw_paths(alloc, parts, None, raw.paths.items()) {
        Ok(drawn) => drawn,
        Err(fault) => return Err(fault),
    };
    match drawn.put_rects(parts, raw.line, raw.rects.items()) {
        Ok(()) => {}
        Err(fault) => return Err(fault),
    }
    match drawn.put_lone_vias(parts, raw.line, raw.vias.items()) {
        Ok(()) => {}
        Err(fault) => return Err(fault),
    }
    let Ok(name) = Text::from(alloc, raw.name.bytes()) else {
        return Err(Fault::NoMemory);
    };
    Ok(Net {
        name,
        line: raw.line,
        rule: None,
        conns: List::new(alloc),
        points: drawn.points,
        vias: drawn.vias,
        items: drawn.items,
    })
}
