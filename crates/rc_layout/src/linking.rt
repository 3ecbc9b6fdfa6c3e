//! Linking.

ghost use Rattle.std.specs.Prelude.{◌≡◌, ◌≤◌, ◌^◌, [], true, All, OnOk, length};
ghost use Rattle.rc_def.specs.Forms.{IsRawDesign};
ghost use Rattle.rc_layout.specs.Entries.{link_special as link_special_of};
ghost use Rattle.rc_def.specs.Drafts.{name_of_net};
ghost use Rattle.rc_keys.specs.Tables.{are_new};
ghost use Rattle.rc_layout.specs.Layouts.{linked, nets_linked};
ghost use Rattle.rc_layout.specs.Ranges.{IsParts, IsPath};
ghost use Rattle.rc_layout.specs.Refusals.{each, Links};

use crate::given::{discard, link_parts, table_of};
use crate::layout::Layout;
use crate::lists::{Head, RawLists};
use crate::net::Net;
use crate::parts::Parts;
use crate::special::link_special;
use crate::wired::Wired;
use rc_def::{RawDesign, RawNet};
use rc_fixed::{List, NoMemory};
use rc_keys::Fault;
use rc_lef::Tech;
use std::alloc::Global;

/// How many components, and how many die pins, can be named by numbers of 32 bits. No text that is read has as many.
const MOST_NAMED: usize = 1 << 31;

/// Whether the components and die pins can be named: where there are too many, there is no memory for them.
fn can_name(raw: &RawDesign) -> Result<(), NoMemory>
    ensures comps { OnOk result (length raw.now.comps ≤ 2 ^ 31) }
    ensures pins { OnOk result (length raw.now.pins ≤ 2 ^ 31) }
{
    if raw.comps.len() > MOST_NAMED {
        return Err(NoMemory);
    }
    if raw.pins.len() > MOST_NAMED {
        return Err(NoMemory);
    }
    Ok(())
}

/// The special nets.
fn link_specials(alloc: Global, parts: &Parts, raws: &[RawNet]) -> Result<List<Net>, Fault>
    requires parts { IsParts parts.now }
    requires paths { All (λ raw. All IsPath raw.paths) raws.now }
    ensures { Links result (each (link_special_of parts.now) raws.now) }
{
    let Ok(mut nets) = List::with_capacity(alloc, raws.len()) else {
        return Err(Fault::NoMemory);
    };
    for raw in raws {
        let net = match link_special(alloc, parts, raw) {
            Ok(net) => net,
            Err(fault) => return Err(fault),
        };
        let Ok(()) = nets.push(net) else {
            return Err(Fault::NoMemory);
        };
    }
    Ok(nets)
}

/// The nets of a design, over what they may name.
fn link_nets(
    alloc: Global,
    parts: Parts,
    specials: List<RawNet>,
    nets: List<RawNet>,
) -> Result<Wired, Fault>
    requires parts { IsParts parts }
    requires names { are_new name_of_net [] specials ≡ true }
    requires specials { All (λ raw. All IsPath raw.paths) specials }
    requires nets { All (λ raw. All IsPath raw.paths) nets }
    ensures { Links result (nets_linked parts specials nets) }
{
    let Ok(specials) = table_of(alloc, specials) else {
        discard(parts);
        discard(nets);
        return Err(Fault::NoMemory);
    };
    let grounded = match link_specials(alloc, &parts, specials.items()) {
        Ok(grounded) => grounded,
        Err(fault) => {
            discard(parts);
            discard(specials);
            discard(nets);
            return Err(fault);
        }
    };
    let mut wired = Wired {
        parts,
        nets: List::new(alloc),
        grounded,
    };
    match wired.add_nets(alloc, &specials, nets) {
        Ok(()) => {
            discard(specials);
            Ok(wired)
        }
        Err(fault) => {
            discard(specials);
            discard(wired);
            Err(fault)
        }
    }
}

/// Links a design to the layout of its nets: what each path draws, in units of 1/M micron, the points that it goes through,
/// and what each net connects.
///
/// # Errors
///
/// The first refusal: E08 at the UNITS line; then E04, E06, E09, E10, E15 or `Limit { Coords }` of a via, a nondefault rule,
/// a component, a die pin, a special net or a net, in this order and each in the order of the text; then the limits Nets,
/// Comps, Pins and Shapes. Or `NoMemory` for want of memory.
pub fn link(alloc: Global, tech: Tech, raw: RawDesign) -> Result<Layout, Fault>
    requires { IsRawDesign raw }
    ensures { Links result (linked tech raw) }
{
    let Ok(()) = can_name(&raw) else {
        discard(tech);
        discard(raw);
        return Err(Fault::NoMemory);
    };
    tech.facts();
    let RawDesign {
        design,
        divider,
        bus_left,
        bus_right,
        units,
        units_line,
        vias,
        rules,
        comps,
        pins,
        specials,
        nets,
    } = raw;
    let head = Head {
        design,
        divider,
        bus_left,
        bus_right,
        units,
        units_line,
    };
    let lists = RawLists {
        vias,
        rules,
        comps,
        pins,
    };
    let parts = match link_parts(alloc, tech, head, lists) {
        Ok(parts) => parts,
        Err(fault) => {
            discard(specials);
            discard(nets);
            return Err(fault);
        }
    };
    let wired = match link_nets(alloc, parts, specials, nets) {
        Ok(wired) => wired,
        Err(fault) => return Err(fault),
    };
    match Layout::within_limits(wired) {
        Ok(layout) => Ok(layout),
        Err(refusal) => Err(Fault::Refused(refusal)),
    }
}
