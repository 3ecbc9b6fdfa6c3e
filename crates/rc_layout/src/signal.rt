//! Nets that aren't special.

ghost use Rattle.std.specs.Prelude.{◌≡◌, All};
ghost use Rattle.rc_layout.specs.Entries.{link_net as link_net_of};
ghost use Rattle.rc_layout.specs.Ranges.{IsParts, IsPath};
ghost use Rattle.rc_layout.specs.Refusals.{Links};

use crate::conn::{at_first, put_conns};
use crate::draw::draw_paths;
use crate::edit::net_rule;
use crate::net::Net;
use crate::parts::Parts;
use rc_def::RawNet;
use rc_fixed::List;
use rc_keys::Fault;
use std::alloc::Global;

/// A net that isn't special: its rule, its connections, its paths.
#[tactic(auto, unfolding(crate::specs::Entries::link_net))]
pub fn link_net(alloc: Global, parts: &Parts, raw: RawNet) -> Result<Net, Fault>
    requires parts { IsParts parts.now }
    requires paths { All IsPath raw.paths }
    ensures { Links result (link_net_of parts.now raw) }
{
    let rule = match net_rule(parts, raw.line, &raw.rule) {
        Ok(rule) => rule,
        Err(refusal) => return Err(Fault::Refused(refusal)),
    };
    let mut conns = List::new(alloc);
    match put_conns(parts, raw.line, &mut conns, raw.conns.items()) {
        Ok(()) => {}
        Err(fault) => return Err(fault),
    }
    let drawn = match draw_paths(alloc, parts, rule, raw.paths.items()) {
        Ok(drawn) => drawn,
        Err(fault) => return Err(fault),
    };
    let Ok(conns) = at_first(alloc, conns.items()) else {
        return Err(Fault::NoMemory);
    };
    Ok(Net {
        name: raw.name,
        line: raw.line,
        rule: raw.rule,
        conns,
        points: drawn.points,
        vias: drawn.vias,
        items: drawn.items,
    })
}
