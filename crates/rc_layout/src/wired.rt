//! Nets of a design.

ghost use Rattle.std.specs.Prelude.{◌≡◌, All, None, Some, IfOk, OnOk};
ghost use Rattle.rc_layout.specs.Layouts.{joined_at, net_added, net_linked as net_linked_of};
ghost use Rattle.rc_layout.specs.Ranges.{IsParts, IsPath};
ghost use Rattle.rc_layout.specs.Refusals.{Leaves, through};

use crate::net::Net;
use crate::parts::Parts;
use crate::signal::link_net;
use crate::via::refused;
use rc_def::RawNet;
use rc_fixed::{List, NoMemory};
use rc_keys::{Code, Fault, Table};
use std::alloc::Global;

/// Nets, and grounded nets, over what they may name.
#[derive(Drop)]
pub struct Wired {
    pub parts: Parts,
    pub nets: List<Net>,
    pub grounded: List<Net>,
}

/// The items of a net join those of the grounded net at that place, behind its own.
fn join_at(alloc: Global, grounded: &mut List<Net>, place: usize, net: Net) -> Result<(), NoMemory>
    ensures { OnOk result (grounded.new ≡ joined_at place net grounded.old) }
{
    if place >= grounded.len() {
        return Ok(());
    }
    let mut items = net.items;
    let bare = Net {
        name: net.name,
        line: net.line,
        rule: net.rule,
        conns: net.conns,
        points: net.points,
        vias: net.vias,
        items: List::new(alloc),
    };
    let mut old = grounded.swap(place, bare);
    old.items.append(&mut items)?;
    let _bare = grounded.swap(place, old);
    Ok(())
}

impl Wired {
    /// A net of its own is linked.
    fn add_own(&mut self, alloc: Global, raw: RawNet) -> Result<(), Fault>
        requires parts { IsParts self.old.parts }
        requires paths { All IsPath raw.paths }
        ensures parts { OnOk result (self.new.parts ≡ self.old.parts) }
        ensures is { Leaves result self.new (net_added None self.old raw) }
    {
        let net = match link_net(alloc, &self.parts, raw) {
            Ok(net) => net,
            Err(fault) => return Err(fault),
        };
        let Ok(()) = self.nets.push(net) else {
            return Err(Fault::NoMemory);
        };
        Ok(())
    }

    /// A net of the name of a special net is linked.
    fn add_supply(
        &mut self,
        alloc: Global,
        place: usize,
        special: &RawNet,
        raw: RawNet,
    ) -> Result<(), Fault>
        requires parts { IsParts self.old.parts }
        requires paths { All IsPath raw.paths }
        ensures parts { OnOk result (self.new.parts ≡ self.old.parts) }
        ensures is { Leaves result self.new (net_added (Some (place, special.now)) self.old raw) }
    {
        if !special.power {
            return Err(Fault::Refused(refused(Code::E15, raw.line)));
        }
        let net = match link_net(alloc, &self.parts, raw) {
            Ok(net) => net,
            Err(fault) => return Err(fault),
        };
        let Ok(()) = join_at(alloc, &mut self.grounded, place, net) else {
            return Err(Fault::NoMemory);
        };
        Ok(())
    }

    /// A net that isn't special is linked.
    #[tactic(auto, unfolding(crate::specs::Layouts::net_linked))]
    fn add_net(&mut self, alloc: Global, specials: &Table<RawNet>, raw: RawNet) -> Result<(), Fault>
        requires parts { IsParts self.old.parts }
        requires paths { All IsPath raw.paths }
        ensures parts { OnOk result (self.new.parts ≡ self.old.parts) }
        ensures is { Leaves result self.new (net_linked_of specials.now self.old raw) }
    {
        let Some(place) = specials.place(raw.name.bytes()) else {
            return self.add_own(alloc, raw);
        };
        let Some(special) = specials.items().get(place) else {
            return self.add_own(alloc, raw);
        };
        self.add_supply(alloc, place, special, raw)
    }

    /// The nets that aren't special are linked.
    pub fn add_nets(
        &mut self,
        alloc: Global,
        specials: &Table<RawNet>,
        raws: List<RawNet>,
    ) -> Result<(), Fault>
        requires parts { IsParts self.old.parts }
        requires paths { All (λ raw. All IsPath raw.paths) raws }
        ensures { Leaves result self.new (through (net_linked_of specials.now) self.old raws) }
    {
        for raw in raws.into_vec() {
            match self.add_net(alloc, specials, raw) {
                Ok(()) => {}
                Err(fault) => return Err(fault),
            }
        }
        Ok(())
    }
}
