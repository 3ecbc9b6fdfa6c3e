//! What the connections and options of nets say, and the nets that they make.

ghost use Rattle.std.specs.Prelude.{◌≡◌, ◌++◌, ◌∷◌, [], OnOk, IfOk};
ghost use Rattle.rc_wire.specs.Paths.{orient_of as orient_of_key};
ghost use Rattle.rc_def.specs.Drafts.{no_net};
ghost use Rattle.rc_def.specs.Means as means;
ghost use Rattle.rc_def.specs.Parts.{first as first_of, with_rect};

use crate::draft::NetDraft;
use crate::list::put_rect;
use crate::raw_net::RawNet;
use rc_fixed::{List, NoMemory, Text};
use rc_geom::{Orient, Pt, Rect};
use rc_wire::{Key, RawPath, fitted, orient_of};
use std::alloc::Global;
use std::mem;

/// Whether a use is that of a supply.
fn is_power(key: Key) -> bool
    ensures { result ≡ means.is_power key }
{
    matches!(key, Key::Power | Key::Ground)
}

impl NetDraft {
    /// ( c p )
    pub fn with_connection(&mut self, comp: Text, pin: Text) -> Result<(), NoMemory>
        ensures { OnOk result (self.new ≡ record self.old { conns = self.old.conns ++ (comp, pin) ∷ [] }) }
    {
        self.conns.push((comp, pin))
    }

    /// NONDEFAULTRULE r
    pub fn with_rule(&mut self, rule: Text)
        ensures { self.new ≡ record self.old { rule = first_of self.old.rule (Some rule) } }
    {
        if self.rule.is_none() {
            self.rule = Some(rule);
        }
    }

    /// USE u
    pub fn with_use(&mut self, chosen: Key)
        ensures { self.new ≡ record self.old { power = first_of self.old.power (Some (means.is_power chosen)) } }
    {
        if self.power.is_none() {
            self.power = Some(is_power(chosen));
        }
    }

    /// RECT l pt pt
    pub fn with_net_rect(&mut self, layer: Text, rect: Option<Rect>) -> Result<(), NoMemory>
        ensures { OnOk result (self.new ≡ record self.old { rects = with_rect layer rect self.old.rects }) }
    {
        put_rect(&mut self.rects, layer, rect)
    }

    /// VIA v
    pub fn begins_vias(&mut self, via: Text)
        ensures { self.new ≡ record self.old { via = via; orient = Orient.N } }
    {
        self.via = via;
        self.orient = Orient::N;
    }

    /// The orientation of vias at points.
    pub fn turned(&mut self, chosen: Key)
        ensures { self.new ≡ record self.old { orient = orient_of_key chosen } }
    {
        self.orient = orient_of(chosen);
    }

    /// A via at a point.
    pub fn with_via(&mut self, alloc: Global, at: Option<Pt>) -> Result<(), NoMemory>
        ensures { OnOk result (self.new ≡ means.with_via_at at self.old) }
    {
        let Some(at) = at else {
            return Ok(());
        };
        let via = Text::from(alloc, self.via.bytes())?;
        self.vias.push((via, self.orient, at))
    }

    /// Further paths.
    pub fn with_paths(&mut self, paths: List<RawPath>) -> Result<(), NoMemory>
        ensures { OnOk result (self.new ≡ record self.old { paths = self.old.paths ++ paths }) }
    {
        if self.paths.is_empty() {
            self.paths = paths;
            return Ok(());
        }
        let mut paths = paths;
        self.paths.append(&mut paths)
    }

    /// No connections and no options, as `new` makes it. The memory of lists stays.
    pub fn clear(&mut self, alloc: Global)
        ensures { self.new ≡ no_net }
    {
        self.power = None;
        self.rule = None;
        self.conns.clear();
        self.paths.clear();
        self.rects.clear();
        self.vias.clear();
        self.via = Text::new(alloc);
        self.orient = Orient::N;
    }

    /// The net of these connections and options, of which none are left.
    #[tactic(auto, unfolding(crate::specs::Means::net_of))]
    pub fn finish(&mut self, alloc: Global, name: Text, line: u32) -> Result<RawNet, NoMemory>
        ensures net { IfOk result (λ net. net ≡ means.net_of name line self.old) }
        ensures left { OnOk result (self.new ≡ no_net) }
    {
        let conns = fitted(alloc, &mut self.conns)?;
        let rects = fitted(alloc, &mut self.rects)?;
        let vias = fitted(alloc, &mut self.vias)?;
        let net = RawNet {
            name,
            line,
            power: matches!(self.power, Some(true)),
            rule: mem::replace(&mut self.rule, None),
            conns,
            paths: mem::replace(&mut self.paths, List::new(alloc)),
            rects,
            vias,
        };
        self.clear(alloc);
        Ok(net)
    }
}
