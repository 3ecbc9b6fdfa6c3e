//! The technology.

ghost use Rattle.std.specs.Prelude.{◌≡◌, ◌<◌, ◌≤◌, ◌^◌, ◌++◌, [], None, true, length, position, option_map, IfSome, OnOk, OnErr};
ghost use Rattle.std.specs.List.{list_any};
ghost use Rattle.std.specs.Str.{bytes_eq};
ghost use Rattle.rc_lef.specs.Facts.{IsSound};
ghost use Rattle.rc_lef.specs.Technology.{with_more};
ghost use Rattle.rc_lef.specs.Operands.{is_named, kind_named};
ghost use Rattle.rc_fixed.specs.Units.{IsUnits};
ghost use Rattle.rc_lef.specs.Lengths.{in_a_micron};
ghost use Rattle.rc_lef.specs.Technology.{no_technology};

use crate::cell::Macro;
use crate::ndr::Ndr;
use crate::rows::kind_at;
use crate::units::Units;
use crate::via::Via;
use rc_fixed::{List, NoMemory, Text};
use rc_keys::{Named, Table};
use std::alloc::Global;
use std::marker::Model;

/// What a layer is for.
#[derive(Clone, Copy, Debug, PartialEq, Eq)]
pub enum LayerKind {
    /// Wires. Routing layers are numbered from 0 upwards.
    Routing(u8),
    /// Cuts of vias. Cut layers are numbered from 0 upwards.
    Cut(u8),
    /// Neither.
    Other,
}

/// A layer. Its width is in units of 1/M micron, and 0 but for routing layers.
#[derive(Debug, Drop)]
pub struct Layer {
    pub name: Text,
    pub kind: LayerKind,
    pub width: i32,
}

impl Named for Layer {
    ghost use Rattle.rc_lef.specs.Technology.{name_of_layer};

    ghost called = { name_of_layer };

    fn name(&self) -> &[u8] {
        self.name.bytes()
    }
}

/// What LEF files define, found by name. Contracts see its lists, in order of first definition.
#[derive(Drop)]
pub struct Tech {
    units: Option<Units>,
    layers: Table<Layer>,
    vias: Table<Via>,
    macros: Table<Macro>,
    rules: Table<Ndr>,
}

impl Model for Tech {
    ghost use Rattle.rc_lef.specs.Facts.{IsSound};
    ghost use Rattle.rc_lef.specs.Technology.{Technology};

    ghost Value = { Technology };

    ghost view = { λ tech. record { units = tech.units; layers = tech.layers; vias = tech.vias; macros = tech.macros; rules = tech.rules } };

    ghost invariant = { λ tech. IsSound (record { units = tech.units; layers = tech.layers; vias = tech.vias; macros = tech.macros; rules = tech.rules }) };
}

/// Where the thing of a name stands.
fn place_of<T: Named>(table: &Table<T>, name: &[u8]) -> Option<u32>
    requires { length table.now ≤ 2 ^ 30 }
    ensures place { result ≡ position (λ item. bytes_eq name.now (T.called item)) table.now }
    ensures within { IfSome result (λ place. place < length table.now) }
{
    match table.place(name) {
        Some(place) => Some(place as u32),
        None => None,
    }
}

impl Tech {
    /// A technology without definitions.
    pub fn new(alloc: Global) -> Tech
        ensures { result ≡ no_technology }
    {
        Tech {
            units: None,
            layers: Table::new(alloc),
            vias: Table::new(alloc),
            macros: Table::new(alloc),
            rules: Table::new(alloc),
        }
    }

    /// The units of a micron, where a file set them.
    pub fn units(&self) -> Option<Units>
        ensures { result ≡ self.now.units }
    {
        self.units
    }

    /// How many units of length a micron has, where a file set them.
    pub fn m(&self) -> Option<u32>
        ensures value { result ≡ option_map in_a_micron self.now.units }
        ensures listed { IfSome result IsUnits }
    {
        match self.units {
            Some(units) => Some(units.in_a_micron()),
            None => None,
        }
    }

    /// The layers.
    pub fn layers(&self) -> &[Layer]
        ensures { result.now ≡ self.now.layers }
    {
        self.layers.items()
    }

    /// The vias.
    pub fn vias(&self) -> &[Via]
        ensures { result.now ≡ self.now.vias }
    {
        self.vias.items()
    }

    /// The cells that components are made of.
    pub fn macros(&self) -> &[Macro]
        ensures { result.now ≡ self.now.macros }
    {
        self.macros.items()
    }

    /// The nondefault rules.
    pub fn rules(&self) -> &[Ndr]
        ensures { result.now ≡ self.now.rules }
    {
        self.rules.items()
    }

    /// What holds of every technology. Nothing is computed here.
    pub fn facts(&self)
        ensures { IsSound self.now }
    {
        let _units = self.units;
    }

    /// Where the layer of a name stands in the list of layers. None comes exactly where there is none.
    pub fn layer(&self, name: &[u8]) -> Option<u32>
        ensures place { result ≡ position (is_named name.now) self.now.layers }
        ensures within { IfSome result (λ place. place < length self.now.layers) }
    {
        place_of(&self.layers, name)
    }

    /// Where the via of a name stands in the list of vias. None comes exactly where there is none.
    pub fn via(&self, name: &[u8]) -> Option<u32>
        ensures place { result ≡ position (λ via. bytes_eq name.now via.name) self.now.vias }
        ensures within { IfSome result (λ place. place < length self.now.vias) }
    {
        place_of(&self.vias, name)
    }

    /// Where the cell of a name stands in the list of cells. None comes exactly where there is none.
    pub fn cell(&self, name: &[u8]) -> Option<u32>
        ensures place { result ≡ position (λ cell. bytes_eq name.now cell.name) self.now.macros }
        ensures within { IfSome result (λ place. place < length self.now.macros) }
    {
        place_of(&self.macros, name)
    }

    /// Where the nondefault rule of a name stands in the list of rules. None comes exactly where there is none.
    pub fn rule(&self, name: &[u8]) -> Option<u32>
        ensures place { result ≡ position (λ rule. bytes_eq name.now rule.name) self.now.rules }
        ensures within { IfSome result (λ place. place < length self.now.rules) }
    {
        place_of(&self.rules, name)
    }

    /// Whether a layer of a name is there.
    pub fn has_layer(&self, name: &[u8]) -> bool
        ensures { result ≡ list_any (is_named name.now) self.now.layers }
    {
        self.layers.has(name)
    }

    /// The kind of the layer of a name.
    pub fn layer_kind(&self, name: &[u8]) -> Option<LayerKind>
        ensures { result ≡ kind_named name.now self.now.layers }
    {
        kind_at(self.layers.items(), name, self.layers.place(name))
    }

    /// Whether a via of a name is there.
    pub fn has_via(&self, name: &[u8]) -> bool
        ensures { result ≡ list_any (λ via. bytes_eq name.now via.name) self.now.vias }
    {
        self.vias.has(name)
    }

    /// Whether a macro of a name is there.
    pub fn has_macro(&self, name: &[u8]) -> bool
        ensures { result ≡ list_any (λ cell. bytes_eq name.now cell.name) self.now.macros }
    {
        self.macros.has(name)
    }

    /// Whether a nondefault rule of a name is there.
    pub fn has_rule(&self, name: &[u8]) -> bool
        ensures { result ≡ list_any (λ rule. bytes_eq name.now rule.name) self.now.rules }
    {
        self.rules.has(name)
    }

    /// Takes over what a file defines.
    ///
    /// # Errors
    ///
    /// `NoMemory` for want of memory. The technology is then as before.
    pub fn extend(
        &mut self,
        units: Option<Units>,
        layers: List<Layer>,
        vias: List<Via>,
        macros: List<Macro>,
        rules: List<Ndr>,
    ) -> Result<(), NoMemory>
        requires { IsSound (with_more self.old units layers vias macros rules) }
        ensures ok { OnOk result (self.new ≡ with_more self.old units layers vias macros rules) }
        ensures err { OnErr result (self.new ≡ self.old) }
    {
        let first_layer = self.layers.len();
        let first_via = self.vias.len();
        let first_macro = self.macros.len();
        let Ok(()) = self.layers.append(layers) else {
            return Err(NoMemory);
        };
        let Ok(()) = self.vias.append(vias) else {
            self.layers.truncate(first_layer);
            return Err(NoMemory);
        };
        let Ok(()) = self.macros.append(macros) else {
            self.layers.truncate(first_layer);
            self.vias.truncate(first_via);
            return Err(NoMemory);
        };
        let Ok(()) = self.rules.append(rules) else {
            self.layers.truncate(first_layer);
            self.vias.truncate(first_via);
            self.macros.truncate(first_macro);
            return Err(NoMemory);
        };
        self.units = units;
        Ok(())
    }
}
