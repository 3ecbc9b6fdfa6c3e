//! Rules.

ghost use Rattle.std.specs.Prelude.{◌≡◌, ◌<◌, ◌≤◌, ◌+◌, ◌^◌, ℕ, pos, ◌≤ℤ◌, ◌↔◌, length, IfSome, IsTrue, option_map};
ghost use Rattle.rc_geom.specs.Sums.{natural};
ghost use Rattle.rc_lef.specs.Lengths.{in_a_micron};
ghost use Rattle.rc_rules.specs.LookUp.{rates, ohm_of, halo_of};
ghost use Rattle.rc_rules.specs.Kept.{rules_are_kept};
ghost use Rattle.rc_rules.specs.RuleFile.{HasRules, IsLayer, has_block, layer_in, cut_in};

use crate::layer::{LayerRules, farthest};
use crate::rater::{Rate, Rater};
use rc_fixed::List;
use rc_lef::Units;
use std::marker::Model;

/// The rules of a rule file. Contracts see what the file says.
#[derive(Debug, Drop)]
pub struct Rules {
    units: Units,
    layers: List<Option<LayerRules>>,
    cuts: List<Option<u64>>,
    contact: u64,
}

impl Model for Rules {
    ghost use Rattle.rc_rules.specs.RuleFile.{RuleFile};

    ghost Value = { RuleFile };

    ghost view = { λ rules. record { units = rules.units; layers = rules.layers; cuts = rules.cuts; contact = rules.contact } };
}

/// A width above 0.
fn whole(width: i32) -> u32
    requires { pos 1 ≤ℤ width }
    ensures { result ≡ natural width }
{
    width as u32
}

impl Rules {
    /// The rules of these blocks, by the numbers of routing layers, of these resistances, by the numbers of cut layers, and
    /// of this one for a contact.
    pub(crate) fn new(
        units: Units,
        layers: List<Option<LayerRules>>,
        cuts: List<Option<u64>>,
        contact: u64,
    ) -> Rules
        ensures { result ≡ record { units = units; layers = layers; cuts = cuts; contact = contact } }
    {
        Rules {
            units,
            layers,
            cuts,
            contact,
        }
    }

    /// How many units of length a micron has.
    pub fn m(&self) -> u32
        ensures { result ≡ in_a_micron self.now.units }
    {
        self.units.in_a_micron()
    }

    /// How many routing layers the technology has.
    pub fn routing_layers(&self) -> usize
        ensures { result ≡ length self.now.layers }
    {
        self.layers.len()
    }

    /// How many cut layers the technology has.
    pub fn cut_layers(&self) -> usize
        ensures { result ≡ length self.now.cuts }
    {
        self.cuts.len()
    }

    /// The block of a layer.
    fn block(&self, layer: u8) -> Option<&LayerRules>
        ensures block { option_map (λ rules. rules.now) result ≡ layer_in self.now.layers layer }
        ensures sound { IfSome result (λ rules. IsLayer rules.now) }
    {
        match self.layers.items().get(layer as usize) {
            Some(Some(rules)) => {
                rules.facts();
                Some(rules)
            }
            _ => None,
        }
    }

    /// Whether the file has a block for a layer. Only then may it be rated.
    pub fn has(&self, layer: u8) -> bool
        ensures block { result ≡ has_block self.now layer }
        ensures rules { IsTrue result ↔ HasRules self.now layer }
    {
        self.block(layer).is_some()
    }

    /// The resistance of one unit of a wire of that width, in 10^-15 ohm.
    pub fn ohm(&self, layer: u8, width: i32) -> u128
        requires rules { HasRules self.now layer }
        requires width { pos 1 ≤ℤ width }
        ensures value { result ≡ ohm_of self.now layer (natural width) }
        ensures bound { result < 2 ^ 57 }
    {
        match self.block(layer) {
            Some(rules) => rules.ohm(whole(width)),
            None => 0,
        }
    }

    /// The resistance of one cut of a cut layer, in 10^-15 ohm. None comes exactly where the file has no VIA for it.
    pub fn via_ohm(&self, cut: u8) -> Option<u128>
        ensures value { result ≡ cut_in self.now.cuts cut }
        ensures bound { IfSome result (λ resistance. resistance < 2 ^ 64) }
    {
        match self.cuts.items().get(cut as usize) {
            Some(Some(resistance)) => Some(u128::from(*resistance)),
            _ => None,
        }
    }

    /// The resistance of a contact, in 10^-15 ohm.
    pub fn contact(&self) -> u128
        ensures value { result ≡ self.now.contact }
        ensures bound { result < 2 ^ 64 }
    {
        u128::from(self.contact)
    }

    /// How far what a face is rated at can look: the greatest, over layers with rules, of reach + 1 and cap; 1 without
    /// rules.
    pub fn halo(&self) -> u32
        ensures value { result ≡ halo_of self.now }
        ensures reach { (layer : ℕ) → HasRules self.now layer → (rates self.now).reach layer + 1 ≤ result }
        ensures cap { (layer : ℕ) → HasRules self.now layer → (rates self.now).cap layer ≤ result }
        ensures bound { result ≤ 2 ^ 29 + 1 }
    {
        self.looked_over()
    }

    /// The halo, block by block.
    fn looked_over(&self) -> u32
        ensures value { result ≡ halo_of self.now }
        ensures bound { result ≤ 2 ^ 29 + 1 }
    {
        let mut halo = 1;
        for layer in self.layers.items() {
            halo = farthest(halo, layer);
        }
        halo
    }
}

impl Rater for Rules {
    type Value = u128;

    ghost has_rules = { HasRules };

    ghost rates_of = { rates };

    fn cap(&self, layer: u8) -> u32 {
        match self.block(layer) {
            Some(rules) => rules.cap(),
            None => 0,
        }
    }

    fn reach(&self, layer: u8) -> u32 {
        match self.block(layer) {
            Some(rules) => rules.reach(),
            None => 0,
        }
    }

    fn rate(
        &self,
        layer: u8,
        under: Option<u8>,
        over: Option<u8>,
        thick: u32,
        gap: Option<u32>,
    ) -> Rate<u128> {
        match self.block(layer) {
            Some(rules) => rules.rate(under, over, thick, gap),
            None => Rate {
                ground: 0,
                share: 0,
            },
        }
    }

    ghost laws = { rules_are_kept };
}
