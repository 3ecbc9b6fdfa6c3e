//! The layers in use that have no rules.

ghost use Rattle.std.specs.Prelude.{◌≡◌, [], None, All, fold, map};
ghost use Rattle.std.specs.List.{cons_option, flat_map};
ghost use Rattle.rc_rules.specs.RuleFile.{HasRules};
ghost use Rattle.rc_layout.specs.Metal.{all_nets};
ghost use Rattle.rc_engine.specs.Windows.{HasRatedItems};
ghost use Rattle.rc_engine.specs.Start.{lesser as lesser_of, least_step, lacks_block, lacks_cut, net_layers, net_cuts, place_cuts, via_cut, least_lacking, layers_in_use, cuts_in_use, net_missing as net_missing_of, missing_rules as missing_rules_of};

use rc_geom::Pt;
use rc_keys::Refusal;
use rc_layout::{Item, Layout, Net};
use rc_lef::Via;
use rc_rules::Rules;

/// The lesser of two numbers, where there is a first one.
fn lesser(least: Option<u8>, number: u8) -> Option<u8>
    ensures { result ≡ lesser_of least number }
{
    match least {
        Some(least) => Some(least.min(number)),
        None => Some(number),
    }
}

/// The least of the routing layers without rules, once one more is looked at.
fn with_layer(rules: &Rules, least: Option<u8>, layer: u8) -> Option<u8>
    ensures is { result ≡ least_step (lacks_block rules.now) least layer }
    ensures before { result ≡ None → least ≡ None }
    ensures rated { result ≡ None → HasRules rules.now layer }
{
    if rules.has(layer) {
        least
    } else {
        lesser(least, layer)
    }
}

/// The same of the layers of items.
fn with_items(rules: &Rules, first: Option<u8>, items: &[Item]) -> Option<u8>
    ensures is { result ≡ fold (least_step (lacks_block rules.now)) first (map (λ item. item.layer) items.now) }
    ensures before { result ≡ None → first ≡ None }
    ensures rated { result ≡ None → All (λ item. HasRules rules.now item.layer) items.now }
{
    let mut least = first;
    for item in items {
        least = with_layer(rules, least, item.layer);
    }
    least
}

/// The same of the layers of nets.
fn with_nets(rules: &Rules, first: Option<u8>, nets: &[Net]) -> Option<u8>
    ensures is { result ≡ fold (least_step (lacks_block rules.now)) first (flat_map net_layers nets.now) }
    ensures before { result ≡ None → first ≡ None }
    ensures rated { result ≡ None → All (HasRatedItems rules.now) nets.now }
{
    let mut least = first;
    for net in nets {
        least = with_items(rules, least, net.items.items());
    }
    least
}

/// The least of the routing layers in use without rules.
fn missing_layer(layout: &Layout, rules: &Rules) -> Option<u8>
    ensures is { result ≡ least_lacking (lacks_block rules.now) (layers_in_use layout.now) }
    ensures rated { result ≡ None → All (HasRatedItems rules.now) (all_nets layout.now) }
{
    let least = with_nets(rules, None, layout.nets());
    with_nets(rules, least, layout.grounded())
}

/// The cut layer of a via, by the via's number.
fn cut_of(vias: &[Via], via: u32) -> Option<u8>
    ensures { result ≡ via_cut vias.now via }
{
    match vias.get(via as usize) {
        Some(via) => Some(via.cut),
        None => None,
    }
}

/// The least of the cut layers without rules, once that of one more placed via is looked at.
fn with_via(rules: &Rules, vias: &[Via], least: Option<u8>, via: u32) -> Option<u8>
    ensures { result ≡ fold (least_step (lacks_cut rules.now)) least (cons_option (via_cut vias.now via) []) }
{
    let Some(cut) = cut_of(vias, via) else {
        return least;
    };
    match rules.via_ohm(cut) {
        Some(_) => least,
        None => lesser(least, cut),
    }
}

/// The same of placed vias.
fn with_vias(rules: &Rules, vias: &[Via], first: Option<u8>, placed: &[(u32, Pt)]) -> Option<u8>
    ensures { result ≡ fold (least_step (lacks_cut rules.now)) first (flat_map (place_cuts vias.now) placed.now) }
{
    let mut least = first;
    for via in placed {
        least = with_via(rules, vias, least, via.0);
    }
    least
}

/// The least of the cut layers without rules, of the vias of nets.
fn least_cut(rules: &Rules, vias: &[Via], nets: &[Net]) -> Option<u8>
    ensures { result ≡ least_lacking (lacks_cut rules.now) (flat_map (net_cuts vias.now) nets.now) }
{
    let mut least = None;
    for net in nets {
        least = with_vias(rules, vias, least, net.vias.items());
    }
    least
}

/// The least of the cut layers without rules, of the vias of nets that aren't grounded.
fn missing_cut(layout: &Layout, rules: &Rules) -> Option<u8>
    ensures { result ≡ least_lacking (lacks_cut rules.now) (cuts_in_use layout.now) }
{
    least_cut(rules, layout.vias(), layout.nets())
}

/// The first layer in use without rules: of the routing layers, on which any net has metal, the one of the least number; where
/// they all have rules, of the cut layers of the vias of nets that aren't grounded.
pub fn missing_rules(layout: &Layout, rules: &Rules) -> Option<Refusal>
    ensures is { result ≡ missing_rules_of layout.now rules.now }
    ensures rated { result ≡ None → All (HasRatedItems rules.now) (all_nets layout.now) }
{
    if let Some(number) = missing_layer(layout, rules) {
        return Some(Refusal::NoRules { cut: false, number });
    }
    match missing_cut(layout, rules) {
        Some(number) => Some(Refusal::NoRules { cut: true, number }),
        None => None,
    }
}

/// The same of one net that isn't grounded: of the layers on which it has metal, or else of the cut layers of its vias.
pub fn net_missing(rules: &Rules, vias: &[Via], net: &Net) -> Option<Refusal>
    ensures is { result ≡ net_missing_of vias.now rules.now net.now }
    ensures rated { result ≡ None → HasRatedItems rules.now net.now }
{
    if let Some(number) = with_items(rules, None, net.items.items()) {
        return Some(Refusal::NoRules { cut: false, number });
    }
    match with_vias(rules, vias, None, net.vias.items()) {
        Some(number) => Some(Refusal::NoRules { cut: true, number }),
        None => None,
    }
}
