//! The layers of a technology, as rule files name them.

ghost use Rattle.std.specs.Prelude.{◌≡◌};
ghost use Rattle.rc_rules.specs.Layers.{kind_named as kind_of_name, routing_named as routing_of_name, cut_named as cut_of_name, routing_count as count_of_routing, cut_count as count_of_cuts};

use rc_lef::{LayerKind, Tech};

/// The kind of the layer of a name.
fn kind_named(tech: &Tech, name: &[u8]) -> Option<LayerKind>
    ensures { result ≡ kind_of_name tech.now name.now }
{
    let place = tech.layer(name)?;
    Some(tech.layers()[place as usize].kind)
}

/// The number of the routing layer of a name.
#[tactic(auto, unfolding(crate::specs::Layers::routing_named))]
pub fn routing_named(tech: &Tech, name: &[u8]) -> Option<u8>
    ensures { result ≡ routing_of_name tech.now name.now }
{
    match kind_named(tech, name) {
        Some(LayerKind::Routing(number)) => Some(number),
        _ => None,
    }
}

/// The number of the cut layer of a name.
#[tactic(auto, unfolding(crate::specs::Layers::cut_named))]
pub fn cut_named(tech: &Tech, name: &[u8]) -> Option<u8>
    ensures { result ≡ cut_of_name tech.now name.now }
{
    match kind_named(tech, name) {
        Some(LayerKind::Cut(number)) => Some(number),
        _ => None,
    }
}

/// How many routing layers there are.
pub fn routing_count(tech: &Tech) -> usize
    ensures { result ≡ count_of_routing tech.now }
{
    tech.layers()
        .iter()
        .filter(|layer| matches!(layer.kind, LayerKind::Routing(_)))
        .count()
}

/// How many cut layers there are.
pub fn cut_count(tech: &Tech) -> usize
    ensures { result ≡ count_of_cuts tech.now }
{
    tech.layers()
        .iter()
        .filter(|layer| matches!(layer.kind, LayerKind::Cut(_)))
        .count()
}
