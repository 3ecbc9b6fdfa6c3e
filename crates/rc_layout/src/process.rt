//! The technology, with what is looked up of it for each wire.

ghost use Rattle.std.specs.Prelude.{◌≡◌, ◌<◌, pos, All, slice_index_or};
ghost use Rattle.rc_lef.specs.Operands.{kind_named};
ghost use Rattle.rc_layout.specs.Ranges.{IsSpan};
ghost use Rattle.rc_layout.specs.Widths.{has_number as has_number_of, layer_width, layer_widths};

use rc_lef::{Layer, LayerKind, Tech};
use std::marker::Model;

/// How many routing layers a technology has at most.
const LAYERS: usize = 32;

/// A technology, with the widths of its routing layers by their numbers. Contracts see the technology.
#[derive(Drop)]
pub struct Process {
    tech: Tech,
    widths: [i32; LAYERS],
}

impl Model for Process {
    ghost use Rattle.std.specs.Prelude.{◌≡◌};
    ghost use Rattle.rc_lef.specs.Technology.{Technology};
    ghost use Rattle.rc_layout.specs.Widths.{layer_widths};

    ghost Value = { Technology };

    ghost view = { λ process. process.tech };

    ghost invariant = { λ process. process.widths ≡ layer_widths process.tech.layers };
}

fn has_number(number: u8, kind: LayerKind) -> bool
    ensures { result ≡ has_number_of number kind }
{
    match kind {
        LayerKind::Routing(other) => number == other,
        LayerKind::Cut(_) => false,
        LayerKind::Other => false,
    }
}

/// The width of a routing layer, or 0 where there is no layer of that number.
fn width_in(layers: &[Layer], number: u8) -> i32
    ensures { result ≡ layer_width layers.now number }
{
    match layers {
        [] => 0,
        [first, others @ ..] => {
            if has_number(number, first.kind) {
                first.width
            } else {
                width_in(others, number)
            }
        }
    }
}

/// The widths of all routing layers that there may be.
#[tactic(auto, unfolding(crate::specs::Widths::layer_widths))]
fn widths_in(layers: &[Layer]) -> [i32; LAYERS]
    ensures { result ≡ layer_widths layers.now }
{
    let mut widths = [0; LAYERS];
    for number in 0..LAYERS {
        widths[number] = width_in(layers, number as u8);
    }
    widths
}

/// The width at a place.
fn width_at(widths: &[i32; LAYERS], at: usize) -> i32
    requires { at < 32 }
    ensures { result ≡ slice_index_or widths.now at (pos 0) }
{
    widths[at]
}

impl Process {
    /// The technology, with the widths of its layers.
    pub fn new(tech: Tech) -> Process
        ensures { result ≡ tech }
    {
        let widths = widths_in(tech.layers());
        Process { tech, widths }
    }

    /// The technology by itself.
    pub fn tech(&self) -> &Tech
        ensures { result.now ≡ self.now }
    {
        &self.tech
    }

    /// The kind of the layer of a name.
    pub fn kind(&self, name: &[u8]) -> Option<LayerKind>
        ensures { result ≡ kind_named name.now self.now.layers }
    {
        self.tech.layer_kind(name)
    }

    /// The width of a routing layer, or 0 where there is no layer of that number.
    pub fn width(&self, number: u8) -> i32
        requires { All (λ layer. IsSpan layer.width) self.now.layers }
        ensures is { result ≡ layer_width self.now.layers number }
        ensures span { IsSpan result }
    {
        let place = number as usize;
        if place < LAYERS {
            return width_at(&self.widths, place);
        }
        width_in(self.tech.layers(), number)
    }
}
