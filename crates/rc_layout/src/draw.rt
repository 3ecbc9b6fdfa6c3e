//! What the paths of a net draw.

ghost use Rattle.std.specs.Prelude.{◌≡◌, All};
ghost use Rattle.rc_layout.specs.Paths.{steps_drawn, path_drawn, paths_drawn, no_wiring};
ghost use Rattle.rc_layout.specs.Ranges.{IsParts, IsPath, IsStyle};
ghost use Rattle.rc_layout.specs.Refusals.{Links};

use crate::parts::Parts;
use crate::path::{path_layer, style_of};
use crate::piece::too_far;
use crate::steps::extension;
use crate::stroke::{Stop, Style};
use crate::wide::{near_point, scale_point};
use crate::wiring::{Pen, Wiring};
use rc_fixed::List;
use rc_keys::Fault;
use rc_wire::{RawPath, Step};
use std::alloc::Global;

impl Wiring {
    /// Nothing is drawn.
    pub fn new(alloc: Global) -> Wiring
        ensures { result ≡ no_wiring }
    {
        Wiring {
            points: List::new(alloc),
            vias: List::new(alloc),
            items: List::new(alloc),
        }
    }

    /// The steps of a path are drawn behind what is drawn.
    #[tactic(auto, unfolding(crate::specs::Paths::steps_drawn))]
    fn draw_steps(
        self,
        parts: &Parts,
        line: u32,
        style: Style,
        layer: u8,
        steps: &[Step],
    ) -> Result<Wiring, Fault>
        requires parts { IsParts parts.now }
        requires style { IsStyle style }
        ensures { Links result (steps_drawn parts.now line style layer self steps.now) }
    {
        let [Step::Point { at, ext }, others @ ..] = steps else {
            return Ok(self);
        };
        let mut drawn = self;
        let Some(near) = near_point(scale_point(parts.factor, *at)) else {
            return Err(Fault::Refused(too_far()));
        };
        let Ok(()) = drawn.put_point(layer, near) else {
            return Err(Fault::NoMemory);
        };
        let stop = Stop {
            at: near,
            ext: extension(parts.factor, *ext),
        };
        let mut pen = Pen { layer, stop, drawn };
        match pen.follow(parts, line, style, others) {
            Ok(()) => Ok(pen.drawn),
            Err(fault) => Err(fault),
        }
    }

    /// A path is drawn behind what is drawn.
    #[tactic(auto, unfolding(crate::specs::Paths::path_drawn))]
    fn draw_path(
        self,
        parts: &Parts,
        net_rule: Option<usize>,
        path: &RawPath,
    ) -> Result<Wiring, Fault>
        requires parts { IsParts parts.now }
        requires path { IsPath path.now }
        ensures { Links result (path_drawn parts.now net_rule self path.now) }
    {
        let layer = match path_layer(&parts.tech, path.line, path.layer.bytes()) {
            Ok(layer) => layer,
            Err(refusal) => return Err(Fault::Refused(refusal)),
        };
        let style = match style_of(parts, net_rule, path) {
            Ok(style) => style,
            Err(refusal) => return Err(Fault::Refused(refusal)),
        };
        self.draw_steps(parts, path.line, style, layer, path.steps.items())
    }
}

/// What the paths of a net draw.
pub fn draw_paths(
    alloc: Global,
    parts: &Parts,
    net_rule: Option<usize>,
    paths: &[RawPath],
) -> Result<Wiring, Fault>
    requires parts { IsParts parts.now }
    requires paths { All IsPath paths.now }
    ensures { Links result (paths_drawn parts.now net_rule paths.now) }
{
    let mut drawn = Wiring::new(alloc);
    for path in paths {
        drawn = match drawn.draw_path(parts, net_rule, path) {
            Ok(drawn) => drawn,
            Err(fault) => return Err(fault),
        };
    }
    Ok(drawn)
}
