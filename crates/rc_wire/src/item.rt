//! The items of paths: which of them a token begins, and how each is written.

ghost use Rattle.std.specs.Prelude.{◌≡◌};
ghost use Rattle.rc_wire.specs.Paths as paths;

use crate::key::Key;
use crate::part::{Part, When};
use rc_keys::Code;

/// An item of a path.
#[derive(Clone, Copy, Debug, PartialEq, Eq)]
pub enum PathItem {
    /// The layer of a regular path, which begins it.
    Layer,
    /// The layer and the width of a special path, which begin it.
    WideLayer,
    /// NEW and the layer of the next regular path.
    Next,
    /// NEW, and the layer and the width of the next special path.
    WideNext,
    /// TAPER.
    Taper,
    /// TAPERRULE and a nondefault rule.
    TaperRule,
    /// `+ SHAPE` and a word.
    Shape,
    /// A point.
    Point,
    /// MASK and a number.
    Mask,
    /// RECT and two corners.
    Patch,
    /// A via.
    Via,
    /// The orientation of the via before it.
    Orientation,
}

/// What may stand next in a path.
#[derive(Clone, Copy, Debug, PartialEq, Eq)]
pub enum PathStage {
    /// Its layer.
    Layer,
    /// What belongs to the layer, or the first point.
    Head,
    /// The first point.
    First,
    /// A step.
    Steps,
    /// The orientation of a via, or a step.
    AfterVia,
    /// A step, behind a via and its orientation.
    Turned,
}

impl PathItem {
    /// How it is written.
    #[tactic(auto, unfolding(crate::specs::Paths::form_of))]
    pub fn form(self) -> &'static [Part]
        ensures { result.now ≡ paths.form_of self }
    {
        match self {
            PathItem::Layer => &[Part::Name],
            PathItem::WideLayer => &[Part::Name, Part::AtLeast0],
            PathItem::Next => &[Part::First, Part::Name],
            PathItem::WideNext => &[Part::First, Part::Name, Part::AtLeast0],
            PathItem::Taper => &[Part::First],
            PathItem::TaperRule => &[Part::First, Part::Name],
            PathItem::Shape => &[Part::First, Part::Shape, Part::Name],
            PathItem::Point => &[
                Part::First,
                Part::X,
                Part::Y,
                Part::Maybe(When::Extension, 1),
                Part::Extension,
                Part::Close,
            ],
            PathItem::Mask => &[Part::First, Part::Passed],
            PathItem::Patch => &[
                Part::First,
                Part::Open,
                Part::Whole,
                Part::Whole,
                Part::Whole,
                Part::Whole,
                Part::Close,
            ],
            PathItem::Via => &[Part::Name],
            PathItem::Orientation => &[Part::Orientation],
        }
    }
}
