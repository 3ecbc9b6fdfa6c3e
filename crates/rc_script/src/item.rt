//! The items of a script: which of them there are, and how each is written.

ghost use Rattle.std.specs.Prelude.{◌≡◌};
ghost use Rattle.rc_script.specs.Items as items;

use rc_wire::{Part, PathItem};

/// What may stand next in a script.
#[derive(Clone, Copy, Debug, PartialEq, Eq)]
pub enum Stage {
    /// A command.
    Command,
    /// The `+` before the net's wiring, or the end of the command.
    Body,
    /// The word of the wiring.
    Kind,
    /// What belongs to the paths that are begun, or stands behind them.
    Paths,
}

/// An item of a script.
#[derive(Clone, Copy, Debug, PartialEq, Eq)]
pub enum ScriptItem {
    /// REPLACE and a net.
    Replace,
    /// SPEF and `;`.
    Spef,
    /// NET, a net and `;`.
    Net,
    /// STAT and `;`.
    Stat,
    /// END and `;`, which end the script.
    End,
    /// The `+` behind a net.
    Plus,
    /// The `;` of a net without wiring.
    Unwired,
    /// ROUTED, FIXED, COVER or NOSHIELD.
    Routed,
    /// An item of a path.
    Path(PathItem),
    /// The `+` behind paths.
    PathsPlus,
    /// The `;` behind paths.
    PathsDone,
}

impl ScriptItem {
    /// How it is written.
    #[tactic(auto, unfolding(crate::specs::Items::form_of))]
    pub fn form(self) -> &'static [Part]
        ensures { result.now ≡ items.form_of self }
    {
        match self {
            ScriptItem::Replace => &[Part::First, Part::Name],
            ScriptItem::Spef => &[Part::First, Part::Semicolon],
            ScriptItem::Net => &[Part::First, Part::Name, Part::Semicolon],
            ScriptItem::Stat => &[Part::First, Part::Semicolon],
            ScriptItem::End => &[Part::First, Part::Semicolon],
            ScriptItem::Path(item) => item.form(),
            _ => &[Part::First],
        }
    }
}
