//! The codes of refusals.

ghost use Rattle.std.specs.Prelude.{◌≡◌};
ghost use Rattle.rc_keys.specs.Names.{code_name, quantity_name};

use thiserror::Error;

/// The cause of a refusal that has a place in a text.
#[derive(Clone, Copy, Debug, PartialEq, Eq, Error)]
pub enum Code {
    /// A byte that no word may hold.
    #[error("a byte that no word may hold")]
    E01,
    /// A word that is too long, or a quote that isn't closed.
    #[error("a word that is too long, or a quote that isn't closed")]
    E02,
    /// A token that the grammar doesn't have there.
    #[error("a token that the grammar doesn't have there")]
    E03,
    /// A form that is left out by name.
    #[error("a form that is left out by name")]
    E04,
    /// A word that isn't a number of the wanted form or range.
    #[error("a word that isn't a number of the wanted form or range")]
    E05,
    /// A name that isn't defined.
    #[error("a name that isn't defined")]
    E06,
    /// A name or table given twice.
    #[error("a name or table given twice")]
    E07,
    /// Units that are missing, that aren't listed, or that don't divide those of the technology.
    #[error("units that are missing or don't fit")]
    E08,
    /// Two consecutive points that share neither coordinate.
    #[error("two consecutive points that share neither coordinate")]
    E09,
    /// A via that hasn't the path's layer.
    #[error("a via that hasn't the path's layer")]
    E10,
    /// A layer or cut in use without rules.
    #[error("a layer or cut in use without rules")]
    E11,
    /// A rule file whose parts don't fit together.
    #[error("a rule file whose parts don't fit together")]
    E12,
    /// A short.
    #[error("a short")]
    E13,
    /// A count above its limit.
    #[error("a count above its limit")]
    E14,
    /// A net in both sections of nets whose special use isn't a supply.
    #[error("a net in both sections of nets whose special use isn't a supply")]
    E15,
    /// A file that ends too early, or a required statement that isn't there.
    #[error("a file that ends too early, or a statement that isn't there")]
    E16,
}

impl Code {
    /// The code as a refusal's line shows it: `E01` to `E16`.
    pub fn name(self) -> &'static str
        ensures { result.now ≡ code_name self }
    {
        match self {
            Code::E01 => "E01",
            Code::E02 => "E02",
            Code::E03 => "E03",
            Code::E04 => "E04",
            Code::E05 => "E05",
            Code::E06 => "E06",
            Code::E07 => "E07",
            Code::E08 => "E08",
            Code::E09 => "E09",
            Code::E10 => "E10",
            Code::E11 => "E11",
            Code::E12 => "E12",
            Code::E13 => "E13",
            Code::E14 => "E14",
            Code::E15 => "E15",
            Code::E16 => "E16",
        }
    }
}

/// What is counted against a limit.
#[derive(Clone, Copy, Debug, PartialEq, Eq)]
pub enum Quantity {
    /// The bytes of all files of a run.
    Bytes,
    /// Routing layers.
    Layers,
    /// Cut layers.
    Cuts,
    /// Nets, grounded ones included.
    Nets,
    /// Components.
    Comps,
    /// Die pins.
    Pins,
    /// The items of all nets.
    Shapes,
    /// The nodes of all nets.
    Nodes,
    /// The tiles of all nets.
    Tiles,
    /// A coordinate's distance from zero.
    Coords,
}

impl Quantity {
    /// The quantity as a refusal's line shows it, in lower case.
    pub fn name(self) -> &'static str
        ensures { result.now ≡ quantity_name self }
    {
        match self {
            Quantity::Bytes => "bytes",
            Quantity::Layers => "layers",
            Quantity::Cuts => "cuts",
            Quantity::Nets => "nets",
            Quantity::Comps => "comps",
            Quantity::Pins => "pins",
            Quantity::Shapes => "shapes",
            Quantity::Nodes => "nodes",
            Quantity::Tiles => "tiles",
            Quantity::Coords => "coords",
        }
    }
}
