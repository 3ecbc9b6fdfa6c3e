//! The items of a DEF file: which of them there are, and how each is written.

ghost use Rattle.std.specs.Prelude.{◌≡◌};
ghost use Rattle.rc_def.specs.Items as items;

use rc_wire::{Part, PathItem, When};

/// The sections that are read.
#[derive(Clone, Copy, Debug, PartialEq, Eq)]
pub enum Section {
    Vias,
    Rules,
    Comps,
    Pins,
    Specials,
    Nets,
}

/// What may stand next in a file.
#[derive(Clone, Copy, Debug, PartialEq, Eq)]
pub enum Stage {
    /// A statement or a section.
    Top,
    /// What is read over up to a `;`.
    Over,
    /// DESIGN, behind END.
    EndOfFile,
    /// What is skipped up to END and its word.
    Skipped,
    /// That word, behind END.
    SkippedEnd,
    /// What is skipped up to ENDEXT.
    Extension,
    /// An entry of a section, or its END.
    Section,
    /// The section's word, behind END.
    SectionEnd,
    /// The name of an entry.
    Name,
    /// A connection, an option, or the end of the entry.
    Connections,
    /// What is passed over in a connection.
    Connection,
    /// An option, or the end of the entry.
    Options,
    /// The word of an option.
    Option,
    /// What is passed over of an option, up to the next `+` or `;`.
    Passed,
    /// Paths, or what may stand in their place.
    Paths,
    /// What belongs to the paths that are begun, or stands behind them.
    Wiring,
    /// The orientation of vias at points, or the first point.
    ViaHead,
    /// The first point.
    ViaFirst,
    /// A further point, an option, or the end of the entry.
    ViaPoints,
}

/// An item of a file.
#[derive(Clone, Copy, Debug, PartialEq, Eq)]
pub enum DefItem {
    /// A token that counts for nothing but what may stand next.
    Token(Stage),
    /// A token that ends its statement at the top.
    Done,
    /// DESIGN, a name and `;`.
    Design,
    /// UNITS DISTANCE MICRONS, a number and `;`.
    Units,
    /// DIVIDERCHAR, a text and `;`.
    DividerChar,
    /// BUSBITCHARS, a text and `;`.
    BusBitChars,
    /// The word of what is skipped up to END and that word.
    Skip,
    /// The word of a section, a count and `;`.
    Head(Section),
    /// END at the top. What stands behind it has a line of its own.
    End,
    /// DESIGN behind END, which ends the file.
    EndDesign,
    /// The name of an entry.
    Entry,
    /// The name of a component and of its cell.
    Component,
    /// The `;` of an entry.
    EntryDone,
    /// RECT of a via.
    ViaRect,
    /// VIARULE of a via.
    ViaRule,
    /// CUTSIZE of a via.
    CutSize,
    /// LAYERS of a via.
    Layers,
    /// CUTSPACING of a via.
    CutSpacing,
    /// ENCLOSURE of a via.
    Enclosure,
    /// ROWCOL of a via.
    RowCol,
    /// POLYGON, ORIGIN, OFFSET or PATTERN of a via.
    Unusual,
    /// LAYER and WIDTH of a nondefault rule.
    LayerWidth,
    /// PLACED, FIXED or COVER of a component or of a die pin.
    Placed,
    /// DIRECTION of a die pin.
    Direction,
    /// PORT of a die pin.
    Port,
    /// LAYER of a die pin.
    PinRect,
    /// A connection of a net.
    Connection,
    /// NONDEFAULTRULE of a net.
    NetRule,
    /// ROUTED, FIXED, COVER or NOSHIELD of a net.
    Routed,
    /// USE of a special net.
    Use,
    /// ROUTED, FIXED or COVER of a special net.
    WideRouted,
    /// SHIELD of a special net.
    Shield,
    /// RECT of a special net.
    NetRect,
    /// VIA of a special net.
    NetVia,
    /// The orientation of such vias.
    NetViaOrient,
    /// A point of such vias.
    NetViaPoint,
    /// An item of a path.
    Path(PathItem),
    /// The `+` behind paths.
    PathsDone,
    /// The `;` of an entry, behind paths.
    PathsEntryDone,
}

impl DefItem {
    /// How it is written.
    #[tactic(auto, unfolding(crate::specs::Items::form_of))]
    pub fn form(self) -> &'static [Part]
        ensures { result.now ≡ items.form_of self }
    {
        match self {
            DefItem::Design => &[Part::First, Part::Name, Part::Semicolon],
            DefItem::Units => &[
                Part::First,
                Part::Distance,
                Part::Microns,
                Part::Above0,
                Part::Semicolon,
            ],
            DefItem::DividerChar => &[Part::First, Part::Divider, Part::Semicolon],
            DefItem::BusBitChars => &[Part::First, Part::BusBits, Part::Semicolon],
            DefItem::Skip => &[Part::Name],
            DefItem::Head(_) => &[Part::First, Part::Choice, Part::Semicolon],
            DefItem::Entry => &[Part::Name],
            DefItem::Component => &[Part::Name, Part::SecondName],
            DefItem::ViaRect => &[
                Part::First,
                Part::Name,
                Part::Maybe(When::Plus, 3),
                Part::First,
                Part::Mask,
                Part::Passed,
                Part::Open,
                Part::Whole,
                Part::Whole,
                Part::Close,
                Part::Open,
                Part::Whole,
                Part::Whole,
                Part::Close,
            ],
            DefItem::ViaRule => &[Part::First, Part::Name],
            DefItem::CutSize => &[Part::First, Part::Above0, Part::Above0],
            DefItem::Layers => &[Part::First, Part::Name, Part::SecondName, Part::ThirdName],
            DefItem::CutSpacing => &[Part::First, Part::AtLeast0, Part::AtLeast0],
            DefItem::Enclosure => &[
                Part::First,
                Part::AtLeast0,
                Part::AtLeast0,
                Part::AtLeast0,
                Part::AtLeast0,
            ],
            DefItem::RowCol => &[Part::First, Part::UpTo1024, Part::UpTo1024],
            DefItem::LayerWidth => &[Part::First, Part::Name, Part::Width, Part::Above0],
            DefItem::Placed => &[
                Part::First,
                Part::Open,
                Part::Whole,
                Part::Whole,
                Part::Close,
                Part::Orientation,
            ],
            DefItem::Direction => &[Part::First, Part::Direction],
            DefItem::PinRect => &[
                Part::First,
                Part::Name,
                Part::Maybe(When::Mask, 2),
                Part::First,
                Part::Passed,
                Part::Maybe(When::Spacing, 2),
                Part::First,
                Part::Passed,
                Part::Open,
                Part::Whole,
                Part::Whole,
                Part::Close,
                Part::Open,
                Part::Whole,
                Part::Whole,
                Part::Close,
            ],
            DefItem::Connection => &[
                Part::First,
                Part::Name,
                Part::SecondName,
                Part::Maybe(When::Plus, 2),
                Part::First,
                Part::Synthesized,
                Part::Close,
            ],
            DefItem::NetRule => &[Part::First, Part::Name],
            DefItem::Use => &[Part::First, Part::Choice],
            DefItem::Shield => &[Part::First, Part::Name],
            DefItem::NetRect => &[
                Part::First,
                Part::Name,
                Part::Open,
                Part::Whole,
                Part::Whole,
                Part::Close,
                Part::Open,
                Part::Whole,
                Part::Whole,
                Part::Close,
            ],
            DefItem::NetVia => &[Part::First, Part::Name],
            DefItem::NetViaOrient => &[Part::Orientation],
            DefItem::NetViaPoint => &[Part::First, Part::Whole, Part::Whole, Part::Close],
            DefItem::Path(item) => item.form(),
            _ => &[Part::First],
        }
    }
}
