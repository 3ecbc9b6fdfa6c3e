//! What is read of a file so far.

ghost use Rattle.std.specs.Prelude.{◌≡◌};

use crate::cell::{Dir, Macro, MacroPin};
use crate::ndr::Ndr;
use crate::tech::{Layer, LayerKind, Tech};
use crate::units::Units;
use crate::via::Via;
use rc_fixed::{List, Text};
use rc_geom::{Pt, Rect};
use rc_keys::{Code, Table};
use std::alloc::Global;

/// Where a VIA stands.
#[derive(Clone, Copy, Debug, PartialEq, Eq)]
pub enum Home {
    /// Between the blocks.
    Top,
    /// In a NONDEFAULTRULE.
    Rule,
}

/// The block that is open.
#[derive(Clone, Copy, Debug, PartialEq, Eq)]
pub enum Block {
    /// None.
    Top,
    Units,
    Layer,
    Via(Home),
    Rule,
    /// A LAYER in a NONDEFAULTRULE.
    RuleLayer,
    Macro,
    Pin,
    Port,
}

/// A statement whose operands are lengths.
#[derive(Clone, Copy, Debug, PartialEq, Eq)]
pub enum Form {
    /// RECT in a VIA.
    ViaRect,
    CutSize,
    CutSpacing,
    Enclosure,
    /// WIDTH in a LAYER of a NONDEFAULTRULE.
    RuleWidth,
    /// ORIGIN of a MACRO.
    Origin,
    Size,
    /// RECT in a PORT.
    PinRect,
}

/// Which row of the grammar reads the next token.
#[derive(Clone, Copy, Debug, PartialEq, Eq)]
pub enum Row {
    /// A statement may begin.
    Begin,
    /// What stands up to the next `;` is read over.
    Over,
    /// A `;` is due.
    Due,
    /// The word after END is due.
    End,
    /// A length of a statement is due.
    Number(Form),
    /// MICRONS is due.
    Database,
    /// The units are due.
    Microns,
    /// The name of a layer's block is due.
    LayerName,
    /// The kind of a layer is due.
    Type,
    /// The first token of WIDTH is due.
    Width,
    /// The token after a word of WIDTH decides whether it counts.
    WidthEnd,
    /// The name of a block that is skipped is due.
    SkipName,
    /// What stands up to END and its word is skipped.
    Skip,
    /// The token after END in what is skipped.
    SkipEnd,
    /// What stands up to ENDEXT is skipped.
    SkipExt,
    /// A statement may begin in what is skipped up to a statement that begins with END.
    SkipStatements,
    /// In a statement of what is skipped up to a statement that begins with END.
    SkipOver,
    /// The name of a via is due.
    ViaName(Home),
    /// DEFAULT may stand here, or TOPOFSTACKONLY, or a statement may begin.
    ViaHead,
    /// TOPOFSTACKONLY may stand here, or a statement may begin.
    ViaStack,
    /// The layer of a via's rectangles is due.
    ViaLayer,
    /// MASK or the first corner of a via's rectangle is due.
    ViaRect,
    /// The number of a mask is due, before a via's rectangle.
    ViaMask,
    /// The name of a via rule is due.
    ViaRule,
    /// The first layer of LAYERS is due.
    FirstLayer,
    /// The second layer of LAYERS is due, after one of this kind.
    SecondLayer(LayerKind),
    /// The third layer of LAYERS is due, after these.
    ThirdLayer(LayerKind, LayerKind),
    /// The number of rows of cuts is due.
    Rows,
    /// The number of columns of cuts is due, after so many rows.
    Columns(u16),
    /// The name of a nondefault rule is due.
    RuleName,
    /// The layer of a nondefault rule is due.
    RuleLayer,
    /// The name of a macro is due.
    MacroName,
    /// BY is due in SIZE.
    SizeBy,
    /// The name of a pin is due.
    PinName,
    /// The direction of a pin is due.
    Direction,
    /// TRISTATE may stand here, or the `;` of a direction.
    TriState,
    /// The layer of a pin's rectangles is due.
    PortLayer,
    /// ITERATE, MASK or the first corner of a pin's rectangle is due.
    PortRect,
    /// The number of a mask is due, before a pin's rectangle.
    PortMask,
}

/// The layer of a block that is open: its kind and its width, each the first of its statements, and the
/// width whose statement isn't complete.
#[derive(Clone, Copy, Debug, PartialEq, Eq)]
pub struct LayerDraft {
    pub kind: Option<LayerKind>,
    pub width: Option<i32>,
    pub pending: Result<i32, Code>,
}

impl LayerDraft {
    ghost use Rattle.rc_lef.specs.Layers.{routes as routes_of, width_of};

    /// A layer without statements.
    pub const NEW: LayerDraft = LayerDraft {
        kind: None,
        width: None,
        pending: Err(Code::E05),
    };

    /// Whether it is a routing layer.
    pub fn routes(&self) -> bool
        ensures { result ≡ routes_of self.now.kind }
    {
        matches!(self.kind, Some(LayerKind::Routing(_)))
    }

    /// The width, which counts for routing layers alone.
    pub fn counted_width(&self) -> i32
        ensures { result ≡ width_of self.now }
    {
        if self.routes() {
            self.width.unwrap_or(0)
        } else {
            0
        }
    }
}

/// The via of a block that is open: the kind of the layer that counts for its rectangles, those, and the parts of its
/// generated form, each the first of its statements.
#[derive(Debug, Drop)]
pub struct ViaDraft {
    pub layer: Option<LayerKind>,
    pub is_plain: bool,
    pub rects: List<(LayerKind, Rect)>,
    pub has_rule: bool,
    pub cut_size: Option<Pt>,
    pub layers: Option<(LayerKind, LayerKind, LayerKind)>,
    pub spacing: Option<Pt>,
    pub enclosure: Option<(Pt, Pt)>,
    pub rows_columns: Option<(u16, u16)>,
}

impl ViaDraft {
    ghost use Rattle.rc_lef.specs.Vias.{no_via};

    /// A via without statements.
    pub fn new(alloc: Global) -> ViaDraft
        ensures { result ≡ no_via }
    {
        ViaDraft {
            layer: None,
            is_plain: true,
            rects: List::new(alloc),
            has_rule: false,
            cut_size: None,
            layers: None,
            spacing: None,
            enclosure: None,
            rows_columns: None,
        }
    }
}

/// The nondefault rule of a block that is open: the kind of the layer whose block is open in it, and its widths.
#[derive(Debug, Drop)]
pub struct RuleDraft {
    pub layer: LayerKind,
    pub widths: List<(u8, i32)>,
}

impl RuleDraft {
    ghost use Rattle.rc_lef.specs.Rules.{no_rule};

    /// A rule without statements.
    pub fn new(alloc: Global) -> RuleDraft
        ensures { result ≡ no_rule }
    {
        RuleDraft {
            layer: LayerKind::Other,
            widths: List::new(alloc),
        }
    }
}

/// The macro of a block that is open: its origin and its size, each the first of its statements, and its pins.
#[derive(Drop)]
pub struct CellDraft {
    pub origin: Option<Pt>,
    pub size: Option<Pt>,
    pub pins: Table<MacroPin>,
}

impl CellDraft {
    ghost use Rattle.rc_lef.specs.Cells.{no_cell};

    /// A macro without statements.
    pub fn new(alloc: Global) -> CellDraft
        ensures { result ≡ no_cell }
    {
        CellDraft {
            origin: None,
            size: None,
            pins: Table::new(alloc),
        }
    }
}

/// The pin of a block that is open: its direction, the first of its statements, the kind of the layer that counts for its
/// rectangles, and those on routing layers, by the layers' numbers.
#[derive(Debug, Drop)]
pub struct PinDraft {
    pub name: Text,
    pub dir: Option<Dir>,
    pub layer: Option<LayerKind>,
    pub rects: List<(u8, Rect)>,
}

impl PinDraft {
    ghost use Rattle.rc_lef.specs.Cells.{no_pin};

    /// A pin of this name without statements.
    pub fn new(alloc: Global, name: Text) -> PinDraft
        ensures { result ≡ no_pin name }
    {
        PinDraft {
            name,
            dir: None,
            layer: None,
            rects: List::new(alloc),
        }
    }
}

/// What is read of a file so far: what it defines, and where in the grammar one stands. `numbers` are those of the
/// statement. `name` is that of the innermost LAYER or VIA, or the word that ends what is skipped, and `outer` that of the
/// NONDEFAULTRULE or MACRO; `line` is the first line of a block that may lack a statement.
#[derive(Drop)]
pub struct State {
    pub units: Option<Units>,
    pub layers: Table<Layer>,
    pub vias: Table<Via>,
    pub macros: Table<Macro>,
    pub rules: Table<Ndr>,
    pub block: Block,
    pub row: Row,
    pub name: Text,
    pub outer: Text,
    pub line: u32,
    pub layer: LayerDraft,
    pub via: ViaDraft,
    pub rule: RuleDraft,
    pub cell: CellDraft,
    pub pin: PinDraft,
    pub numbers: List<i32>,
}

impl State {
    ghost use Rattle.rc_lef.specs.Rows.{lef_begin};

    /// Nothing is read of a file over this technology.
    pub fn new(alloc: Global, tech: &Tech) -> State
        ensures { result ≡ lef_begin tech.now }
    {
        State {
            units: tech.units(),
            layers: Table::new(alloc),
            vias: Table::new(alloc),
            macros: Table::new(alloc),
            rules: Table::new(alloc),
            block: Block::Top,
            row: Row::Begin,
            name: Text::new(alloc),
            outer: Text::new(alloc),
            line: 1,
            layer: LayerDraft::NEW,
            via: ViaDraft::new(alloc),
            rule: RuleDraft::new(alloc),
            cell: CellDraft::new(alloc),
            pin: PinDraft::new(alloc, Text::new(alloc)),
            numbers: List::new(alloc),
        }
    }
}
