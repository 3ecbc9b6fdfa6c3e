//! The technology of LEF files.
#![tactic(auto)]

mod cell;
mod cells;
mod key;
pub mod laws;
mod layers;
mod length;
mod ndr;
mod numbers;
mod reader;
mod rows;
mod rules;
mod state;
mod tech;
mod units;
mod usable;
mod via;
mod vias;

pub use cell::{Dir, Macro, MacroPin};
pub use key::{KEYS, Key, Keys};
pub use length::{Range, read_count, read_in_range, read_length};
pub use ndr::Ndr;
pub use reader::TechReader;
pub use rows::Given;
pub use state::{
    Block, CellDraft, Form, Home, LayerDraft, PinDraft, Row, RuleDraft, State, ViaDraft,
};
pub use tech::{Layer, LayerKind, Tech};
pub use units::Units;
pub use usable::{Array, drawn_via, made_via};
pub use via::Via;
