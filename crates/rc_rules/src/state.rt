//! What is read of a rule file so far.

ghost use Rattle.std.specs.Prelude.{◌≡◌, IfOk};
ghost use Rattle.rc_rules.specs.Rows.{no_progress, nothing as nothing_times, rules_begin};

use crate::layer::{LayerRules, LayerValues};
use crate::layers::{cut_count, routing_count};
use crate::numbers::Numbers;
use crate::scale::Scale;
use rc_fixed::{List, NoMemory};
use rc_lef::Tech;
use std::alloc::Global;

/// What may stand next.
#[derive(Clone, Copy, Debug, PartialEq, Eq)]
pub enum Stage {
    /// RCXRULES.
    Heading,
    /// LAYER, VIA, CONTACT or END RULES.
    Entries,
    /// The widths of a block.
    Widths,
    /// The distances of a block.
    Distances,
    /// The resistances of a block.
    Resistances,
    /// A table of a block, a row of it, or END LAYER.
    Tables,
}

/// Which row of the grammar reads the next token.
#[derive(Clone, Copy, Debug, PartialEq, Eq)]
pub enum Row {
    /// A statement may begin.
    Begin,
    /// A `;` is due.
    Due,
    /// The word after END is due.
    End,
    /// The `;` after END RULES is due.
    Close,
    /// The number after RCXRULES is due.
    Version,
    /// The name of a routing layer is due.
    LayerName,
    /// A width or `;`.
    Widths,
    /// A distance or `;`.
    Distances,
    /// A resistance or `;`.
    Resistances,
    /// UNDER is due.
    Under,
    /// The layer under is due, or NONE.
    UnderLayer,
    /// OVER is due.
    Over,
    /// The layer over is due, or NONE.
    OverLayer,
    /// A number of a row or `;`.
    Numbers,
    /// The name of a cut layer is due.
    ViaName,
    /// The resistance of a cut is due.
    ViaNumber,
    /// The resistance of a contact is due.
    Contact,
}

/// What the statements of a file say so far: the blocks, by the numbers of routing layers; the resistances of cuts, by the
/// numbers of cut layers; that of a contact; and the values of the block that is being read, with its layer's number.
#[derive(Debug, Drop)]
pub struct Progress {
    pub stage: Stage,
    pub layers: List<Option<LayerRules>>,
    pub cuts: List<Option<u64>>,
    pub contact: Option<u64>,
    pub number: u8,
    pub block: LayerValues,
}

/// What the statements say so far, and where in a statement one stands: its row, the cut layer of a VIA, the layer under of
/// a TABLE, and the lengths or numbers of a list so far.
#[derive(Debug, Drop)]
pub struct State {
    pub progress: Progress,
    pub row: Row,
    pub cut: u8,
    pub under: Option<u8>,
    pub steps: Scale,
    pub numbers: Numbers,
}

/// Nothing, so many times.
#[tactic(auto, using(crate::proofs::Starts::nothing_more))]
fn nothing<T: Drop>(alloc: Global, count: usize) -> Result<List<Option<T>>, NoMemory>
    ensures { IfOk result (λ list. list ≡ nothing_times count) }
{
    let mut list = List::new(alloc);
    for _made in 0..count {
        list.push(None)?;
    }
    Ok(list)
}

impl Progress {
    /// Nothing is read of a file over this technology.
    fn new(alloc: Global, tech: &Tech) -> Result<Progress, NoMemory>
        ensures { IfOk result (λ progress. progress ≡ no_progress tech.now) }
    {
        Ok(Progress {
            stage: Stage::Heading,
            layers: nothing(alloc, routing_count(tech))?,
            cuts: nothing(alloc, cut_count(tech))?,
            contact: None,
            number: 0,
            block: LayerValues::new(alloc),
        })
    }
}

impl State {
    /// Nothing is read of a file over this technology.
    ///
    /// # Errors
    ///
    /// `NoMemory` for want of memory.
    pub fn new(alloc: Global, tech: &Tech) -> Result<State, NoMemory>
        ensures { IfOk result (λ state. state ≡ rules_begin tech.now) }
    {
        Ok(State {
            progress: Progress::new(alloc, tech)?,
            row: Row::Begin,
            cut: 0,
            under: None,
            steps: Scale::new(alloc),
            numbers: Numbers::new(alloc),
        })
    }
}
