//! The text of a layout's extraction, net by net.

ghost use Rattle.std.specs.Prelude.{◌≡◌, ◌++◌, [], IfOk, OnOk, length, map};
ghost use Rattle.std.specs.List.{flat_map};
ghost use Rattle.rc_nodes.specs.Nodes.{nodes_of};
ghost use Rattle.rc_spef.specs.Text.{spef_text, head_text as head_bytes, net_text as net_bytes};
ghost use Rattle.rc_engine.specs.Brought.{entries_of, ArePositions};
ghost use Rattle.rc_engine.specs.Extraction.{extraction, net_value, numbered_nets, value_with};
ghost use Rattle.rc_engine.specs.Names.{numbering_of};
ghost use Rattle.rc_engine.specs.Totals.{AreSums};

use crate::naming::Naming;
use crate::net::value_of;
use crate::positions::{Position, positions_of};
use crate::value::value_at;
use rc_fixed::{List, NoMemory};
use rc_io::Pieces;
use rc_layout::Layout;
use rc_nodes::Node;
use rc_rules::Rules;
use rc_spef::{DNet, block_text, head_and_blocks, head_text};
use rc_tally::Tally;
use std::alloc::Global;

/// Appends the block of a net.
///
/// # Errors
///
/// `NoMemory` for want of memory.
pub fn put_block(value: &DNet, pieces: &mut Pieces) -> Result<(), NoMemory>
    ensures { OnOk result (pieces.new.bytes ≡ pieces.old.bytes ++ net_bytes value.now) }
{
    match block_text(value, pieces) {
        Ok(()) => Ok(()),
        Err(_) => Err(NoMemory),
    }
}

/// Appends what stands before the blocks of the nets.
fn put_head(
    alloc: Global,
    layout: &Layout,
    naming: &Naming,
    pieces: &mut Pieces,
) -> Result<(), NoMemory>
    requires { naming.now ≡ numbering_of layout.now }
    ensures { OnOk result (pieces.new.bytes ≡ pieces.old.bytes ++ head_bytes (value_with layout.now [])) }
{
    let head = value_of(alloc, layout, naming, List::new(alloc))?;
    match head_text(&head, pieces) {
        Ok(()) => Ok(()),
        Err(_) => Err(NoMemory),
    }
}

/// Appends the blocks of all nets, one after another, from the positions of the entries of each.
fn put_blocks(
    alloc: Global,
    layout: &Layout,
    rules: &Rules,
    naming: &Naming,
    nodes: &[List<Node>],
    tallies: &[Tally<u128>],
    lists: &[List<Position>],
    pieces: &mut Pieces,
) -> Result<(), NoMemory>
    requires naming { naming.now ≡ numbering_of layout.now }
    requires nodes { nodes.now ≡ map nodes_of layout.now.nets }
    requires sums { AreSums layout.now rules.now tallies.now }
    requires count { length lists.now ≡ length layout.now.nets }
    requires positions { ArePositions tallies.now lists.now (entries_of tallies.now) }
    ensures { OnOk result (pieces.new.bytes ≡ pieces.old.bytes ++ flat_map net_bytes (map (net_value layout.now rules.now) (numbered_nets layout.now))) }
{
    layout.facts();
    let mut entries = Vec::new(alloc);
    let mut number = 0;
    for own in lists {
        let value = value_at(
            alloc,
            layout,
            rules,
            naming,
            nodes,
            tallies,
            number,
            own.items(),
            &mut entries,
        )?;
        put_block(&value, pieces)?;
        number += 1;
    }
    Ok(())
}

/// The text of what a layout comes to, made net by net from the tallies of all windows.
///
/// # Errors
///
/// `NoMemory` for want of memory.
pub fn text_of(
    alloc: Global,
    layout: &Layout,
    rules: &Rules,
    naming: &Naming,
    nodes: &[List<Node>],
    tallies: &[Tally<u128>],
) -> Result<Pieces, NoMemory>
    requires naming { naming.now ≡ numbering_of layout.now }
    requires nodes { nodes.now ≡ map nodes_of layout.now.nets }
    requires sums { AreSums layout.now rules.now tallies.now }
    ensures { IfOk result (λ pieces. pieces.bytes ≡ spef_text (extraction layout.now rules.now)) }
{
    layout.facts();
    head_and_blocks();
    let lists = positions_of(alloc, layout.nets().len() as u32, tallies)?;
    let mut pieces = Pieces::new(alloc);
    put_head(alloc, layout, naming, &mut pieces)?;
    put_blocks(
        alloc,
        layout,
        rules,
        naming,
        nodes,
        tallies,
        lists.items(),
        &mut pieces,
    )?;
    Ok(pieces)
}
