//! What nets have.

ghost use Rattle.std.specs.Prelude.{◌≤◌, ◌^◌, [], All, IsTrue, length};
ghost use Rattle.rc_layout.specs.Facts.{Belongs};
ghost use Rattle.rc_layout.specs.Nets.{IsWellFormed};
ghost use Rattle.rc_rules.specs.RuleFile.{HasRules};
ghost use Rattle.rc_nodes.specs.Nodes.{AreInOrder};

use anyhow::bail;
use rc_geom::Tile;
use rc_keys::{Fault, Refusal};
use rc_layout::{Item, Layout, Net};
use rc_nodes::{Node, Res, ResEnd, nodes, resistors, tile_count, tiles};
use rc_rules::Rules;
use std::str;

/// A name as it is printed.
fn printed(name: &[u8]) -> &str {
    match str::from_utf8(name) {
        Ok(name) => name,
        Err(_) => "?",
    }
}

/// The nodes of a net.
fn show_nodes<R: Print>(rt: &R, nodes: &[Node]) -> anyhow::Result<()> {
    for node in nodes {
        println!(rt; "  node {} {} {}", node.layer, node.at.x, node.at.y)?;
    }
    Ok(())
}

/// The tiles of a net.
fn show_tiles<R: Print>(rt: &R, tiles: &[Tile]) -> anyhow::Result<()> {
    for tile in tiles {
        let rect = tile.rect;
        println!(rt;
            "  tile {} of {} {} on {} {} {} {} {}",
            tile.rank, tile.net, tile.node, tile.layer, rect.x0, rect.y0, rect.x1, rect.y1
        )?;
    }
    Ok(())
}

/// A resistor.
fn show_resistor<R: Print>(rt: &R, res: Res) -> anyhow::Result<()> {
    match res.b {
        ResEnd::Node(node) => Ok(println!(rt; "  resistor {} {node} {}", res.a, res.value)?),
        ResEnd::Conn(conn) => Ok(println!(rt; "  resistor {} at {conn} {}", res.a, res.value)?),
    }
}

/// The resistors of a net.
fn show_resistors<R: Print>(rt: &R, resistors: &[Res]) -> anyhow::Result<()> {
    for res in resistors {
        show_resistor(rt, *res)?;
    }
    Ok(())
}

/// Whether the layer of each item has rules.
fn are_ruled(rules: &Rules, items: &[Item]) -> bool
    ensures { IsTrue result → All (λ item. HasRules rules.now item.layer) items.now }
{
    match items {
        [] => true,
        [first, others @ ..] => rules.has(first.layer) && are_ruled(rules, others),
    }
}

/// What a net has, whose nodes these are.
fn show_all<R: Print + AllocGlobal>(
    rt: &R,
    layout: &Layout,
    rules: &Rules,
    number: u32,
    net: &Net,
    nodes: &[Node],
) -> anyhow::Result<()>
    requires net { IsWellFormed net.now }
    requires order { AreInOrder nodes.now }
    requires few { length nodes.now ≤ 2 ^ 22 }
{
    let tiles = tiles(rt.alloc(), number, net, nodes)?;
    println!(rt; "  tiles {}", tile_count(rt.alloc(), net, nodes)?)?;
    show_tiles(rt, tiles.items())?;
    if !are_ruled(rules, net.items.items()) {
        bail!("a layer has no rules");
    }
    let resistors = resistors(rt.alloc(), layout, net, nodes, rules)?;
    show_resistors(rt, resistors.items())
}

/// A net's nodes, tiles and resistors, or why it has none.
fn show_net<R: Print + AllocGlobal>(
    rt: &R,
    layout: &Layout,
    rules: &Rules,
    room: u32,
    number: u32,
    net: &Net,
) -> anyhow::Result<()>
    requires room { room ≤ 2 ^ 22 }
    requires net { IsWellFormed net.now }
{
    println!(rt; "net {}", printed(net.name.bytes()))?;
    match nodes(rt.alloc(), net, room) {
        Ok(nodes) => {
            show_nodes(rt, nodes.items())?;
            show_all(rt, layout, rules, number, net, nodes.items())
        }
        Err(Fault::Refused(Refusal::Limit { what })) => Ok(println!(rt; "  E14 {}", what.name())?),
        Err(_) => bail!("another fault"),
    }
}

/// The nets that aren't grounded.
fn show_nets<R: Print + AllocGlobal>(
    rt: &R,
    layout: &Layout,
    rules: &Rules,
    room: u32,
) -> anyhow::Result<()>
    requires { room ≤ 2 ^ 22 }
{
    layout.facts();
    for number in 0..layout.nets().len() {
        show_net(
            rt,
            layout,
            rules,
            room,
            number as u32,
            &layout.nets()[number],
        )?;
    }
    Ok(())
}

/// The grounded nets, which have no nodes.
fn show_grounded<R: Print + AllocGlobal>(rt: &R, layout: &Layout) -> anyhow::Result<()> {
    layout.facts();
    let first = layout.nets().len();
    for number in 0..layout.grounded().len() {
        let net = &layout.grounded()[number];
        println!(rt; "grounded {}", printed(net.name.bytes()))?;
        let tiles = tiles(rt.alloc(), (first + number) as u32, net, &[])?;
        show_tiles(rt, tiles.items())?;
    }
    Ok(())
}

/// The nets of a layout, of which one may have so many nodes.
pub fn show<R: Print + AllocGlobal>(
    rt: &R,
    layout: &Layout,
    rules: &Rules,
    room: u32,
) -> anyhow::Result<()> {
    if room > 1 << 22 {
        bail!("there is too much room");
    }
    println!(rt; "layout")?;
    show_nets(rt, layout, rules, room)?;
    show_grounded(rt, layout)
}
