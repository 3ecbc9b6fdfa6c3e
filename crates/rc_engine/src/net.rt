//! A net, and all that a SPEF value holds beside the nets.

ghost use Rattle.std.specs.Prelude.{◌≡◌, ◌≤◌, ◌<◌, ◌^◌, All, IfOk, length};
ghost use Rattle.rc_rules.specs.RuleFile.{HasRules};
ghost use Rattle.rc_layout.specs.Nets.{IsWellFormed};
ghost use Rattle.rc_nodes.specs.Nodes.{nodes_of, AreInOrder};
ghost use Rattle.rc_engine.specs.Extraction.{net_with, total_of as total_of_caps, value_with};
ghost use Rattle.rc_engine.specs.Names.{numbering_of};

use crate::conn::{connections, die_pins};
use crate::naming::{Naming, escaped};
use crate::resist::resistances;
use rc_fixed::{Fixed, List, NoMemory};
use rc_layout::{Layout, Net};
use rc_nodes::{Node, resistors};
use rc_rules::Rules;
use rc_spef::{Cap, DNet, Spef};
use std::alloc::Global;

/// The sum of capacitances.
fn total_of(caps: &[Cap]) -> u128
    requires { total_of_caps caps.now < 2 ^ 128 }
    ensures { result ≡ total_of_caps caps.now }
{
    let mut total = 0;
    for cap in caps {
        total += cap.value.0;
    }
    total
}

/// A net with these capacitances: its total is their sum, and beside them it has its connections and its resistors.
///
/// # Errors
///
/// `NoMemory` for want of memory.
pub fn net_of(
    alloc: Global,
    layout: &Layout,
    rules: &Rules,
    naming: &Naming,
    number: u32,
    net: &Net,
    nodes: &[Node],
    caps: List<Cap>,
) -> Result<DNet, NoMemory>
    requires number { number < 2 ^ 20 }
    requires net { IsWellFormed net.now }
    requires nodes { nodes.now ≡ nodes_of net.now }
    requires order { AreInOrder nodes.now }
    requires few { length nodes.now ≤ 2 ^ 22 }
    requires rules { All (λ item. HasRules rules.now item.layer) net.now.items }
    requires total { total_of_caps caps < 2 ^ 128 }
    ensures { IfOk result (λ of. of ≡ net_with layout.now rules.now naming.now (number, net.now) caps) }
{
    let conns = connections(alloc, layout, naming, net)?;
    let resistors = resistors(alloc, layout, net, nodes, rules)?;
    let res = resistances(alloc, number, conns.items(), resistors.items())?;
    Ok(DNet {
        name: naming.net(number),
        total: Fixed(total_of(caps.items())),
        conns,
        caps,
        res,
    })
}

/// A value with these nets: beside them it has the design's name, the bytes in names, the names and the die pins.
///
/// # Errors
///
/// `NoMemory` for want of memory.
pub fn value_of(
    alloc: Global,
    layout: &Layout,
    naming: &Naming,
    nets: List<DNet>,
) -> Result<Spef, NoMemory>
    requires { naming.now ≡ numbering_of layout.now }
    ensures { IfOk result (λ spef. spef ≡ value_with layout.now nets) }
{
    let (bus_left, bus_right) = layout.bus();
    Ok(Spef {
        design: escaped(alloc, layout, layout.design())?,
        divider: layout.divider(),
        bus_left,
        bus_right,
        names: naming.names(alloc, layout)?,
        ports: die_pins(alloc, layout, naming)?,
        nets,
    })
}
