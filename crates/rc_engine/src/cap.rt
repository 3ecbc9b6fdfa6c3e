//! The capacitances of a net.

ghost use Rattle.std.specs.Prelude.{◌≡◌, All, map, nat_lt, ◌^◌, IfOk};
ghost use Rattle.rc_geom.specs.Sums.{numbers};
ghost use Rattle.rc_tally.specs.Tallies.{AllFit};
ghost use Rattle.rc_engine.specs.OwnEntries.{entry_cap, HasNames};
ghost use Rattle.rc_engine.specs.Totals.{AreCapsOf};

use crate::resist::node_end;
use rc_fixed::{Fixed, List, NoMemory};
use rc_geom::Key;
use rc_spef::Cap;
use rc_tally::{Entry, Tally};
use std::alloc::Global;

/// The capacitance of an entry.
fn cap_of(entry: &Entry<u128>) -> Cap
    requires { HasNames entry.now.key }
    ensures { result ≡ entry_cap entry.now }
{
    let value = Fixed(entry.value);
    match entry.key {
        Key::Ground { net, node } => Cap {
            a: node_end(net, node),
            b: None,
            value,
        },
        Key::Pair {
            net,
            node,
            other,
            onode,
        } => Cap {
            a: node_end(net, node),
            b: Some(node_end(other, onode)),
            value,
        },
    }
}

/// The capacitances of entries, of which each has a key of its own: of a node alone, or of a node with one of another net behind it.
fn caps(alloc: Global, entries: &[Entry<u128>]) -> Result<List<Cap>, NoMemory>
    requires { All (λ e. HasNames e.key) entries.now }
    ensures { IfOk result (λ caps. caps ≡ map entry_cap entries.now) }
{
    let mut caps = List::with_capacity(alloc, entries.len())?;
    for entry in entries {
        caps.push(cap_of(entry))?;
    }
    Ok(caps)
}

/// The capacitances of a net, from what all windows have for it. The entries of a key are added up; they come to stand in order.
///
/// # Errors
///
/// `NoMemory` for want of memory.
pub fn capacitances(alloc: Global, entries: &mut [Entry<u128>]) -> Result<List<Cap>, NoMemory>
    requires names { All (λ e. HasNames e.key) entries.old }
    requires fits { AllFit numbers (λ value. nat_lt value (2 ^ 128)) entries.old }
    ensures { IfOk result (AreCapsOf entries.old) }
{
    let tally = Tally::gather(alloc, entries)?;
    caps(alloc, tally.entries())
}
