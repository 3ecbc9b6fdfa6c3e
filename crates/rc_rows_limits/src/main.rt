//! Links designs at the limits of linking and one thing beyond them, and prints what each comes to: 2^20 nets, components and die
//! pins, and 2^22 pieces of wire in one net.
#![tactic(auto)]

mod design;

use design::Things;
use rc_fixed::NoMemory;
use rc_keys::{Fault, Refusal};
use rc_layout::link;
use rc_lef::{Tech, TechReader};
use std::alloc::Global;

/// One routing layer, and a cell without pins.
const TECHNOLOGY: &[u8] = b"UNITS DATABASE MICRONS 1000 ; END UNITS
LAYER m1 TYPE ROUTING ; WIDTH 0.1 ; END m1
MACRO BUF SIZE 1 BY 2 ; END BUF
END LIBRARY
";

/// Gives up a value.
fn discard<T: Drop>(_value: T) {}

fn technology(alloc: Global) -> anyhow::Result<Tech> {
    let mut reader = TechReader::new(alloc);
    let read = reader.file(TECHNOLOGY);
    let tech = reader.finish();
    match read {
        Ok(()) => Ok(tech),
        Err(_) => {
            discard(tech);
            Err(NoMemory.into())
        }
    }
}

/// What a design comes to.
fn told(alloc: Global, text: &[u8]) -> anyhow::Result<&'static str> {
    if text.len() > 1 << 30 {
        return Ok("too long");
    }
    let Ok(design) = rc_def::read(alloc, text) else {
        return Ok("not read");
    };
    let tech = technology(alloc)?;
    match link(alloc, tech, design) {
        Ok(layout) => {
            discard(layout);
            Ok("linked")
        }
        Err(Fault::Refused(Refusal::Limit { what })) => Ok(what.name()),
        Err(_) => Ok("otherwise refused"),
    }
}

fn main(rt: HostRuntime) -> anyhow::Result<()> {
    for things in Things::ALL {
        for count in [things.limit(), things.limit().saturating_add(1)] {
            let text = things.design(rt.alloc(), count)?;
            let told = told(rt.alloc(), &text)?;
            println!(&rt; "{count} {}: {told}", things.name())?;
        }
    }
    Ok(())
}
