//! The first short of files of a row's own.

use crate::given::{Outcome, discard, link_over, technology_of};
use crate::shown::{refused, show_short};
use anyhow::bail;
use rc_layout::Layout;
use rc_shorts::first_short;

/// Prints the first short of a layout, or that there is none.
fn tell_first<R: Print + AllocGlobal>(rt: &R, layout: &Layout) -> anyhow::Result<()> {
    match first_short(rt.alloc(), layout)? {
        Some(short) => show_short(rt, "short", short),
        None => Ok(println!(rt; "no short")?),
    }
}

/// Prints the first short of what was linked.
fn tell_linked<R: Print + AllocGlobal>(rt: &R, linked: Outcome) -> anyhow::Result<()> {
    match linked {
        Outcome::Layout(layout) => {
            let told = tell_first(rt, &layout);
            discard(layout);
            told
        }
        Outcome::Fault(fault) => refused(rt, fault),
    }
}

/// Prints the first short of two LEF files and a design.
pub fn tell_short<R: Print + AllocGlobal>(rt: &R, texts: &str) -> anyhow::Result<()> {
    let Some((first, others)) = texts.split_once('~') else {
        bail!("no second file");
    };
    let Some((second, design)) = others.split_once('~') else {
        bail!("no design");
    };
    let tech = technology_of(rt.alloc(), first, second)?;
    tell_linked(rt, link_over(rt.alloc(), tech, design)?)
}
