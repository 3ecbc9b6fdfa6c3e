//! Reads rows from the standard input, and prints the first short of each: a row is a list of shapes, or a list without a short,
//! the number of a net, and the new shapes of that net, with bars between them. The answer is `none`, or the two nets, the layer
//! and the point.
#![tactic(auto)]

mod shapes;

use rc_fixed::NoMemory;
use rc_shorts::{Short, first_among, short_among_with};
use shapes::shapes;
use std::alloc::Global;
use std::io::{BufRead, BufReader};

/// What a row comes to.
fn first(alloc: Global, row: &str) -> anyhow::Result<Option<Short>> {
    let mut parts = row.split('|');
    let whole = shapes(alloc, parts.next().unwrap_or(""))?;
    match (parts.next(), parts.next()) {
        (Some(net), Some(new)) => {
            let number = net.trim().parse::<u32>()?;
            Ok(short_among_with(alloc, &whole, number, &shapes(alloc, new)?)?)
        }
        _ => Ok(first_among(alloc, &whole)?),
    }
}

/// Prints what a row comes to.
fn answer<R: Print + AllocGlobal>(rt: &R, row: &str) -> anyhow::Result<()> {
    match first(rt.alloc(), row)? {
        Some(short) => Ok(println!(rt;
            "{} {} {} {} {}",
            short.first, short.second, short.layer, short.at.x, short.at.y
        )?),
        None => Ok(println!(rt; "none")?),
    }
}

fn main(rt: HostRuntime) -> anyhow::Result<()> {
    for line in BufReader::new(rt.alloc(), rt.reader())?.lines(rt.alloc()) {
        answer(&rt, line?.as_str())?;
    }
    Ok(())
}
