//! `rc_bench` times one layer of the program on files that are given, for who works on it.
#![tactic(auto)]

mod extracted;
mod input;
mod layer;
mod linked;
mod turns;

use anyhow::Context;
use input::Input;
use layer::Layer;
use std::rt::{Clock, Env, Files};
use std::thread::Threads;
use std::{env, io};

const USAGE: &str = "usage: rc_bench LAYER TURNS FILE..
Runs one layer of the program over the files, so many times, and prints what it counted in a turn and the seconds of the best one.
Layers: tokens, def, lef, spef, rewrite, link, shorts, nodes, engine, engine4, text
";

/// The words after the program's name.
fn words<R: Env + AllocGlobal>(rt: &R) -> io::Result<Vec<String>> {
    let mut words = Vec::new(rt.alloc());
    for word in env::args(rt)?.skip(1) {
        words.push(word)?;
    }
    Ok(words)
}

/// Times the layer of that name, and prints what it counted and the seconds.
fn measure<R: Print + Files + Clock + Threads + Sync + AllocGlobal>(
    rt: &R,
    layer: &str,
    turns: &str,
    names: &[String],
) -> anyhow::Result<()> {
    let layer = Layer::named(layer).context("there is no such layer")?;
    let turns: u32 = turns.parse().context("the number of turns")?;
    let mut inputs = Vec::new(rt.alloc());
    for name in names {
        inputs.push(Input::read(rt, name)?)?;
    }
    let best = turns::fastest(rt, layer, turns, &inputs)?;
    println!(rt; "{} {}", layer.unit(), best.count)?;
    println!(rt; "seconds {:.6}", best.time.as_secs_f64())?;
    Ok(())
}

fn main(rt: HostRuntime) -> anyhow::Result<()> {
    let words = words(&rt)?;
    match words.as_slice() {
        [layer, turns, names @ ..] => measure(&rt, layer, turns, names),
        _ => Ok(print!(&rt; "{USAGE}")?),
    }
}
