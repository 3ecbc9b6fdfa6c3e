//! The best of several turns.

use crate::input::Input;
use crate::layer::Layer;
use std::io;
use std::thread::Threads;
use std::time::{Clock, Duration, Instant};

/// What a turn counted, and the time of the shortest.
#[derive(Clone, Copy, Debug)]
pub struct Best {
    pub count: u64,
    pub time: Duration,
}

/// Runs the layer so many times over the inputs, and at least once.
pub fn fastest<R: Clock + Threads + Sync + AllocGlobal>(
    rt: &R,
    layer: Layer,
    turns: u32,
    inputs: &[Input],
) -> io::Result<Best> {
    let mut best = turn(rt, layer, inputs)?;
    for _turn in 1..turns {
        let next = turn(rt, layer, inputs)?;
        if next.time < best.time {
            best = next;
        }
    }
    Ok(best)
}

/// One turn.
fn turn<R: Clock + Threads + Sync + AllocGlobal>(
    rt: &R,
    layer: Layer,
    inputs: &[Input],
) -> io::Result<Best> {
    let start = Instant::now(rt)?;
    let count = layer.turn(rt, rt.alloc(), inputs);
    let time = start.elapsed(rt)?;
    Ok(Best { count, time })
}
