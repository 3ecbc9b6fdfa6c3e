//! Layers that stand over an engine: each reads the files, links the design and starts an engine over the layout first.

ghost use Rattle.std.specs.Prelude.{◌≤◌};

use crate::input::Input;
use crate::linked::{discard, layout_over, rules, technology};
use rc_engine::Engine;
use rc_io::Gather;
use rc_rules::Rules;
use rc_spef::Spef;
use rc_sweep::CountMeter;
use rc_windows::FreeGate;
use std::alloc::Global;
use std::thread::Threads;

/// An engine over the layout of the files, by the rules, with the passes that it drew.
fn engine_by<R: Threads + Sync>(
    rt: &R,
    alloc: Global,
    inputs: &[Input],
    workers: u32,
) -> Option<(Engine, u64)>
    requires some { 1 ≤ workers }
    requires most { workers ≤ 64 }
{
    let Some(tech) = technology(alloc, inputs) else {
        return None;
    };
    let Some(rules) = rules(alloc, &tech, inputs) else {
        discard(tech);
        return None;
    };
    let Some(layout) = layout_over(alloc, tech, inputs) else {
        discard(rules);
        return None;
    };
    let mut meter = CountMeter::new();
    match Engine::new(rt, alloc, layout, rules, workers, &FreeGate, &mut meter) {
        Ok(engine) => Some((engine, meter.count())),
        Err(fault) => {
            discard(fault);
            None
        }
    }
}

/// How many passes an engine draws over the design of the files; 0 where a file or the layout is refused.
pub fn passes<R: Threads + Sync>(rt: &R, alloc: Global, inputs: &[Input], workers: u32) -> u64
    requires some { 1 ≤ workers }
    requires most { workers ≤ 64 }
{
    match engine_by(rt, alloc, inputs, workers) {
        Some((engine, passes)) => {
            discard(engine);
            passes
        }
        None => 0,
    }
}

/// How many bytes the text of a value has.
fn bytes_of(alloc: Global, spef: &Spef) -> u64 {
    let mut sink = Gather::new(alloc);
    match rc_spef::text(spef, &mut sink) {
        Ok(()) => sink.bytes().len() as u64,
        Err(_) => 0,
    }
}

/// How many bytes the SPEF text of the design of the files has; 0 where a file or the layout is refused.
pub fn text_bytes<R: Threads + Sync>(rt: &R, alloc: Global, inputs: &[Input]) -> u64 {
    let Some((engine, _passes)) = engine_by(rt, alloc, inputs, 1) else {
        return 0;
    };
    let count = match engine.parasitics(alloc) {
        Ok(spef) => {
            let count = bytes_of(alloc, &spef);
            discard(spef);
            count
        }
        Err(_) => 0,
    };
    discard(engine);
    count
}
