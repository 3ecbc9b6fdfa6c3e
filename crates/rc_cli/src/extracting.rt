//! From a layout and its rules to the extraction.

ghost use Rattle.std.specs.Prelude.{◌≡◌, ◌≤◌, ◌+◌, ◌^◌, IfOk, IfErr, OnOk};
ghost use Rattle.rc_engine.specs.Extraction.{extraction};
ghost use Rattle.rc_engine.specs.Start.{grid_of};
ghost use Rattle.rc_cli.specs.Outcome.{Done, extracted as extracted_of, passes_for};
ghost use Rattle.rc_cli.specs.Work.{IsRefusedBy};

use crate::stages::Placed;
use crate::stop::{Stop, refused};
use rc_engine::Engine;
use rc_fixed::NoMemory;
use rc_spef::Spef;
use rc_sweep::Meter;
use rc_windows::Gate;
use std::alloc::Global;
use std::thread::Threads;

/// Lets a value go.
fn discard<T: Drop>(_value: T) {}

/// Starts the engine over a layout: it refuses the layout, or sweeps its windows, two passes for each.
///
/// # Errors
///
/// The refusal of a layer in use without rules, of too many nodes or tiles, or of the first short; or want of memory.
pub fn started<R: Threads + Sync, M: Meter, G: Gate>(
    rt: &R,
    alloc: Global,
    workers: u32,
    def: &str,
    placed: Placed,
    meter: &mut M,
    gate: &G,
) -> Result<Engine, Stop>
    requires some { 1 ≤ workers }
    requires most { workers ≤ 64 }
    requires drawn { M.drawn meter.old ≤ 2 ^ 62 }
    ensures layout { IfOk result (λ engine. engine.layout ≡ placed.layout) }
    ensures rules { IfOk result (λ engine. engine.rules ≡ placed.rules) }
    ensures grid { IfOk result (λ engine. engine.frame ≡ grid_of placed.layout placed.rules) }
    ensures touched { IfOk result (λ engine. engine.touched ≡ 0) }
    ensures accepted { IfOk result (λ engine. extracted_of def.now placed ≡ Done (extraction placed.layout placed.rules)) }
    ensures refused { IfErr result (IsRefusedBy (extracted_of def.now placed)) }
    ensures ok { OnOk result (M.drawn meter.new ≡ M.drawn meter.old + passes_for placed) }
    ensures least { M.drawn meter.old ≤ M.drawn meter.new }
    ensures spent { M.drawn meter.new ≤ M.drawn meter.old + passes_for placed }
    ensures few { IfOk result (λ _. M.drawn meter.new ≤ M.drawn meter.old + 2 ^ 21) }
{
    let Placed {
        layout,
        rules,
        room: _,
    } = placed;
    match Engine::new(rt, alloc, layout, rules, workers, gate, meter) {
        Ok(engine) => Ok(engine),
        Err(fault) => {
            let why = refused(alloc, Some(&fault.layout), def, &fault.fault);
            discard(fault);
            Err(why)
        }
    }
}

/// What a layout comes to: its extraction, by so many workers.
///
/// # Errors
///
/// The refusal of a layer in use without rules, of too many nodes or tiles, or of the first short; or want of memory.
pub fn extracted<R: Threads + Sync, M: Meter, G: Gate>(
    rt: &R,
    alloc: Global,
    workers: u32,
    def: &str,
    placed: Placed,
    meter: &mut M,
    gate: &G,
) -> Result<Spef, Stop>
    requires some { 1 ≤ workers }
    requires most { workers ≤ 64 }
    requires drawn { M.drawn meter.old ≤ 2 ^ 62 }
    ensures done { IfOk result (λ spef. extracted_of def.now placed ≡ Done spef) }
    ensures refused { IfErr result (IsRefusedBy (extracted_of def.now placed)) }
    ensures ok { OnOk result (M.drawn meter.new ≡ M.drawn meter.old + passes_for placed) }
    ensures least { M.drawn meter.old ≤ M.drawn meter.new }
    ensures spent { M.drawn meter.new ≤ M.drawn meter.old + passes_for placed }
{
    let engine = match started(rt, alloc, workers, def, placed, meter, gate) {
        Ok(engine) => engine,
        Err(why) => return Err(why),
    };
    let extraction = engine.parasitics(alloc);
    discard(engine);
    match extraction {
        Ok(spef) => Ok(spef),
        Err(NoMemory) => Err(Stop::NoMemory),
    }
}
