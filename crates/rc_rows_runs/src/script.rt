//! The lines of a script.

use crate::ending::Ending;
use crate::files::Shelf;
use crate::settings::Settings;
use anyhow::bail;
use rc_cli::run;
use rc_fixed::{List, NoMemory};
use rc_io::MemSink;
use rc_sweep::CountMeter;
use rc_windows::FreeGate;
use std::alloc::Global;
use std::thread::Threads;

/// How many bytes a run may write.
const ROOM: usize = 1 << 20;

/// What a script has set so far.
#[derive(Drop)]
pub struct Script {
    shelf: Shelf,
    settings: Settings,
}

impl Script {
    /// No files, and nothing set.
    pub fn new(alloc: Global) -> Script {
        Script {
            shelf: Shelf::new(alloc),
            settings: Settings::new(alloc),
        }
    }

    /// Does what a line says.
    pub fn obey<R: Threads + Sync + Print + AllocGlobal>(
        &mut self,
        rt: &R,
        line: &str,
    ) -> anyhow::Result<()> {
        if let Some(text) = line.strip_prefix('|') {
            self.shelf.write(text.as_bytes())?;
            return self.shelf.write(b"\n");
        }
        if let Some(text) = line.strip_prefix(':') {
            return self.shelf.write(text.as_bytes());
        }
        match line.split_once(' ') {
            Some(("file", name)) => self.shelf.begin(rt.alloc(), name),
            Some(("byte", number)) => self.shelf.write(&[number.parse()?]),
            Some(("remove", name)) => Ok(self.shelf.remove(name)),
            Some(("run", words)) => self.run(rt, words),
            Some(("fronts", what)) => self.run_fronts(rt, what),
            Some(("calls", what)) => self.run_calls(rt, what),
            Some((setting, value)) => self.set(rt.alloc(), setting, value),
            None => Ok(()),
        }
    }

    /// Sets how the next run goes.
    fn set(&mut self, alloc: Global, setting: &str, value: &str) -> anyhow::Result<()> {
        match setting {
            "workers" => self.settings.set_workers(alloc, value)?,
            "passes" => self.settings.tells_passes = true,
            "failing" => self.settings.set_failing(value)?,
            "reads" => self.settings.reads = value.parse()?,
            "writes" => self.settings.writes = value.parse()?,
            _ => (),
        }
        Ok(())
    }

    /// Runs the program, and prints how it ends.
    fn run<R: Threads + Sync + Print + AllocGlobal>(
        &mut self,
        rt: &R,
        words: &str,
    ) -> anyhow::Result<()> {
        let settings = std::mem::replace(&mut self.settings, Settings::new(rt.alloc()));
        println!(rt; "{words}")?;
        let Some((first, others)) = settings.workers.split_first() else {
            let ending = self.ending(rt, &settings, words, "W")?;
            return ending.print(rt, settings.tells_passes);
        };
        let ending = self.ending(rt, &settings, words, first)?;
        ending.print(rt, settings.tells_passes)?;
        for workers in others {
            let other = self.ending(rt, &settings, words, workers)?;
            if !other.is_like(&ending) {
                println!(rt; "otherwise with {workers} workers:")?;
                other.print(rt, true)?;
            }
        }
        Ok(())
    }

    /// Runs the program over each front of a file, from the whole down to nothing, and prints how runs of lengths end.
    fn run_fronts<R: Threads + Sync + Print + AllocGlobal>(
        &mut self,
        rt: &R,
        what: &str,
    ) -> anyhow::Result<()> {
        let Some((name, words)) = what.split_once(' ') else {
            bail!("the fronts of what?");
        };
        println!(rt; "fronts of {name}: {words}")?;
        let mut last = None;
        for length in (0..=self.shelf.length(name)).rev() {
            self.shelf.cut(name, length);
            let status = self.ending(rt, &self.settings, words, "W")?.status;
            if last != Some(status) {
                println!(rt; "up to {length} bytes: status {status}")?;
                last = Some(status);
            }
        }
        Ok(())
    }

    /// Runs the program with each of the first calls of a kind failing in turn, and prints how each run ends.
    fn run_calls<R: Threads + Sync + Print + AllocGlobal>(
        &mut self,
        rt: &R,
        what: &str,
    ) -> anyhow::Result<()> {
        let settings = std::mem::replace(&mut self.settings, Settings::new(rt.alloc()));
        let Some((kind, rest)) = what.split_once(' ') else {
            bail!("calls of what?");
        };
        let Some((count, words)) = rest.split_once(' ') else {
            bail!("how many calls?");
        };
        let count: u64 = count.parse()?;
        let mut settings = settings;
        println!(rt; "failing calls on {kind}: {words}")?;
        for call in 1..=count {
            settings.failing.set(kind, call)?;
            let ending = self.ending(rt, &settings, words, "W")?;
            let out = ending.out.bytes().len();
            print!(rt; "call {call}: status {}, {out} bytes", ending.status)?;
            ending.print_line(rt)?;
        }
        Ok(())
    }

    /// How a run with so many workers ends.
    fn ending<R: Threads + Sync + AllocGlobal>(
        &self,
        rt: &R,
        settings: &Settings,
        words: &str,
        workers: &str,
    ) -> anyhow::Result<Ending> {
        if settings.reads == 0 || settings.writes == 0 {
            bail!("a piece has a byte at least");
        }
        let alloc = rt.alloc();
        let words = word_list(alloc, words, workers)?;
        let failing = only(alloc, settings.failing.files)?;
        let mut files = self.shelf.open(alloc, settings.reads, failing)?;
        let failing = only(alloc, settings.failing.out)?;
        let mut out = MemSink::new(alloc, settings.writes, ROOM, failing)?;
        let failing = only(alloc, settings.failing.err)?;
        let mut err = MemSink::new(alloc, settings.writes, ROOM, failing)?;
        let mut meter = CountMeter::new();
        let status = run(
            rt, alloc, &words, &mut files, &mut out, &mut err, &mut meter, &FreeGate,
        );
        Ok(Ending {
            status,
            passes: meter.count(),
            out,
            err,
        })
    }
}

/// The words of a run, with a number of workers in place of `W`.
fn word_list(alloc: Global, words: &str, workers: &str) -> anyhow::Result<Vec<String>> {
    let mut list = Vec::new(alloc);
    for word in words.split(' ') {
        let word = match word {
            "W" => workers,
            "''" => "",
            _ => word,
        };
        list.push(String::from_str(alloc, word)?)?;
    }
    Ok(list)
}

/// The list of one number.
fn only(alloc: Global, number: u64) -> Result<List<u64>, NoMemory> {
    let mut numbers = List::new(alloc);
    numbers.push(number)?;
    Ok(numbers)
}
