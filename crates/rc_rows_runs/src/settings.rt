//! How the next run goes.

use anyhow::bail;
use std::alloc::Global;

/// The most bytes of a read or a write where nothing else is set.
const PIECE: usize = 1 << 16;

/// Calls that fail, by their numbers from 1. There is no call 0.
#[derive(Clone, Copy, Debug)]
pub struct Failing {
    pub files: u64,
    pub out: u64,
    pub err: u64,
}

impl Failing {
    /// Sets the call that fails, on the files, on `out` or on `err`.
    pub fn set(&mut self, whose: &str, call: u64) -> anyhow::Result<()> {
        match whose {
            "files" => self.files = call,
            "out" => self.out = call,
            "err" => self.err = call,
            _ => bail!("what fails?"),
        }
        Ok(())
    }
}

/// How the next run goes: with which numbers of workers, how many bytes a read or a write has at most, which calls
/// fail, and whether the passes are told.
#[derive(Drop)]
pub struct Settings {
    pub workers: Vec<String>,
    pub reads: usize,
    pub writes: usize,
    pub failing: Failing,
    pub tells_passes: bool,
}

impl Settings {
    /// One run, in large pieces, in which nothing fails.
    pub fn new(alloc: Global) -> Settings {
        Settings {
            workers: Vec::new(alloc),
            reads: PIECE,
            writes: PIECE,
            failing: Failing {
                files: 0,
                out: 0,
                err: 0,
            },
            tells_passes: false,
        }
    }

    /// Sets the numbers of workers.
    pub fn set_workers(&mut self, alloc: Global, numbers: &str) -> anyhow::Result<()> {
        for number in numbers.split(' ') {
            self.workers.push(String::from_str(alloc, number)?)?;
        }
        Ok(())
    }

    /// Sets which call fails.
    pub fn set_failing(&mut self, what: &str) -> anyhow::Result<()> {
        let Some((whose, number)) = what.split_once(' ') else {
            bail!("which call fails?");
        };
        self.failing.set(whose, number.parse()?)
    }
}
