//! Files in memory, whose calls fail as listed.

ghost use Rattle.std.specs.Prelude.{◌≡◌, ◌⊎◌, ◌↔◌, ◌<◌, ◌≤◌, ◌+◌, ◌++◌, [], List as Elements, ℕ, Option, Some, None, true, length, take, min, replicate, IfOk, OnOk, OnErr, IsErr, IsTrue, Contains};
ghost use Rattle.std.specs.Option.{ForSome};
ghost use Rattle.rc_io.specs.Causes.{Rose, next_count};
ghost use Rattle.rc_io.specs.Memory.{place_of, content_at, content_of, rest_of, IsBegun, faults_of, after_call, after_fault, after_begin};

use crate::{Failed, Files};
use rc_fixed::{List, NoMemory, Text};
use std::alloc::Global;
use std::marker::Model;

/// Files in memory, which tell all that they hold and fail where they are told to.
///
/// The first file of a name counts. The calls of `begin` and `read` are numbered from 1. Each file has a count
/// of faults, and all names that no file has share one.
#[derive(Drop)]
pub struct MemFiles {
    files: List<(Text, Text)>,
    most: usize,
    failing: List<u64>,
    calls: u64,
    begun: Option<usize>,
    done: usize,
    counts: Vec<u64>,
    elsewhere: u64,
}

impl Model for MemFiles {
    ghost use Rattle.std.specs.Prelude.{◌≡◌, ◌<◌, ◌≤◌, length};
    ghost use Rattle.std.specs.Option.{ForSome};
    ghost use Rattle.rc_io.specs.Memory.{FilesInMemory, content_at};

    ghost Value = { FilesInMemory };

    ghost view = { λ held. record {
      files = held.files;
      most = held.most;
      failing = held.failing;
      calls = held.calls;
      begun = held.begun;
      done = held.done;
      counts = held.counts.items;
      elsewhere = held.elsewhere;
    } };

    ghost invariant = { λ held. (1 ≤ held.most) × (length held.counts.items ≡ length held.files)
        × ForSome held.begun (λ place. (place < length held.files)
        × (held.done ≤ length (content_at held.files place))) };
}

impl MemFiles {
    /// Files with these names and contents. A read gives at most `most` bytes, and the calls whose numbers are
    /// listed fail.
    ///
    /// # Errors
    ///
    /// `NoMemory` where there is none for the counts.
    pub fn new(
        alloc: Global,
        files: List<(Text, Text)>,
        most: usize,
        failing: List<u64>,
    ) -> Result<MemFiles, NoMemory>
        requires { 1 ≤ most }
        ensures { IfOk result (λ held. held ≡ record {
          files = files;
          most = most;
          failing = failing;
          calls = 0;
          begun = None;
          done = 0;
          counts = replicate (length files) 0;
          elsewhere = 0;
        }) }
    {
        let counts = vec![in alloc; 0; files.items().len()]?;
        Ok(MemFiles {
            files,
            most,
            failing,
            calls: 0,
            begun: None,
            done: 0,
            counts,
            elsewhere: 0,
        })
    }

    /// How often files of that name have failed.
    pub fn faults(&self, name: &str) -> u64
        ensures { result ≡ faults_of self.now name.now }
    {
        match find(self.files.items(), name) {
            Some(place) => self.counts[place],
            None => self.elsewhere,
        }
    }

    /// Counts a call, and answers whether it is one that fails.
    fn fails_now(&mut self) -> bool
        ensures listed { IsTrue result ↔ Contains self.old.failing (next_count self.old.calls) }
        ensures counted { self.new ≡ after_call self.old }
    {
        self.calls = self.calls.saturating_add(1);
        self.failing.items().contains(&self.calls)
    }

    /// Counts a fault of the file at that place, or of a name that no file has.
    fn fault(&mut self, place: Option<usize>) -> Failed
        requires { ForSome place (λ at. at < length self.old.files) }
        ensures counted { self.new ≡ after_fault self.old place }
        ensures later { (n : Elements ℕ) → faults_of self.old n ≤ faults_of self.new n }
    {
        match place {
            Some(at) => self.counts[at] = self.counts[at].saturating_add(1),
            None => self.elsewhere = self.elsewhere.saturating_add(1),
        }
        Failed
    }
}

/// The place of the first file of that name.
fn find(files: &[(Text, Text)], name: &str) -> Option<usize>
    ensures { result ≡ place_of files.now name.now }
{
    files
        .iter()
        .position(|file| file.0.bytes() == name.as_bytes())
}

/// What the file at a place holds.
fn content(files: &[(Text, Text)], place: usize) -> &[u8]
    requires { place < length files.now }
    ensures { result.now ≡ content_at files.now place }
{
    files[place].1.bytes()
}

/// Copies as many of the bytes that are left as one read gives, and answers how many.
fn copy_front(left: &[u8], buffer: &mut [u8], most: usize) -> usize
    ensures exact { result ≡ min (min (length buffer.old) most) (length left.now) }
    ensures bytes { take result buffer.new ≡ take result left.now }
{
    let count = buffer.len().min(most).min(left.len());
    buffer[..count].copy_from_slice(&left[..count]);
    count
}

impl Files for MemFiles {
    ghost tells = { λ held. true };

    ghost text = { content_of };

    ghost rest = { rest_of };

    ghost begun = { IsBegun };

    ghost faults = { faults_of };

    /// Fails exactly at a listed call and for a name that no file has. The file that was begun before stays
    /// so then, and the name's own count of faults is raised by one.
    fn begin(&mut self, name: &str) -> Result<(), Failed>
        ensures text { (n : Elements ℕ) → content_of self.new n ≡ content_of self.old n }
        ensures begun { OnOk result (IsBegun self.new name.now) }
        ensures rest { OnOk result (content_of self.old name.now ≡ Some (rest_of self.new)) }
        ensures later { (n : Elements ℕ) → faults_of self.old n ≤ faults_of self.new n }
        ensures cause { OnErr result (Rose (faults_of self.old name.now) (faults_of self.new name.now)) }

        ensures fails { IsErr result ↔ (Contains self.old.failing (next_count self.old.calls)
            ⊎ (place_of self.old.files name.now ≡ None)) }
        ensures begins { OnOk result
            (self.new ≡ after_begin (after_call self.old) (place_of self.old.files name.now)) }
        ensures counts { OnErr result
            (self.new ≡ after_fault (after_call self.old) (place_of self.old.files name.now)) }
    {
        let place = find(self.files.items(), name);
        let fails = self.fails_now();
        match place {
            Some(at) if !fails => {
                self.begun = Some(at);
                self.done = 0;
                Ok(())
            }
            _ => Err(self.fault(place)),
        }
    }

    /// Fails exactly at a listed call. Nothing is read then, and the begun file's own count of faults is raised
    /// by one.
    fn read(&mut self, buffer: &mut [u8]) -> Result<usize, Failed>
        requires room { 0 < length buffer.old }
        requires begun { (n : Elements ℕ) × IsBegun self.old n }
        ensures text { (n : Elements ℕ) → content_of self.new n ≡ content_of self.old n }
        ensures begun { (n : Elements ℕ) → IsBegun self.new n ↔ IsBegun self.old n }
        ensures count { IfOk result (λ count. count ≤ length buffer.new) }
        ensures bytes { IfOk result (λ count.
            rest_of self.old ≡ take count buffer.new ++ rest_of self.new) }
        ensures end { IfOk result (λ count. (count ≡ 0) ↔ (rest_of self.old ≡ [])) }
        ensures err { OnErr result (rest_of self.new ≡ rest_of self.old) }
        ensures later { (n : Elements ℕ) → faults_of self.old n ≤ faults_of self.new n }
        ensures cause { OnErr result ((n : Elements ℕ) → IsBegun self.old n → Rose (faults_of self.old n) (faults_of self.new n)) }

        ensures fails { IsErr result ↔ Contains self.old.failing (next_count self.old.calls) }
        ensures exact { IfOk result (λ count.
            count ≡ min (min (length buffer.old) self.old.most) (length (rest_of self.old))) }
        ensures reads { IfOk result (λ count.
            self.new ≡ record (after_call self.old) { done = self.old.done + count }) }
        ensures counts { OnErr result (self.new ≡ after_fault (after_call self.old) self.old.begun) }
    {
        let fails = self.fails_now();
        let Some(place) = self.begun else {
            unreachable!();
        };
        if fails {
            return Err(self.fault(Some(place)));
        }
        let left = &content(self.files.items(), place)[self.done..];
        let count = copy_front(left, buffer, self.most);
        self.done += count;
        Ok(count)
    }
}
