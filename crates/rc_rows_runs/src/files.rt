//! The files of a script.

ghost use Rattle.std.specs.Prelude.{◌≤◌};

use rc_fixed::{List, NoMemory, Text};
use rc_io::MemFiles;
use std::alloc::Global;

/// A file by its name, and its text so far.
#[derive(Drop)]
struct File {
    name: String,
    text: Vec<u8>,
}

/// The files that a run finds, the one begun last behind the others.
#[derive(Drop)]
pub struct Shelf {
    files: Vec<File>,
}

impl Shelf {
    /// No files.
    pub fn new(alloc: Global) -> Shelf {
        Shelf {
            files: Vec::new(alloc),
        }
    }

    /// Takes the file of a name away.
    pub fn remove(&mut self, name: &str) {
        if let Some(place) = self
            .files
            .iter()
            .position(|file| file.name.as_str() == name)
        {
            self.files.remove(place);
        }
    }

    /// Begins a file, in place of what has that name.
    pub fn begin(&mut self, alloc: Global, name: &str) -> anyhow::Result<()> {
        self.remove(name);
        self.files.push(File {
            name: String::from_str(alloc, name)?,
            text: Vec::new(alloc),
        })?;
        Ok(())
    }

    /// Writes a piece at the end of the file that was begun last.
    pub fn write(&mut self, piece: &[u8]) -> anyhow::Result<()> {
        if let Some(file) = self.files.last_mut() {
            file.text.extend_from_slice(piece)?;
        }
        Ok(())
    }

    /// The length of the file of a name.
    pub fn length(&self, name: &str) -> usize {
        match self.files.iter().find(|file| file.name.as_str() == name) {
            Some(file) => file.text.len(),
            None => 0,
        }
    }

    /// Cuts the file of a name to so many bytes, where it has more.
    pub fn cut(&mut self, name: &str, length: usize) {
        if let Some(file) = self
            .files
            .iter_mut()
            .find(|file| file.name.as_str() == name)
        {
            file.text.truncate(length);
        }
    }

    /// The same files in memory, of which a read gives at most so many bytes, and this call fails.
    pub fn open(&self, alloc: Global, most: usize, failing: List<u64>) -> Result<MemFiles, NoMemory>
        requires { 1 ≤ most }
    {
        let mut files = List::new(alloc);
        for file in &self.files {
            files.push((
                Text::from(alloc, file.name.as_bytes())?,
                Text::from(alloc, &file.text)?,
            ))?;
        }
        MemFiles::new(alloc, files, most, failing)
    }
}
