//! What is read of a script so far.

ghost use Rattle.std.specs.Prelude.{◌≡◌, ◌++◌, ◌∷◌, [], OnOk, IfOk};
ghost use Rattle.rc_keys.specs.Course.{Turned};
ghost use Rattle.rc_script.specs.Begins as begins;
ghost use Rattle.rc_script.specs.Means as means;

use crate::command::Command;
use crate::item::{ScriptItem, Stage};
use rc_fixed::{List, NoMemory, Text};
use rc_keys::{Code, Lexeme, Turn};
use rc_wire::{Key, Operands, RawPath, Wiring};
use std::alloc::Global;
use std::mem;

/// What is read of a script so far: its commands, what may stand next, and the edit that is open, with its net, its line
/// and the paths that are complete. `wiring` has the paths that are open.
#[derive(Drop)]
pub struct Draft {
    pub commands: List<Command>,
    pub stage: Stage,
    pub name: Text,
    pub line: u32,
    pub paths: List<RawPath>,
    pub wiring: Wiring,
}

/// The item that the word of a command begins.
#[tactic(auto, unfolding(crate::specs::Begins::command_of))]
fn command_of(word: &[u8]) -> Result<ScriptItem, Code>
    ensures { result ≡ begins.command_of word.now }
{
    if word == b"REPLACE".as_slice() {
        return Ok(ScriptItem::Replace);
    }
    if word == b"SPEF".as_slice() {
        return Ok(ScriptItem::Spef);
    }
    if word == b"NET".as_slice() {
        return Ok(ScriptItem::Net);
    }
    if word == b"STAT".as_slice() {
        return Ok(ScriptItem::Stat);
    }
    if word == b"END".as_slice() {
        return Ok(ScriptItem::End);
    }
    Err(Code::E03)
}

/// The item that a token begins where a command is due.
fn begins_command(key: Key, word: &Lexeme<'_>) -> Result<ScriptItem, Code>
    ensures { result ≡ begins.command key word.now.bytes }
{
    if key.is_quoted() {
        return Err(Code::E03);
    }
    command_of(word.bytes())
}

/// The item that a token begins behind a net.
fn begins_body(key: Key) -> Result<ScriptItem, Code>
    ensures { result ≡ begins.body key }
{
    match key {
        Key::Plus => Ok(ScriptItem::Plus),
        Key::Semicolon => Ok(ScriptItem::Unwired),
        _ => Err(Code::E03),
    }
}

/// The item that the word of the wiring begins.
fn begins_kind(key: Key) -> Result<ScriptItem, Code>
    ensures { result ≡ begins.kind key }
{
    match key {
        Key::Routed | Key::Fixed | Key::Cover | Key::NoShield => Ok(ScriptItem::Routed),
        _ => Err(Code::E03),
    }
}

impl Draft {
    /// Nothing is read.
    pub fn new(alloc: Global) -> Draft
        ensures { result ≡ means.nothing_read }
    {
        Draft {
            commands: List::new(alloc),
            stage: Stage::Command,
            name: Text::new(alloc),
            line: 0,
            paths: List::new(alloc),
            wiring: Wiring::new(alloc, false, 0),
        }
    }

    /// An item of a path, or what ends the paths.
    fn begins_paths(&self, key: Key) -> Result<ScriptItem, Code>
        ensures { result ≡ begins.paths self.now.wiring key }
    {
        match self.wiring.begins(key) {
            Ok(Some(item)) => Ok(ScriptItem::Path(item)),
            Ok(None) => match key {
                Key::Plus => Ok(ScriptItem::PathsPlus),
                _ => Ok(ScriptItem::PathsDone),
            },
            Err(code) => Err(code),
        }
    }

    /// Which item a token begins. The code is that of a token that begins none.
    #[tactic(auto, unfolding(crate::specs::Begins::begins))]
    pub fn begins(&self, key: Key, word: &Lexeme<'_>) -> Result<ScriptItem, Code>
        ensures { result ≡ begins.begins self.now key word.now }
    {
        match self.stage {
            Stage::Command => begins_command(key, word),
            Stage::Body => begins_body(key),
            Stage::Kind => begins_kind(key),
            Stage::Paths => self.begins_paths(key),
        }
    }

    /// The commands that were read.
    pub fn into_commands(self) -> List<Command>
        ensures { result ≡ self.commands }
    {
        self.commands
    }

    /// What may stand next.
    fn goes(&mut self, stage: Stage) -> Turn
        ensures { Turned result self.new (means.goes stage self.old) }
    {
        self.stage = stage;
        Turn::More
    }

    /// The command is complete, and the next one is due.
    fn ends(&mut self, command: Command) -> Result<Turn, NoMemory>
        ensures { IfOk result (λ turn. Turned turn self.new (means.ends command self.old)) }
    {
        self.commands.push(command)?;
        self.stage = Stage::Command;
        Ok(Turn::Done)
    }

    /// The edit of a net begins.
    fn begins_edit(&mut self, name: Text, line: u32)
        ensures { self.new ≡ record self.old { name = name; line = line; paths = [] } }
    {
        self.name = name;
        self.line = line;
        self.paths.clear();
    }

    /// The paths that are open join those before them.
    fn with_paths(&mut self, alloc: Global) -> Result<(), NoMemory>
        ensures { OnOk result (self.new ≡ means.with_paths self.old) }
    {
        let mut paths = self.wiring.finish(alloc)?;
        self.wiring.restart(alloc, false, 0);
        if self.paths.is_empty() {
            self.paths = paths;
            return Ok(());
        }
        self.paths.append(&mut paths)
    }

    /// The edit is complete.
    fn edit_done(&mut self, alloc: Global) -> Result<Turn, NoMemory>
        ensures { IfOk result (λ turn. Turned turn self.new (means.edit_done self.old)) }
    {
        let edit = Command::Replace {
            name: mem::replace(&mut self.name, Text::new(alloc)),
            paths: mem::replace(&mut self.paths, List::new(alloc)),
            line: self.line,
        };
        self.ends(edit)
    }

    /// An item that is complete.
    ///
    /// # Errors
    ///
    /// `NoMemory` for want of memory.
    #[tactic(auto, unfolding(crate::specs::Means::means))]
    pub fn means(
        &mut self,
        alloc: Global,
        item: ScriptItem,
        said: &mut Operands,
    ) -> Result<Turn, NoMemory>
        ensures { IfOk result (λ turn. Turned turn self.new (means.means item self.old said.old)) }
    {
        match item {
            ScriptItem::Replace => {
                let name = mem::replace(&mut said.name, Text::new(alloc));
                self.begins_edit(name, said.line);
                Ok(self.goes(Stage::Body))
            }
            ScriptItem::Spef => self.ends(Command::Spef),
            ScriptItem::Net => {
                let name = mem::replace(&mut said.name, Text::new(alloc));
                self.ends(Command::Net {
                    name,
                    line: said.line,
                })
            }
            ScriptItem::Stat => self.ends(Command::Stat),
            ScriptItem::End => Ok(Turn::Close),
            ScriptItem::Plus => Ok(self.goes(Stage::Kind)),
            ScriptItem::Unwired => self.edit_done(alloc),
            ScriptItem::Routed => {
                self.wiring.restart(alloc, false, self.line);
                Ok(self.goes(Stage::Paths))
            }
            ScriptItem::Path(item) => {
                self.wiring.means(alloc, item, said)?;
                Ok(self.goes(Stage::Paths))
            }
            ScriptItem::PathsPlus => {
                self.with_paths(alloc)?;
                Ok(self.goes(Stage::Kind))
            }
            ScriptItem::PathsDone => {
                self.with_paths(alloc)?;
                self.edit_done(alloc)
            }
        }
    }
}
