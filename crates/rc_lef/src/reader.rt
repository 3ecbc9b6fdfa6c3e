//! The reader of LEF files.

ghost use Rattle.std.specs.Prelude.{◌≡◌, ◌≤◌, ◌+◌, ◌^◌, [], None, Ok, Err, length, OnOk, OnErr, IfErr};
ghost use Rattle.rc_lef.specs.Rows.{lef_outcome, tech_with};
ghost use Rattle.rc_keys.specs.declared.token.Mode.TheVariants as mode;
ghost use Rattle.rc_keys.specs.Lexemes.{words_of};
ghost use Rattle.rc_lef.specs.Facts.{IsSound};
ghost use Rattle.rc_lef.specs.Technology.{Technology, no_technology};
ghost use Rattle.rc_lef.specs.File.{IsFile};
ghost use Rattle.rc_lef.specs.Reading.{IsRefused, ReadsAs};

use crate::key::Keys;
use crate::rows::Given;
use crate::state::State;
use crate::tech::Tech;
use rc_fixed::NoMemory;
use rc_keys::{Code, Ending, Fault, Mode, Refusal, read};
use std::alloc::Global;
use std::marker::Model;

/// Reads LEF files, one after the other. Contracts see the technology that they define, and how many bytes they had.
#[derive(Drop)]
pub struct TechReader {
    alloc: Global,
    keys: Keys,
    tech: Tech,
    bytes: usize,
}

impl Model for TechReader {
    ghost use Rattle.std.specs.Prelude.{◌≤◌, ◌^◌};
    ghost use Rattle.rc_lef.specs.Facts.{HasAtMost};
    ghost use Rattle.rc_lef.specs.Technology.{Files};

    ghost Value = { Files };

    ghost view = { λ reader. record { tech = reader.tech; bytes = reader.bytes } };

    ghost invariant = { λ reader. HasAtMost reader.bytes reader.tech × (reader.bytes ≤ 2 ^ 30) };
}

/// What was read of a file joins the technology before it.
fn take_over(tech: &mut Tech, state: State) -> Result<(), NoMemory>
    requires { IsSound (tech_with tech.old state) }
    ensures ok { OnOk result (tech.new ≡ tech_with tech.old state) }
    ensures err { OnErr result (tech.new ≡ tech.old) }
{
    let layers = state.layers.into_list();
    let vias = state.vias.into_list();
    let macros = state.macros.into_list();
    let rules = state.rules.into_list();
    let Ok(()) = tech.extend(state.units, layers, vias, macros, rules) else {
        return Err(NoMemory);
    };
    Ok(())
}

impl TechReader {
    /// A reader that has read no file.
    pub fn new(alloc: Global) -> TechReader
        ensures { result ≡ record { tech = no_technology; bytes = 0 } }
    {
        TechReader {
            alloc,
            keys: Keys::new(),
            tech: Tech::new(alloc),
            bytes: 0,
        }
    }

    /// Reads a file.
    ///
    /// # Errors
    ///
    /// The first refused place, or `NoMemory` for want of memory. The reader is then as before.
    pub fn file(&mut self, text: &[u8]) -> Result<(), Fault>
        requires { self.old.bytes + length text.now ≤ 2 ^ 30 }
        ensures ok { OnOk result (lef_outcome self.old.tech text.now ≡ Ok self.new.tech) }
        ensures bytes { OnOk result (self.new.bytes ≡ self.old.bytes + length text.now) }
        ensures refused { IfErr result (IsRefused (lef_outcome self.old.tech text.now)) }
        ensures unchanged { OnErr result (self.new ≡ self.old) }
        ensures file { OnOk result (IsFile self.old.tech (words_of mode.Lef text.now) self.new.tech) }
        ensures every_file { (after : Technology) → IsFile self.old.tech (words_of mode.Lef text.now) after → ReadsAs result self.new.tech after }
    {
        self.tech.facts();
        let mut state = State::new(self.alloc, &self.tech);
        let given = Given {
            alloc: self.alloc,
            keys: &self.keys,
            tech: &self.tech,
        };
        match read(&mut state, &given, Mode::Lef, text)? {
            Ending::Read => {
                take_over(&mut self.tech, state)?;
                self.bytes += text.len();
                Ok(())
            }
            Ending::Refuses(refusal) => Err(Fault::Refused(refusal)),
            Ending::Unfinished { begun: _, last } => Err(Fault::Refused(Refusal::At {
                code: Code::E16,
                line: last,
            })),
        }
    }

    /// The technology that was read.
    pub fn finish(self) -> Tech
        ensures tech { result ≡ self.tech }
        ensures sound { IsSound result }
    {
        self.tech.facts();
        self.tech
    }
}
