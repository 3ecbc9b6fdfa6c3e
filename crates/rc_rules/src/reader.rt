//! The reader of rule files.

ghost use Rattle.std.specs.Prelude.{◌≡◌, ◌≤◌, ◌^◌, Ok, length, IfOk, IfErr, IfSome, IsSome};
ghost use Rattle.rc_keys.specs.declared.token.Mode.TheVariants as mode;
ghost use Rattle.rc_keys.specs.Lexemes.{words_of};
ghost use Rattle.rc_rules.specs.RuleFile.{RuleFile};
ghost use Rattle.rc_rules.specs.Rows.{rules_outcome, rules_in};
ghost use Rattle.rc_rules.specs.File.{IsFile, KeepsLayers};
ghost use Rattle.rc_rules.specs.Reading.{IsRefused, ReadsAs};

use crate::key::Keys;
use crate::rows::Given;
use crate::rules::Rules;
use crate::state::{Progress, State};
use rc_keys::{Code, Ending, Fault, Mode, Refusal};
use rc_lef::{Tech, Units};
use std::alloc::Global;

/// The rules that statements say.
fn rules_of(units: Units, progress: Progress) -> Rules
    ensures { result ≡ rules_in units progress }
{
    Rules::new(
        units,
        progress.layers,
        progress.cuts,
        progress.contact.unwrap_or(0),
    )
}

/// Reads a rule file over a technology with these units of a micron.
fn read_over(alloc: Global, text: &[u8], tech: &Tech, units: Units) -> Result<Rules, Fault>
    requires { length text.now ≤ 2 ^ 30 }
    ensures ok { IfOk result (λ rules. rules_outcome units tech.now text.now ≡ Ok rules) }
    ensures refused { IfErr result (IsRefused (rules_outcome units tech.now text.now)) }
    ensures file { IfOk result (λ rules. IsFile units tech.now (words_of mode.Lef text.now) rules) }
    ensures kept { IfOk result (KeepsLayers units tech.now) }
    ensures every_file { (rules : RuleFile) → IsFile units tech.now (words_of mode.Lef text.now) rules → ReadsAs result rules }
{
    let mut state = State::new(alloc, tech)?;
    let keys = Keys::new();
    let given = Given {
        alloc,
        keys: &keys,
        tech,
        units,
    };
    match rc_keys::read(&mut state, &given, Mode::Lef, text)? {
        Ending::Read => Ok(rules_of(units, state.progress)),
        Ending::Refuses(refusal) => Err(Fault::Refused(refusal)),
        Ending::Unfinished { begun: _, last } => Err(Fault::Refused(Refusal::At {
            code: Code::E16,
            line: last,
        })),
    }
}

/// Reads a rule file over a technology, which has units of a micron.
///
/// # Errors
///
/// The first refused place, or `NoMemory` for want of memory.
pub fn read(alloc: Global, text: &[u8], tech: &Tech) -> Result<Rules, Fault>
    requires text { length text.now ≤ 2 ^ 30 }
    requires units { IsSome tech.now.units }
    ensures ok { IfSome tech.now.units (λ units. IfOk result (λ rules. rules_outcome units tech.now text.now ≡ Ok rules)) }
    ensures refused { IfSome tech.now.units (λ units. IfErr result (IsRefused (rules_outcome units tech.now text.now))) }
    ensures file { IfSome tech.now.units (λ units. IfOk result (λ rules. IsFile units tech.now (words_of mode.Lef text.now) rules)) }
    ensures kept { IfSome tech.now.units (λ units. IfOk result (KeepsLayers units tech.now)) }
    ensures every_file { IfSome tech.now.units (λ units. (rules : RuleFile) → IsFile units tech.now (words_of mode.Lef text.now) rules → ReadsAs result rules) }
{
    let units = tech.units().unwrap();
    read_over(alloc, text, tech, units)
}
