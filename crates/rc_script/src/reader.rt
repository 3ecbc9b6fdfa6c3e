//! The reader of scripts.

ghost use Rattle.std.specs.Prelude.{◌≡◌, ◌≤◌, ◌^◌, List as Elements, All, IfOk, length};
ghost use Rattle.rc_keys.specs.Course.{Turned, line_or as line_or_of};
ghost use Rattle.rc_keys.specs.declared.token.Mode.TheVariants as mode;
ghost use Rattle.rc_keys.specs.Lexemes.{words_of};
ghost use Rattle.rc_wire.specs.Items as items;
ghost use Rattle.rc_script.specs.declared.command.Command.{Command as CommandOf};
ghost use Rattle.rc_script.specs.Forms.{IsCommand};
ghost use Rattle.rc_script.specs.Reading.{IsRead};
ghost use Rattle.rc_script.specs.Rows.{script_format, state_of, script_begin, script_outcome};
ghost use Rattle.rc_script.specs.Whole.{IsScript, ReadsAs};

use crate::command::Command;
use crate::draft::Draft;
use crate::item::ScriptItem;
use rc_fixed::{List, NoMemory};
use rc_keys::{Code, Ending, Fault, Grammar, Lexeme, Mode, Refusal, Turn, read as read_text};
use rc_wire::{Given, Key, Keys, Operands, place_of};
use std::alloc::Global;

/// What is read of a script so far. `item` is the one that is open, `place` the next part of it, and `said` what its parts
/// say so far.
#[derive(Drop)]
pub struct State {
    pub draft: Draft,
    pub item: Option<ScriptItem>,
    pub place: usize,
    pub said: Operands,
}

impl State {
    /// Nothing is read.
    fn new(alloc: Global) -> State
        ensures { result ≡ script_begin }
    {
        State {
            draft: Draft::new(alloc),
            item: None,
            place: 0,
            said: Operands::new(alloc),
        }
    }

    /// The item goes on at a place, or is complete.
    fn goes_on(&mut self, alloc: Global, item: ScriptItem, place: usize) -> Result<Turn, NoMemory>
        ensures { IfOk result (λ turn. Turned turn self.new (items.goes_on state_of script_format self.old.draft item place self.old.said)) }
    {
        if place < item.form().len() {
            self.item = Some(item);
            self.place = place;
            return Ok(Turn::More);
        }
        let turn = self.draft.means(alloc, item, &mut self.said)?;
        self.item = None;
        self.place = 0;
        self.said.clear(alloc);
        Ok(turn)
    }

    /// A token inside an item.
    #[tactic(auto, unfolding(rc_wire::specs::Items::inside))]
    fn inside(
        &mut self,
        alloc: Global,
        item: ScriptItem,
        key: Key,
        word: &Lexeme<'_>,
    ) -> Result<Turn, NoMemory>
        ensures { IfOk result (λ turn. Turned turn self.new (items.inside state_of script_format self.old.draft item self.old.place self.old.said key word.now)) }
    {
        let form = item.form();
        let place = place_of(form, self.place, key);
        let Some(part) = form.get(place) else {
            return Ok(word.refuse(Code::E03));
        };
        if let Err(code) = self.said.take(alloc, *part, key, word)? {
            return Ok(word.refuse(code));
        }
        self.goes_on(alloc, item, place + 1)
    }

    /// A token.
    fn turns(&mut self, alloc: Global, key: Key, word: &Lexeme<'_>) -> Result<Turn, NoMemory>
        ensures { IfOk result (λ turn. Turned turn self.new (items.by_item state_of script_format self.old.draft self.old.item self.old.place self.old.said key word.now)) }
    {
        if let Some(item) = self.item {
            return self.inside(alloc, item, key, word);
        }
        match self.draft.begins(key, word) {
            Ok(item) => {
                self.said.last = self.draft.wiring.last;
                self.said.line = word.line();
                self.place = 0;
                self.inside(alloc, item, key, word)
            }
            Err(code) => Ok(word.refuse(code)),
        }
    }

    /// The commands that were read.
    fn finish(self) -> List<Command>
        ensures { result ≡ self.draft.commands }
    {
        self.draft.into_commands()
    }
}

impl<'a> Grammar<Given<'a>> for State {
    ghost use Rattle.std.specs.Prelude.{true};
    ghost use Rattle.rc_script.specs.Rows.{script_turn, script_may_end};

    ghost turn_of = { λ given. script_turn };

    ghost may_end = { script_may_end };

    #[tactic(auto, unfolding(crate::specs::Rows::script_turn, rc_wire::specs::Items::item_turn))]
    fn advance(&mut self, given: &Given<'a>, word: &Lexeme<'_>) -> Result<Turn, NoMemory> {
        let key = given.keys.key(word);
        self.turns(given.alloc, key, word)
    }

    fn is_complete(&self) -> bool
        ensures { result ≡ script_may_end self.now }
    {
        true
    }
}

/// Lets a value go.
fn discard<T: Drop>(_value: T) {}

/// The line of the command that is begun, or else this one.
fn line_or(begun: Option<u32>, line: u32) -> u32
    ensures { result ≡ line_or_of begun line }
{
    match begun {
        Some(begun) => begun,
        None => line,
    }
}

/// Reads an edit script: its commands, in order, up to `END ;` or to the end of the text.
///
/// # Errors
///
/// The first refused token, with E01 to E05, at the line of its command; E03 at the line of the command inside which the text
/// ends; or `NoMemory` for want of memory.
pub fn read_script(alloc: Global, text: &[u8]) -> Result<List<Command>, Fault>
    requires { length text.now ≤ 2 ^ 30 }
    ensures outcome { IsRead result (script_outcome text.now) }
    ensures commands { IfOk result (λ commands. All IsCommand commands) }
    ensures few { IfOk result (λ commands. length commands ≤ 2 ^ 30) }
    ensures script { IfOk result (λ commands. IsScript (words_of mode.Lef text.now) commands) }
    ensures every_script { (commands : Elements CommandOf) → IsScript (words_of mode.Lef text.now) commands → ReadsAs result commands }
{
    let keys = Keys::new();
    let given = Given { alloc, keys: &keys };
    let mut state = State::new(alloc);
    let Ok(ending) = read_text(&mut state, &given, Mode::Lef, text) else {
        discard(state);
        return Err(Fault::NoMemory);
    };
    match ending {
        Ending::Read => Ok(state.finish()),
        Ending::Refuses(refusal) => {
            discard(state);
            Err(Fault::Refused(refusal))
        }
        Ending::Unfinished { begun, last } => {
            discard(state);
            Err(Fault::Refused(Refusal::At {
                code: Code::E03,
                line: line_or(begun, last),
            }))
        }
    }
}
