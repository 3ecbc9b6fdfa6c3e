//! The reader of DEF files.

ghost use Rattle.std.specs.Prelude.{◌≡◌, ◌≤◌, ◌^◌, length, IfOk, IfErr, OnOk};
ghost use Rattle.rc_keys.specs.Course.{Turned};
ghost use Rattle.rc_wire.specs.Items as items;
ghost use Rattle.rc_def.specs.File.{def_format, refused_at, state_of, def_begin, def_outcome};
ghost use Rattle.rc_def.specs.Drafts.{design_of};
ghost use Rattle.rc_keys.specs.declared.token.Mode.TheVariants as mode;
ghost use Rattle.rc_keys.specs.Lexemes.{words_of};
ghost use Rattle.rc_def.specs.declared.design.RawDesign.{RawDesign as Design};
ghost use Rattle.rc_def.specs.Forms.{IsRawDesign};
ghost use Rattle.rc_def.specs.Reading.{IsRead};
ghost use Rattle.rc_def.specs.Sound.{IsSound};
ghost use Rattle.rc_def.specs.Whole.{IsFile, ReadsAs};

use crate::design::RawDesign;
use crate::draft::Draft;
use crate::item::{DefItem, Stage};
use rc_fixed::NoMemory;
use rc_keys::{Code, Ending, Fault, Grammar, Lexeme, Mode, Refusal, Turn, read as read_text};
use rc_wire::{Given, Key, Keys, Operands, place_of};
use std::alloc::Global;

/// What is read of a file so far. `item` is the one that is open, `place` the next part of it, and `said` what its parts
/// say so far.
#[derive(Drop)]
pub struct State {
    pub draft: Draft,
    pub item: Option<DefItem>,
    pub place: usize,
    pub said: Operands,
}

impl State {
    /// Nothing is read.
    fn new(alloc: Global) -> State
        ensures { result ≡ def_begin }
    {
        State {
            draft: Draft::new(alloc),
            item: None,
            place: 0,
            said: Operands::new(alloc),
        }
    }

    /// The item goes on at a place, or is complete.
    fn goes_on(&mut self, alloc: Global, item: DefItem, place: usize) -> Result<Turn, NoMemory>
        ensures { IfOk result (λ turn. Turned turn self.new (items.goes_on state_of def_format self.old.draft item place self.old.said)) }
    {
        if place < item.form().len() {
            self.item = Some(item);
            self.place = place;
            return Ok(Turn::More);
        }
        let turn = self.draft.means(alloc, item, &mut self.said)?;
        self.item = None;
        self.place = 0;
        self.said.clear(alloc);
        Ok(turn)
    }

    /// How a token that begins no item is refused: a wrong word behind END has the line of END.
    fn refused_at(&self, code: Code, word: &Lexeme<'_>) -> Refusal
        ensures { result ≡ refused_at self.now.draft word.now code }
    {
        let line = match code {
            Code::E16 => word.line(),
            _ => match self.draft.stage {
                Stage::EndOfFile => self.draft.line,
                _ => word.line(),
            },
        };
        Refusal::At { code, line }
    }

    /// A token inside an item.
    #[tactic(auto, unfolding(rc_wire::specs::Items::inside))]
    fn inside(
        &mut self,
        alloc: Global,
        item: DefItem,
        key: Key,
        word: &Lexeme<'_>,
    ) -> Result<Turn, NoMemory>
        ensures { IfOk result (λ turn. Turned turn self.new (items.inside state_of def_format self.old.draft item self.old.place self.old.said key word.now)) }
    {
        let form = item.form();
        let place = place_of(form, self.place, key);
        let Some(part) = form.get(place) else {
            return Ok(word.refuse(Code::E03));
        };
        if let Err(code) = self.said.take(alloc, *part, key, word)? {
            return Ok(word.refuse(code));
        }
        self.goes_on(alloc, item, place + 1)
    }

    /// A token.
    fn turns(&mut self, alloc: Global, key: Key, word: &Lexeme<'_>) -> Result<Turn, NoMemory>
        ensures { IfOk result (λ turn. Turned turn self.new (items.by_item state_of def_format self.old.draft self.old.item self.old.place self.old.said key word.now)) }
    {
        if let Some(item) = self.item {
            return self.inside(alloc, item, key, word);
        }
        match self.draft.begins(key, word) {
            Ok(item) => {
                self.said.last = self.draft.wiring.last;
                self.said.line = word.line();
                self.place = 0;
                self.inside(alloc, item, key, word)
            }
            Err(code) => Ok(Turn::Refuse(self.refused_at(code, word))),
        }
    }
}

impl State {
    /// The design that was read.
    fn finish(self, alloc: Global) -> RawDesign
        ensures design { result ≡ design_of self.draft.header self.draft.lists }
        ensures sound { IsSound result }
    {
        self.draft.into_design(alloc)
    }
}

impl<'a> Grammar<Given<'a>> for State {
    ghost use Rattle.std.specs.Prelude.{false};
    ghost use Rattle.rc_def.specs.File.{def_turn, def_may_end};

    ghost turn_of = { λ given. def_turn };

    ghost may_end = { def_may_end };

    #[tactic(auto, unfolding(crate::specs::File::def_turn, rc_wire::specs::Items::item_turn))]
    fn advance(&mut self, given: &Given<'a>, word: &Lexeme<'_>) -> Result<Turn, NoMemory> {
        let key = given.keys.key(word);
        self.turns(given.alloc, key, word)
    }

    fn is_complete(&self) -> bool
        ensures { result ≡ def_may_end self.now }
    {
        false
    }
}

/// Lets a value go.
fn discard<T: Drop>(_value: T) {}

/// Reads a DEF file (LEF/DEF 5.8 Language Reference, chapter 'DEF Syntax').
///
/// # Errors
///
/// The first refused token, with E01 to E05, E07 or E16, or `NoMemory` for want of memory.
pub fn read(alloc: Global, text: &[u8]) -> Result<RawDesign, Fault>
    requires { length text.now ≤ 2 ^ 30 }
    ensures outcome { IsRead result (def_outcome text.now) }
    ensures file { IfOk result (λ design. IsFile (words_of mode.Lef text.now).words design) }
    ensures sound { IfOk result (λ design. IsSound design) }
    ensures form { IfOk result (λ design. IsRawDesign design) }
    ensures every_file { (design : Design) → IsFile (words_of mode.Lef text.now).words design → ReadsAs result design }
{
    let keys = Keys::new();
    let given = Given { alloc, keys: &keys };
    let mut state = State::new(alloc);
    let Ok(ending) = read_text(&mut state, &given, Mode::Lef, text) else {
        discard(state);
        return Err(Fault::NoMemory);
    };
    match ending {
        Ending::Read => Ok(state.finish(alloc)),
        Ending::Refuses(refusal) => {
            discard(state);
            Err(Fault::Refused(refusal))
        }
        Ending::Unfinished { begun: _, last } => {
            discard(state);
            Err(Fault::Refused(Refusal::At {
                code: Code::E16,
                line: last,
            }))
        }
    }
}
