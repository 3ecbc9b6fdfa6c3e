//! The rows of MACRO, PIN and PORT.

ghost use Rattle.std.specs.Prelude.{◌≡◌, ◌||◌, ◌∷◌, [], pos, IfOk, OnOk};
ghost use Rattle.rc_keys.specs.Course.{Turned};
ghost use Rattle.rc_lef.specs.Cells as cells;

use crate::cell::{Dir, Macro, MacroPin};
use crate::key::Key;
use crate::rows::Given;
use crate::state::{Block, CellDraft, Form, PinDraft, Row, State};
use crate::tech::Tech;
use rc_fixed::{NoMemory, Text, parse_whole};
use rc_geom::Pt;
use rc_keys::{Code, Lexeme, Refusal, Turn};
use std::alloc::Global;
use std::mem;

impl State {
    /// The name of a macro is due.
    #[tactic(auto, unfolding(crate::specs::Cells::macro_name_row))]
    pub fn macro_name_row(
        &mut self,
        alloc: Global,
        key: Key,
        word: &Lexeme<'_>,
    ) -> Result<Turn, NoMemory>
        ensures { IfOk result (λ turn. Turned turn self.new (cells.macro_name_row self.old key word.now)) }
    {
        if !key.is_name() {
            return Ok(word.refuse(Code::E03));
        }
        self.outer = Text::from(alloc, word.bytes())?;
        self.line = word.line();
        self.cell = CellDraft::new(alloc);
        self.pin = PinDraft::new(alloc, Text::new(alloc));
        self.block = Block::Macro;
        Ok(self.ends())
    }

    /// A word in MACRO.
    #[tactic(auto, unfolding(crate::specs::Cells::macro_row))]
    pub fn macro_row(
        &mut self,
        alloc: Global,
        key: Key,
        word: &Lexeme<'_>,
    ) -> Result<Turn, NoMemory>
        ensures { IfOk result (λ turn. Turned turn self.new (cells.macro_row self.old key word.now)) }
    {
        match key {
            Key::Origin => Ok(self.numbers_due(Form::Origin)),
            Key::Size => Ok(self.numbers_due(Form::Size)),
            Key::Pin => Ok(self.goes(Row::PinName)),
            Key::Obs | Key::Density => Ok(self.goes(Row::SkipStatements)),
            Key::Timing => self.skips(alloc, word),
            Key::End => Ok(self.goes(Row::End)),
            _ => Ok(self.other_statement(key, word)),
        }
    }

    /// The name of a pin is due.
    #[tactic(auto, unfolding(crate::specs::Cells::pin_name_row))]
    pub fn pin_name_row(
        &mut self,
        alloc: Global,
        key: Key,
        word: &Lexeme<'_>,
    ) -> Result<Turn, NoMemory>
        ensures { IfOk result (λ turn. Turned turn self.new (cells.pin_name_row self.old key word.now)) }
    {
        if !key.is_name() {
            return Ok(word.refuse(Code::E03));
        }
        let name = Text::from(alloc, word.bytes())?;
        self.pin = PinDraft::new(alloc, name);
        self.block = Block::Pin;
        Ok(self.ends())
    }

    /// A word in PIN.
    #[tactic(auto, unfolding(crate::specs::Cells::pin_row))]
    pub fn pin_row(&mut self, key: Key, word: &Lexeme<'_>) -> Turn
        ensures { Turned result self.new (cells.pin_row self.old key word.now) }
    {
        match key {
            Key::Direction => self.goes(Row::Direction),
            Key::Port => {
                self.pin.layer = None;
                self.block = Block::Port;
                self.ends()
            }
            Key::End => self.goes(Row::End),
            _ => self.other_statement(key, word),
        }
    }

    /// The direction of the pin, where it is the first, and what is due after it.
    fn takes_dir(&mut self, dir: Dir, row: Row) -> Turn
        ensures { Turned result self.new (cells.takes_dir dir row self.old) }
    {
        if self.pin.dir.is_none() {
            self.pin.dir = Some(dir);
        }
        self.goes(row)
    }

    /// The direction of a pin is due.
    #[tactic(auto, unfolding(crate::specs::Cells::direction_row))]
    pub fn direction_row(&mut self, key: Key, word: &Lexeme<'_>) -> Turn
        ensures { Turned result self.new (cells.direction_row self.old key word.now) }
    {
        match key {
            Key::Input => self.takes_dir(Dir::I, Row::Due),
            Key::Output => self.takes_dir(Dir::O, Row::TriState),
            Key::InOut | Key::FeedThru => self.takes_dir(Dir::B, Row::Due),
            _ => word.refuse(Code::E03),
        }
    }

    /// TRISTATE, or the `;` of a direction.
    #[tactic(auto, unfolding(crate::specs::Cells::tri_state_row))]
    pub fn tri_state_row(&mut self, key: Key, word: &Lexeme<'_>) -> Turn
        ensures { Turned result self.new (cells.tri_state_row self.old key word.now) }
    {
        match key {
            Key::TriState => self.goes(Row::Due),
            Key::Semicolon => self.ends(),
            _ => word.refuse(Code::E03),
        }
    }

    /// A word in PORT.
    #[tactic(auto, unfolding(crate::specs::Cells::port_row))]
    pub fn port_row(&mut self, key: Key, word: &Lexeme<'_>) -> Turn
        ensures { Turned result self.new (cells.port_row self.old key word.now) }
    {
        match key {
            Key::Layer => self.goes(Row::PortLayer),
            Key::Rect => {
                self.numbers.clear();
                self.goes(Row::PortRect)
            }
            Key::End => {
                self.block = Block::Pin;
                self.ends()
            }
            _ => self.other_statement(key, word),
        }
    }

    /// The layer of a pin's rectangles is due; what stands behind it is read over.
    #[tactic(auto, unfolding(crate::specs::Cells::port_layer_row))]
    pub fn port_layer_row(&mut self, tech: &Tech, key: Key, word: &Lexeme<'_>) -> Turn
        ensures { Turned result self.new (cells.port_layer_row tech.now self.old key word.now) }
    {
        match self.read_layer(tech, key, word) {
            Ok(kind) => {
                self.pin.layer = Some(kind);
                self.goes(Row::Over)
            }
            Err(code) => word.refuse(code),
        }
    }

    /// The first number of a pin's rectangle, which needs a layer.
    fn first_corner_row(&mut self, key: Key, word: &Lexeme<'_>) -> Result<Turn, NoMemory>
        ensures { IfOk result (λ turn. Turned turn self.new (cells.first_corner_row self.old key word.now)) }
    {
        if self.pin.layer.is_none() {
            return Ok(word.refuse(Code::E03));
        }
        self.number_row(Form::PinRect, key, word)
    }

    /// ITERATE, MASK or the first number of a pin's rectangle, which needs a layer.
    #[tactic(auto, unfolding(crate::specs::Cells::port_rect_row))]
    pub fn port_rect_row(&mut self, key: Key, word: &Lexeme<'_>) -> Result<Turn, NoMemory>
        ensures { IfOk result (λ turn. Turned turn self.new (cells.port_rect_row self.old key word.now)) }
    {
        match key {
            Key::Iterate => Ok(self.goes(Row::Over)),
            Key::Mask => {
                if self.pin.layer.is_none() {
                    return Ok(word.refuse(Code::E03));
                }
                Ok(self.goes(Row::PortMask))
            }
            _ => self.first_corner_row(key, word),
        }
    }

    /// The number of a mask.
    #[tactic(auto, unfolding(crate::specs::Cells::port_mask_row))]
    pub fn port_mask_row(&mut self, key: Key, word: &Lexeme<'_>) -> Turn
        ensures { Turned result self.new (cells.port_mask_row self.old key word.now) }
    {
        if key.is_quoted() || parse_whole(word.bytes()).is_none() {
            return word.refuse(Code::E05);
        }
        self.goes(Row::Number(Form::PinRect))
    }

    /// The pin of the block's statements, which takes its name and leaves none.
    fn made_pin(&mut self, alloc: Global) -> MacroPin
        ensures made { result ≡ cells.pin_of self.old.pin }
        ensures state { self.new ≡ record self.old { pin = cells.no_pin [] } }
    {
        let draft = mem::replace(&mut self.pin, PinDraft::new(alloc, Text::new(alloc)));
        MacroPin {
            name: draft.name,
            dir: draft.dir.unwrap_or(Dir::B),
            rects: draft.rects,
        }
    }

    /// The pin joins the others of the macro, where its name isn't there.
    fn with_pin(&mut self, alloc: Global) -> Result<(), NoMemory>
        ensures { OnOk result (self.new ≡ cells.with_pin self.old) }
    {
        let known = self.cell.pins.has(self.pin.name.bytes());
        let pin = self.made_pin(alloc);
        self.block = Block::Macro;
        if !known {
            self.cell.pins.put(pin)?;
        }
        Ok(())
    }

    /// The word after END in PIN.
    #[tactic(auto, unfolding(crate::specs::Cells::end_of_pin))]
    pub fn end_of_pin(
        &mut self,
        alloc: Global,
        key: Key,
        word: &Lexeme<'_>,
    ) -> Result<Turn, NoMemory>
        ensures { IfOk result (λ turn. Turned turn self.new (cells.end_of_pin self.old key word.now)) }
    {
        if !(key.is_name() && word.bytes() == self.pin.name.bytes()) {
            return Ok(word.refuse(Code::E03));
        }
        self.with_pin(alloc)?;
        Ok(self.ends())
    }

    /// Whether a macro of the block's name is there.
    #[tactic(auto, unfolding(crate::specs::Cells::knows_macro))]
    fn knows_macro(&self, tech: &Tech) -> bool
        ensures { result ≡ cells.knows_macro tech.now self.now }
    {
        tech.has_macro(self.outer.bytes()) || self.macros.has(self.outer.bytes())
    }

    /// The macro of the block's statements, which takes its name and leaves none.
    fn made_macro(&mut self, alloc: Global, size: Pt) -> Macro
        ensures made { result ≡ cells.macro_of self.old.outer size self.old.cell }
        ensures state { self.new ≡ record self.old { outer = []; cell = cells.no_cell } }
    {
        let draft = mem::replace(&mut self.cell, CellDraft::new(alloc));
        Macro {
            name: mem::replace(&mut self.outer, Text::new(alloc)),
            origin: draft.origin.unwrap_or(Pt { x: 0, y: 0 }),
            w: size.x,
            h: size.y,
            pins: draft.pins.into_list(),
        }
    }

    /// The macro joins the others, where its name isn't there.
    fn with_macro(&mut self, given: &Given<'_>, size: Pt) -> Result<(), NoMemory>
        ensures { OnOk result (self.new ≡ cells.with_macro given.now.tech.now size self.old) }
    {
        let known = self.knows_macro(given.tech);
        let cell = self.made_macro(given.alloc, size);
        self.block = Block::Top;
        if !known {
            self.macros.put(cell)?;
        }
        Ok(())
    }

    /// The word after END in MACRO.
    #[tactic(auto, unfolding(crate::specs::Cells::end_of_macro))]
    pub fn end_of_macro(
        &mut self,
        given: &Given<'_>,
        key: Key,
        word: &Lexeme<'_>,
    ) -> Result<Turn, NoMemory>
        ensures { IfOk result (λ turn. Turned turn self.new (cells.end_of_macro given.now.tech.now self.old key word.now)) }
    {
        if !(key.is_name() && word.bytes() == self.outer.bytes()) {
            return Ok(word.refuse(Code::E03));
        }
        let Some(size) = self.cell.size else {
            return Ok(Turn::Refuse(Refusal::At {
                code: Code::E16,
                line: self.line,
            }));
        };
        self.with_macro(given, size)?;
        Ok(self.ends())
    }
}
