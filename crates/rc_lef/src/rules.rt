//! The rows of NONDEFAULTRULE.

ghost use Rattle.std.specs.Prelude.{◌≡◌, ◌||◌, [], IfOk, OnOk};
ghost use Rattle.rc_keys.specs.Course.{Turned};
ghost use Rattle.rc_lef.specs.Rules as rules;

use crate::key::Key;
use crate::ndr::Ndr;
use crate::rows::Given;
use crate::state::{Block, Form, Home, Row, RuleDraft, State};
use crate::tech::Tech;
use rc_fixed::{NoMemory, Text};
use rc_keys::{Code, Lexeme, Turn};
use std::alloc::Global;
use std::mem;

impl State {
    /// The name of a nondefault rule is due.
    #[tactic(auto, unfolding(crate::specs::Rules::rule_name_row))]
    pub fn rule_name_row(
        &mut self,
        alloc: Global,
        key: Key,
        word: &Lexeme<'_>,
    ) -> Result<Turn, NoMemory>
        ensures { IfOk result (λ turn. Turned turn self.new (rules.rule_name_row self.old key word.now)) }
    {
        if !key.is_name() {
            return Ok(word.refuse(Code::E03));
        }
        self.outer = Text::from(alloc, word.bytes())?;
        self.rule = RuleDraft::new(alloc);
        self.block = Block::Rule;
        Ok(self.ends())
    }

    /// A word in NONDEFAULTRULE.
    #[tactic(auto, unfolding(crate::specs::Rules::rule_row))]
    pub fn rule_row(&mut self, alloc: Global, key: Key, word: &Lexeme<'_>) -> Result<Turn, NoMemory>
        ensures { IfOk result (λ turn. Turned turn self.new (rules.rule_row self.old key word.now)) }
    {
        match key {
            Key::Layer => Ok(self.goes(Row::RuleLayer)),
            Key::Via => Ok(self.goes(Row::ViaName(Home::Rule))),
            Key::Spacing => self.skips(alloc, word),
            Key::End => Ok(self.goes(Row::End)),
            _ => Ok(self.other_statement(key, word)),
        }
    }

    /// The layer of a rule is due.
    #[tactic(auto, unfolding(crate::specs::Rules::rule_layer_name_row))]
    pub fn rule_layer_name_row(
        &mut self,
        given: &Given<'_>,
        key: Key,
        word: &Lexeme<'_>,
    ) -> Result<Turn, NoMemory>
        ensures { IfOk result (λ turn. Turned turn self.new (rules.rule_layer_name_row given.now.tech.now self.old key word.now)) }
    {
        let kind = match self.read_layer(given.tech, key, word) {
            Ok(kind) => kind,
            Err(code) => return Ok(word.refuse(code)),
        };
        self.name = Text::from(given.alloc, word.bytes())?;
        self.rule.layer = kind;
        self.block = Block::RuleLayer;
        Ok(self.ends())
    }

    /// A word in a LAYER of a rule.
    #[tactic(auto, unfolding(crate::specs::Rules::rule_layer_row))]
    pub fn rule_layer_row(&mut self, key: Key, word: &Lexeme<'_>) -> Turn
        ensures { Turned result self.new (rules.rule_layer_row self.old key word.now) }
    {
        match key {
            Key::Width => self.numbers_due(Form::RuleWidth),
            Key::End => self.goes(Row::End),
            _ => self.other_statement(key, word),
        }
    }

    /// The word after END in a LAYER of a rule.
    #[tactic(auto, unfolding(crate::specs::Rules::end_of_rule_layer))]
    pub fn end_of_rule_layer(&mut self, key: Key, word: &Lexeme<'_>) -> Turn
        ensures { Turned result self.new (rules.end_of_rule_layer self.old key word.now) }
    {
        if !(key.is_name() && word.bytes() == self.name.bytes()) {
            return word.refuse(Code::E03);
        }
        self.block = Block::Rule;
        self.ends()
    }

    /// Whether a rule of the block's name is there.
    #[tactic(auto, unfolding(crate::specs::Rules::knows_rule))]
    fn knows_rule(&self, tech: &Tech) -> bool
        ensures { result ≡ rules.knows_rule tech.now self.now }
    {
        tech.has_rule(self.outer.bytes()) || self.rules.has(self.outer.bytes())
    }

    /// The rule of the block's statements, which takes its name and leaves none.
    fn made_rule(&mut self, alloc: Global) -> Ndr
        ensures made { result ≡ rules.rule_of self.old.outer self.old.rule }
        ensures state { self.new ≡ record self.old { outer = []; rule = rules.no_rule } }
    {
        let draft = mem::replace(&mut self.rule, RuleDraft::new(alloc));
        Ndr {
            name: mem::replace(&mut self.outer, Text::new(alloc)),
            widths: draft.widths,
        }
    }

    /// The rule joins the others, where its name isn't there.
    fn with_rule(&mut self, given: &Given<'_>) -> Result<(), NoMemory>
        ensures { OnOk result (self.new ≡ rules.with_rule given.now.tech.now self.old) }
    {
        let known = self.knows_rule(given.tech);
        let rule = self.made_rule(given.alloc);
        self.block = Block::Top;
        if !known {
            self.rules.put(rule)?;
        }
        Ok(())
    }

    /// The word after END in NONDEFAULTRULE.
    #[tactic(auto, unfolding(crate::specs::Rules::end_of_rule))]
    pub fn end_of_rule(
        &mut self,
        given: &Given<'_>,
        key: Key,
        word: &Lexeme<'_>,
    ) -> Result<Turn, NoMemory>
        ensures { IfOk result (λ turn. Turned turn self.new (rules.end_of_rule given.now.tech.now self.old key word.now)) }
    {
        if !(key.is_name() && word.bytes() == self.outer.bytes()) {
            return Ok(word.refuse(Code::E03));
        }
        self.with_rule(given)?;
        Ok(self.ends())
    }
}
