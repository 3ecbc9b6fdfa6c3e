//! The rows of statements whose operands are lengths.

ghost use Rattle.std.specs.Prelude.{◌≡◌, ◌==◌, ◌++◌, ◌∷◌, [], length, IfOk, OnOk};
ghost use Rattle.std.specs.List.{list_any};
ghost use Rattle.rc_keys.specs.Course.{Turned};
ghost use Rattle.rc_lef.specs.Numbers as numbers;

use crate::key::Key;
use crate::length::{Range, read_in_range};
use crate::state::{Form, Row, State};
use crate::tech::LayerKind;
use rc_fixed::{List, NoMemory};
use rc_geom::{Pt, Rect};
use rc_keys::{Code, Lexeme, Turn};

impl Form {
    /// Which lengths the statement takes.
    fn range(self) -> Range
        ensures { result ≡ numbers.range_of self }
    {
        match self {
            Form::ViaRect | Form::Origin | Form::PinRect => Range::Any,
            Form::CutSize | Form::RuleWidth | Form::Size => Range::Above0,
            Form::CutSpacing | Form::Enclosure => Range::AtLeast0,
        }
    }

    /// How many lengths the statement takes.
    fn count(self) -> usize
        ensures { result ≡ numbers.count_of self }
    {
        match self {
            Form::RuleWidth => 1,
            Form::CutSize | Form::CutSpacing | Form::Origin | Form::Size => 2,
            Form::ViaRect | Form::Enclosure | Form::PinRect => 4,
        }
    }

    /// What is due after one of the statement's lengths that isn't the last.
    fn next_row(self) -> Row
        ensures { result ≡ numbers.next_row self }
    {
        match self {
            Form::Size => Row::SizeBy,
            _ => Row::Number(self),
        }
    }
}

/// A length of a statement, or the code of its refusal.
fn operand(state: &State, form: Form, key: Key, word: &Lexeme<'_>) -> Result<i32, Code>
    ensures { result ≡ numbers.operand state.now form key word.now }
{
    if key.is_quoted() {
        return Err(Code::E05);
    }
    read_in_range(form.range(), state.units, word.bytes())
}

/// Whether two corners leave no area between them.
fn is_flat(p: Pt, q: Pt) -> bool
    ensures { result ≡ numbers.is_flat p q }
{
    p.x == q.x || p.y == q.y
}

fn box_between(p: Pt, q: Pt) -> Rect
    ensures { result ≡ numbers.box_between p q }
{
    Rect {
        x0: p.x.min(q.x),
        y0: p.y.min(q.y),
        x1: p.x.max(q.x),
        y1: p.y.max(q.y),
    }
}

/// The rectangle between two corners, which come in any order; none where it has no area.
#[tactic(auto, unfolding(crate::specs::Numbers::rect_between))]
fn rect_between(p: Pt, q: Pt) -> Option<Rect>
    ensures { result ≡ numbers.rect_between p q }
{
    if is_flat(p, q) {
        return None;
    }
    Some(box_between(p, q))
}

/// The rectangle of four numbers.
fn rect_of(values: &[i32]) -> Option<Rect>
    ensures { result ≡ numbers.rect_of values.now }
{
    match values {
        [x, y, x1, y1] => rect_between(Pt { x: *x, y: *y }, Pt { x: *x1, y: *y1 }),
        _ => None,
    }
}

/// The pair of two numbers.
fn pair_of(values: &[i32]) -> Option<Pt>
    ensures { result ≡ numbers.pair_of values.now }
{
    match values {
        [x, y] => Some(Pt { x: *x, y: *y }),
        _ => None,
    }
}

/// The two pairs of four numbers.
fn pairs_of(values: &[i32]) -> Option<(Pt, Pt)>
    ensures { result ≡ numbers.pairs_of values.now }
{
    match values {
        [x, y, x1, y1] => Some((Pt { x: *x, y: *y }, Pt { x: *x1, y: *y1 })),
        _ => None,
    }
}

/// The only number.
fn only_of(values: &[i32]) -> Option<i32>
    ensures { result ≡ numbers.only_of values.now }
{
    match values {
        [x] => Some(*x),
        _ => None,
    }
}

/// Whether a layer of this number has a width.
fn has_width(widths: &[(u8, i32)], number: u8) -> bool
    ensures { result ≡ list_any (λ width. number == width.0) widths.now }
{
    widths.iter().any(|width| number == width.0)
}

/// The width on a layer joins the others, where it is the first of a routing layer.
fn put_width(
    widths: &mut List<(u8, i32)>,
    kind: LayerKind,
    width: Option<i32>,
) -> Result<(), NoMemory>
    ensures { OnOk result (widths.new ≡ numbers.width_joins widths.old kind width) }
{
    let LayerKind::Routing(number) = kind else {
        return Ok(());
    };
    let Some(width) = width else {
        return Ok(());
    };
    if has_width(widths.items(), number) {
        return Ok(());
    }
    widths.push((number, width))?;
    Ok(())
}

impl State {
    /// The lengths of a statement are due.
    pub fn numbers_due(&mut self, form: Form) -> Turn
        ensures { Turned result self.new (numbers.numbers_due form self.old) }
    {
        self.numbers.clear();
        self.goes(Row::Number(form))
    }

    /// The rectangle of the statement's numbers joins those of the via, where it has area.
    fn with_via_rect(&mut self) -> Result<(), NoMemory>
        ensures { OnOk result (self.new ≡ numbers.with_via_rect self.old self.old.numbers) }
    {
        let Some(kind) = self.via.layer else {
            return Ok(());
        };
        let Some(rect) = rect_of(self.numbers.items()) else {
            return Ok(());
        };
        self.via.rects.push((kind, rect))?;
        Ok(())
    }

    /// The rectangle of the statement's numbers joins those of the pin, where it has area and lies on a routing layer.
    fn with_pin_rect(&mut self) -> Result<(), NoMemory>
        ensures { OnOk result (self.new ≡ numbers.with_pin_rect self.old self.old.numbers) }
    {
        let Some(LayerKind::Routing(number)) = self.pin.layer else {
            return Ok(());
        };
        let Some(rect) = rect_of(self.numbers.items()) else {
            return Ok(());
        };
        self.pin.rects.push((number, rect))?;
        Ok(())
    }

    /// The statement's number is the width of the rule on its layer, where that is a routing layer that has none.
    fn with_rule_width(&mut self) -> Result<(), NoMemory>
        ensures { OnOk result (self.new ≡ numbers.with_rule_width self.old self.old.numbers) }
    {
        let width = only_of(self.numbers.items());
        put_width(&mut self.rule.widths, self.rule.layer, width)
    }

    fn with_cut_size(&mut self)
        ensures { self.new ≡ numbers.with_cut_size self.old self.old.numbers }
    {
        if self.via.cut_size.is_none() {
            self.via.cut_size = pair_of(self.numbers.items());
        }
    }

    fn with_spacing(&mut self)
        ensures { self.new ≡ numbers.with_spacing self.old self.old.numbers }
    {
        if self.via.spacing.is_none() {
            self.via.spacing = pair_of(self.numbers.items());
        }
    }

    fn with_enclosure(&mut self)
        ensures { self.new ≡ numbers.with_enclosure self.old self.old.numbers }
    {
        if self.via.enclosure.is_none() {
            self.via.enclosure = pairs_of(self.numbers.items());
        }
    }

    fn with_origin(&mut self)
        ensures { self.new ≡ numbers.with_origin self.old self.old.numbers }
    {
        if self.cell.origin.is_none() {
            self.cell.origin = pair_of(self.numbers.items());
        }
    }

    fn with_size(&mut self)
        ensures { self.new ≡ numbers.with_size self.old self.old.numbers }
    {
        if self.cell.size.is_none() {
            self.cell.size = pair_of(self.numbers.items());
        }
    }

    /// What a statement with all its numbers says.
    fn with_numbers(&mut self, form: Form) -> Result<(), NoMemory>
        ensures { OnOk result (self.new ≡ numbers.with_numbers form self.old) }
    {
        match form {
            Form::ViaRect => self.with_via_rect()?,
            Form::PinRect => self.with_pin_rect()?,
            Form::RuleWidth => self.with_rule_width()?,
            Form::CutSize => self.with_cut_size(),
            Form::CutSpacing => self.with_spacing(),
            Form::Enclosure => self.with_enclosure(),
            Form::Origin => self.with_origin(),
            Form::Size => self.with_size(),
        }
        Ok(())
    }

    /// A length of a statement.
    #[tactic(auto, unfolding(crate::specs::Numbers::number_row))]
    pub fn number_row(&mut self, form: Form, key: Key, word: &Lexeme<'_>) -> Result<Turn, NoMemory>
        ensures { IfOk result (λ turn. Turned turn self.new (numbers.number_row self.old form key word.now)) }
    {
        let number = match operand(self, form, key, word) {
            Ok(number) => number,
            Err(code) => return Ok(word.refuse(code)),
        };
        self.numbers.push(number)?;
        if self.numbers.len() != form.count() {
            return Ok(self.goes(form.next_row()));
        }
        self.with_numbers(form)?;
        Ok(self.goes(Row::Due))
    }

    /// BY is due between the two lengths of SIZE.
    #[tactic(auto, unfolding(crate::specs::Numbers::size_by_row))]
    pub fn size_by_row(&mut self, key: Key, word: &Lexeme<'_>) -> Turn
        ensures { Turned result self.new (numbers.size_by_row self.old key word.now) }
    {
        match key {
            Key::By => self.goes(Row::Number(Form::Size)),
            _ => word.refuse(Code::E03),
        }
    }
}
