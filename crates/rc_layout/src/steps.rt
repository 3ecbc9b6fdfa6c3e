//! Steps of a path.

ghost use Rattle.std.specs.Prelude.{◌≡◌, ◌==◌, ◌≤◌, ◌^◌, All, Ok, None, length, option_map, IfSome, OnOk};
ghost use Rattle.rc_layout.specs.Paths.{patch_drawn, step_drawn, steps_drawn};
ghost use Rattle.rc_layout.specs.Ranges.{IsParts, IsSpan, IsStyle};
ghost use Rattle.rc_layout.specs.Refusals.{Leaves, through};
ghost use Rattle.rc_layout.specs.Scope.{ruled_width, rule_at, stroke_on as stroke_of, width_on as width_on_of};
ghost use Rattle.rc_layout.specs.Units.{scaled};
ghost use Rattle.rc_layout.specs.Wide.{as_point, HasNearPads, IsStop, IsStroke, IsWide, IsWidePoint};
ghost use Rattle.std.specs.List.{find};
ghost use Rattle.std.specs.Option.{option_copied};

use crate::part::Rule;
use crate::parts::Parts;
use crate::piece::too_far;
use crate::spot::patch;
use crate::stroke::{Stop, Stroke, Style};
use crate::wide::{WidePt, near_point, scale, scale_point};
use crate::wiring::{Pen, Wiring};
use rc_geom::Pt;
use rc_keys::Fault;
use rc_wire::Step;

impl Pen {
    /// A patch as the last point sees it.
    #[tactic(auto, unfolding(crate::specs::Paths::patch_drawn))]
    pub fn cover(&mut self, p: WidePt, q: WidePt) -> Result<(), Fault>
        requires p { IsWidePoint p }
        requires q { IsWidePoint q }
        ensures stop { OnOk result (self.new.stop ≡ self.old.stop) }
        ensures is { Leaves result self.new (patch_drawn self.old (as_point p) (as_point q)) }
    {
        let item = match patch(self.layer, self.stop.at, p, q) {
            Ok(item) => item,
            Err(refusal) => return Err(Fault::Refused(refusal)),
        };
        let Ok(()) = self.drawn.put_item(item) else {
            return Err(Fault::NoMemory);
        };
        Ok(())
    }
}

/// The width that a rule names for a routing layer.
fn width_among(widths: &[(u8, i64)], number: u8) -> Option<i64>
    requires { All (λ entry. IsSpan entry.1) widths.now }
    ensures is { result ≡ option_map (λ entry. entry.1) (find (λ entry. number == entry.0) widths.now) }
    ensures span { IfSome result IsSpan }
{
    match widths {
        [] => None,
        [first, others @ ..] => {
            if number == first.0 {
                Some(first.1)
            } else {
                width_among(others, number)
            }
        }
    }
}

/// The rule of that number.
fn rule_of(rules: &[Rule], rule: Option<usize>) -> Option<&Rule>
    requires { All (λ rule. All (λ entry. IsSpan entry.1) rule.widths) rules.now }
    ensures is { option_copied result ≡ rule_at rules.now rule }
    ensures spans { IfSome result (λ found. All (λ entry. IsSpan entry.1) found.now.widths) }
{
    let Some(place) = rule else {
        return None;
    };
    let Some(found) = rules.get(place) else {
        return None;
    };
    Some(found)
}

/// The width that the rule names for a routing layer.
fn rule_width(rule: &Rule, number: u8) -> Option<i64>
    requires { All (λ entry. IsSpan entry.1) rule.now.widths }
    ensures is { result ≡ ruled_width (Some rule.now) number }
    ensures span { IfSome result IsSpan }
{
    width_among(rule.widths.items(), number)
}

impl Parts {
    /// The width that a rule by its number names for a routing layer.
    fn ruled(&self, rule: Option<usize>, number: u8) -> Option<i64>
        requires { IsParts self.now }
        ensures is { result ≡ ruled_width (rule_at self.now.rules rule) number }
        ensures span { IfSome result IsSpan }
    {
        let Some(rule) = rule_of(self.rules.items(), rule) else {
            return None;
        };
        rule_width(rule, number)
    }

    /// How wide a path is on a routing layer.
    fn width_on(&self, style: Style, number: u8) -> i64
        requires parts { IsParts self.now }
        requires style { IsStyle style }
        ensures is { result ≡ width_on_of self.now style number }
        ensures span { IsSpan result }
    {
        if let Some(own) = style.own {
            return own;
        }
        match self.ruled(style.rule, number) {
            Some(width) => width,
            None => i64::from(self.tech.width(number)),
        }
    }

    /// How a path is drawn on a routing layer.
    pub fn stroke_on(&self, style: Style, number: u8) -> Stroke
        requires parts { IsParts self.now }
        requires style { IsStyle style }
        ensures is { result ≡ stroke_of self.now style number }
        ensures wide { IsStroke result }
    {
        Stroke {
            layer: number,
            width: self.width_on(style, number),
            bare: style.own.is_some(),
        }
    }
}

/// An extension in units of the layout.
pub fn extension(factor: u32, ext: Option<i32>) -> Option<i64>
    requires { factor ≤ 20000 }
    ensures is { result ≡ option_map (scaled factor) ext }
    ensures wide { IfSome result IsWide }
{
    match ext {
        Some(ext) => Some(scale(factor, ext)),
        None => None,
    }
}

impl Pen {
    /// The next step of a path.
    #[tactic(auto, unfolding(crate::specs::Paths::step_drawn))]
    pub fn step(&mut self, parts: &Parts, line: u32, style: Style, step: &Step) -> Result<(), Fault>
        requires parts { IsParts parts.now }
        requires style { IsStyle style }
        requires stop { IsStop self.old.stop }
        ensures stop { OnOk result (IsStop self.new.stop) }
        ensures is { Leaves result self.new (step_drawn parts.now line style self.old step.now) }
    {
        match step {
            Step::Point { at, ext } => {
                let stroke = parts.stroke_on(style, self.layer);
                self.go(
                    line,
                    stroke,
                    scale_point(parts.factor, *at),
                    extension(parts.factor, *ext),
                )
            }
            Step::Via { name, orient } => { self.pierce(line, &parts.vias, name.bytes(), *orient) }
            Step::Patch { x0, y0, x1, y1 } => {
                let p = scale_point(parts.factor, Pt { x: *x0, y: *y0 });
                let q = scale_point(parts.factor, Pt { x: *x1, y: *y1 });
                self.cover(p, q)
            }
        }
    }

    /// The steps of a path behind its first point.
    pub fn follow(
        &mut self,
        parts: &Parts,
        line: u32,
        style: Style,
        steps: &[Step],
    ) -> Result<(), Fault>
        requires parts { IsParts parts.now }
        requires style { IsStyle style }
        requires stop { IsStop self.old.stop }
        ensures { Leaves result self.new (through (step_drawn parts.now line style) self.old steps.now) }
    {
        for step in steps {
            match self.step(parts, line, style, step) {
                Ok(()) => {}
                Err(fault) => return Err(fault),
            }
        }
        Ok(())
    }
}
