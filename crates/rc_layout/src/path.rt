//! Paths of a net.

ghost use Rattle.std.specs.Prelude.{◌≡◌, pos, ◌≤ℤ◌, ◌≤◌, ◌^◌, length, IfOk};
ghost use Rattle.rc_layout.specs.Paths.{taper_rule as taper_rule_of, style_of as style_of_path};
ghost use Rattle.rc_layout.specs.Ranges.{IsParts, IsPath, IsSpan, IsStyle};
ghost use Rattle.rc_layout.specs.Units.{scaled};
ghost use Rattle.rc_layout.specs.Scope.{path_layer as path_layer_of, routing_named as routing_named_of, rule_named as rule_named_of};

use crate::firsts::Firsts;
use crate::part::Rule;
use crate::parts::Parts;
use crate::process::Process;
use crate::stroke::Style;
use crate::via::refused;
use crate::wide::scale;
use rc_keys::{Code, Refusal};
use rc_lef::LayerKind;
use rc_wire::{RawPath, Taper};

/// The routing layer of that name.
fn routing_named(process: &Process, name: &[u8]) -> Option<u8>
    ensures { result ≡ routing_named_of process.now.layers name.now }
{
    match process.kind(name) {
        Some(LayerKind::Routing(number)) => Some(number),
        _ => None,
    }
}

/// The routing layer that a path or a rectangle names.
pub fn path_layer(process: &Process, line: u32, name: &[u8]) -> Result<u8, Refusal>
    ensures { result ≡ path_layer_of process.now.layers line name.now }
{
    match routing_named(process, name) {
        Some(number) => Ok(number),
        None => Err(refused(Code::E06, line)),
    }
}

/// The rule of that name, by its number.
pub fn rule_named(rules: &Firsts<Rule>, line: u32, name: &[u8]) -> Result<usize, Refusal>
    ensures { result ≡ rule_named_of rules.now line name.now }
{
    match rules.place(name) {
        Some(place) => Ok(place),
        None => Err(refused(Code::E06, line)),
    }
}

/// The rule of a path.
fn taper_rule(
    rules: &Firsts<Rule>,
    line: u32,
    net_rule: Option<usize>,
    taper: &Taper,
) -> Result<Option<usize>, Refusal>
    ensures { result ≡ taper_rule_of rules.now line net_rule taper.now }
{
    match taper {
        Taper::Net => Ok(net_rule),
        Taper::Layer => Ok(None),
        Taper::Rule(name) => match rule_named(rules, line, name.bytes()) {
            Ok(number) => Ok(Some(number)),
            Err(refusal) => Err(refusal),
        },
    }
}

/// The width of a path that has its own.
fn own_width(factor: u32, width: i32) -> i64
    requires factor { factor ≤ 20000 }
    requires natural { pos 0 ≤ℤ width }
    ensures is { result ≡ scaled factor width }
    ensures span { IsSpan result }
{
    scale(factor, width)
}

/// How a path is drawn.
pub fn style_of(parts: &Parts, net_rule: Option<usize>, path: &RawPath) -> Result<Style, Refusal>
    requires parts { IsParts parts.now }
    requires path { IsPath path.now }
    ensures is { result ≡ style_of_path parts.now net_rule path.now }
    ensures style { IfOk result IsStyle }
{
    match path.width {
        Some(width) => Ok(Style {
            own: Some(own_width(parts.factor, width)),
            rule: None,
        }),
        None => match taper_rule(&parts.rules, path.line, net_rule, &path.taper) {
            Ok(rule) => Ok(Style { own: None, rule }),
            Err(refusal) => Err(refusal),
        },
    }
}
