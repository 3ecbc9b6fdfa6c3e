//! What rules say.

ghost use Rattle.std.specs.Prelude.{◌≡◌, ◌≤◌, pos, ◌≤ℤ◌, IfSome};
ghost use Rattle.std.specs.Option.{ForSome};

use anyhow::bail;
use rc_rules::{Rater, Rules};
use std::alloc::Global;
use std::fmt::Write;

/// The numbers of a question, one behind the other. None stands for `-`.
fn numbers(alloc: Global, words: &str) -> anyhow::Result<Vec<Option<u32>>> {
    let mut numbers = Vec::new(alloc);
    for word in words.split(',') {
        if word == "-" {
            numbers.push(None)?;
        } else {
            numbers.push(Some(word.parse::<u32>()?))?;
        }
    }
    Ok(numbers)
}

/// The number at a place, if there is one.
fn at(numbers: &[Option<u32>], place: usize) -> Option<u32> {
    match numbers.get(place) {
        Some(number) => *number,
        None => None,
    }
}

/// The number of a layer at a place, if there is one.
fn layer_at(numbers: &[Option<u32>], place: usize) -> Option<u8> {
    match at(numbers, place) {
        Some(number) => u8::try_from(number).ok(),
        None => None,
    }
}

/// A gap at a place, if there is one.
fn gap_at(numbers: &[Option<u32>], place: usize) -> Option<u32>
    ensures { ForSome result (λ d. 1 ≤ d) }
{
    match at(numbers, place) {
        Some(gap) if gap >= 1 => Some(gap),
        _ => None,
    }
}

/// A width at a place, and 1 where there is none.
fn width_at(numbers: &[Option<u32>], place: usize) -> i32
    ensures { pos 1 ≤ℤ result }
{
    match at(numbers, place) {
        Some(width) if width >= 1 && width < 1_000_000_000 => width as i32,
        _ => 1,
    }
}

/// Writes a number, or `-` where there is none.
fn number(line: &mut String, number: Option<u128>) -> anyhow::Result<()> {
    match number {
        Some(number) => Ok(write!(line, " {number}")?),
        None => Ok(write!(line, " -")?),
    }
}

/// Writes what is asked of a layer that has rules: its greatest width, its greatest distance, the resistance of a wire, or what a
/// face is rated at.
fn of_layer(
    line: &mut String,
    rules: &Rules,
    layer: u8,
    asked: char,
    numbers: &[Option<u32>],
) -> anyhow::Result<()> {
    if !rules.has(layer) {
        return Ok(write!(line, " none")?);
    }
    match asked {
        'k' => Ok(write!(line, " {}", rules.cap(layer))?),
        'd' => Ok(write!(line, " {}", rules.reach(layer))?),
        'o' => Ok(write!(line, " {}", rules.ohm(layer, width_at(numbers, 1)))?),
        _ => {
            let thick = at(numbers, 3).unwrap_or(1).max(1);
            let gap = gap_at(numbers, 4);
            let rate = rules.rate(
                layer,
                layer_at(numbers, 1),
                layer_at(numbers, 2),
                thick,
                gap,
            );
            Ok(write!(line, " {}/{}", rate.ground, rate.share)?)
        }
    }
}

/// Writes the answer to a question: a letter, and numbers behind it.
fn ask(alloc: Global, line: &mut String, rules: &Rules, question: &str) -> anyhow::Result<()> {
    let Some((letter, words)) = question.split_once(':') else {
        bail!("no question");
    };
    let numbers = numbers(alloc, words)?;
    match letter {
        "m" => Ok(write!(
            line,
            " {}:{}:{}",
            rules.m(),
            rules.routing_layers(),
            rules.cut_layers()
        )?),
        "h" => Ok(write!(line, " {}", rules.halo())?),
        "c" => Ok(write!(line, " {}", rules.contact())?),
        "v" => number(line, rules.via_ohm(layer_at(&numbers, 0).unwrap_or(255))),
        _ => of_layer(
            line,
            rules,
            layer_at(&numbers, 0).unwrap_or(255),
            letter.chars().next().unwrap_or('r'),
            &numbers,
        ),
    }
}

/// Writes the answers to questions.
pub fn ask_all(
    alloc: Global,
    line: &mut String,
    rules: &Rules,
    questions: &str,
) -> anyhow::Result<()> {
    for question in questions.split(' ') {
        ask(alloc, line, rules, question)?;
    }
    Ok(())
}
