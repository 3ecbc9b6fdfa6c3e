//! The lines on the standard error.

ghost use Rattle.std.specs.Prelude.{◌≡◌, ◌≢◌, ◌⊎◌, [], ◌∷◌, ◌++◌, IfOk, OnOk};
ghost use Rattle.std.specs.Fmt.{decimal, signed_decimal};
ghost use Rattle.std.specs.Option.{option_copied};
ghost use Rattle.rc_io.specs.Causes.{Rose};
ghost use Rattle.rc_io.specs.Bytes.{grown, GrewByPrefix};
ghost use Rattle.rc_cli.specs.Lines.{is_layer as is_layer_of, layer_at as layer_at_of, layer_name as layer_name_of, net_name as net_name_of, names_in, refusal_words, spaced, refusal_line as refusal_line_of, read_fault_line as read_fault_line_of, usage_line, no_memory_line};

use itoa::{Buffer, Integer};
use rc_fixed::{NoMemory, Text};
use rc_io::{Sink, write_all};
use rc_keys::Refusal;
use rc_layout::Layout;
use rc_lef::{Layer, LayerKind};
use rc_session::code_of;
use std::alloc::Global;

/// The line of a file that failed.
///
/// # Errors
///
/// `NoMemory` for want of memory.
pub fn read_fault_line(alloc: Global, name: &str) -> Result<Text, NoMemory>
    ensures { IfOk result (λ line. line ≡ read_fault_line_of name.now) }
{
    let mut line = Vec::from_slice(alloc, b"rcx: read fault ")?;
    line.extend_from_slice(name.as_bytes())?;
    line.push(b'\n')?;
    Text::from_vec(alloc, line)
}

/// Whether a layer is the cut layer, or else the routing layer, of that number.
fn is_layer(layer: &Layer, cut: bool, number: u8) -> bool
    ensures { result ≡ is_layer_of cut number layer.now.kind }
{
    match layer.kind {
        LayerKind::Routing(other) => !cut && other == number,
        LayerKind::Cut(other) => cut && other == number,
        LayerKind::Other => false,
    }
}

/// The layer of a kind and a number. None comes exactly where there is none.
#[tactic(auto, unfolding(crate::specs::Lines::layer_at))]
fn layer_at(layers: &[Layer], cut: bool, number: u8) -> Option<&Layer>
    ensures { option_copied result ≡ layer_at_of layers.now cut number }
{
    layers.iter().find(|layer| is_layer(layer, cut, number))
}

/// The name of a layer, by its kind and its number. No bytes where there is none.
fn layer_name(layers: &[Layer], cut: bool, number: u8) -> &[u8]
    ensures { result.now ≡ layer_name_of layers.now cut number }
{
    match layer_at(layers, cut, number) {
        Some(layer) => layer.name.bytes(),
        None => &[],
    }
}

/// The name of a layer of a layout. No bytes where there is none.
fn layer_called(layout: Option<&Layout>, cut: bool, number: u8) -> &[u8]
    ensures { result.now ≡ (names_in (option_copied layout.entry)).layer cut number }
{
    match layout {
        Some(layout) => layer_name(layout.tech().layers(), cut, number),
        None => &[],
    }
}

/// The name of a net. No bytes where there is none.
fn net_name(layout: &Layout, number: u32) -> &[u8]
    ensures { result.now ≡ net_name_of layout.now number }
{
    if (number as usize) < layout.nets().len() + layout.grounded().len() {
        layout.name(number)
    } else {
        &[]
    }
}

/// The name of a net of a layout. No bytes where there is none.
fn net_called(layout: Option<&Layout>, number: u32) -> &[u8]
    ensures { result.now ≡ (names_in (option_copied layout.entry)).net number }
{
    match layout {
        Some(layout) => net_name(layout, number),
        None => &[],
    }
}

/// Appends a blank and a word.
fn push_word(line: &mut Vec<u8>, word: &[u8]) -> Result<(), NoMemory>
    ensures { OnOk result (line.new.items ≡ line.old.items ++ 32 ∷ word.now) }
{
    line.push(b' ')?;
    line.extend_from_slice(word)?;
    Ok(())
}

/// Appends a blank and a number.
fn push_number<I: Integer>(line: &mut Vec<u8>, number: I) -> Result<(), NoMemory>
    ensures { OnOk result (line.new.items ≡ line.old.items ++ 32 ∷ I.text number) }
{
    let mut digits = Buffer::new();
    push_word(line, digits.format(number).as_bytes())
}

/// Appends one word.
fn push_one(line: &mut Vec<u8>, word: &[u8]) -> Result<(), NoMemory>
    ensures { OnOk result (line.new.items ≡ line.old.items ++ spaced (word.now ∷ [])) }
{
    push_word(line, word)?;
    Ok(())
}

/// Appends a file and a line of it.
fn push_place(line: &mut Vec<u8>, file: &[u8], number: u32) -> Result<(), NoMemory>
    ensures { OnOk result (line.new.items ≡ line.old.items ++ spaced (file.now ∷ decimal number ∷ [])) }
{
    push_word(line, file)?;
    push_number(line, number)?;
    Ok(())
}

/// What a line names of a short: two nets, a layer, and a place in units of 1/M micron.
#[derive(Clone, Copy)]
struct Meeting<'a> {
    first: &'a [u8],
    second: &'a [u8],
    layer: &'a [u8],
    x: i32,
    y: i32,
}

/// Appends what a line names of a short.
fn push_meeting(line: &mut Vec<u8>, meeting: Meeting<'_>) -> Result<(), NoMemory>
    ensures { OnOk result (line.new.items ≡ line.old.items ++ spaced (meeting.entry.first.now ∷ meeting.entry.second.now ∷ meeting.entry.layer.now
        ∷ signed_decimal meeting.entry.x ∷ signed_decimal meeting.entry.y ∷ [])) }
{
    push_word(line, meeting.first)?;
    push_word(line, meeting.second)?;
    push_word(line, meeting.layer)?;
    push_number(line, meeting.x)?;
    push_number(line, meeting.y)?;
    Ok(())
}

/// Appends what a refusal names.
fn push_words(
    line: &mut Vec<u8>,
    layout: Option<&Layout>,
    file: &str,
    refusal: &Refusal,
) -> Result<(), NoMemory>
    ensures { OnOk result (line.new.items ≡ line.old.items ++ spaced (refusal_words (names_in (option_copied layout.entry)) file.now refusal.now)) }
{
    match *refusal {
        Refusal::At { line: number, .. } => push_place(line, file.as_bytes(), number),
        Refusal::NoRules { cut, number } => push_one(line, layer_called(layout, cut, number)),
        Refusal::Short {
            first,
            second,
            layer,
            x,
            y,
        } => push_meeting(
            line,
            Meeting {
                first: net_called(layout, first),
                second: net_called(layout, second),
                layer: layer_called(layout, false, layer),
                x,
                y,
            },
        ),
        Refusal::Limit { what } => push_one(line, what.name().as_bytes()),
    }
}

/// The line of a refusal: `rcx: `, its code, and behind it a file and a line of the file; or a layer without rules; or two
/// nets that meet, their layer, and the place in units of 1/M micron; or a quantity. Names are those of the layout, as they
/// stand in its files. Before there is a layout, layers and nets have none.
///
/// # Errors
///
/// `NoMemory` for want of memory.
pub fn refusal_line(
    alloc: Global,
    layout: Option<&Layout>,
    file: &str,
    refusal: &Refusal,
) -> Result<Text, NoMemory>
    ensures { IfOk result (λ line. line ≡ refusal_line_of (names_in (option_copied layout.entry)) file.now refusal.now) }
{
    let mut line = Vec::from_slice(alloc, b"rcx: ")?;
    line.extend_from_slice(code_of(refusal).name().as_bytes())?;
    push_words(&mut line, layout, file, refusal)?;
    line.push(b'\n')?;
    Text::from_vec(alloc, line)
}

/// Tells that the words have no listed form, and answers the status.
pub fn tell_usage<E: Sink>(err: &mut E) -> u8
    ensures status { (result ≡ 1) ⊎ (result ≡ 4) }
    ensures whole { result ≡ 1 → E.written err.new ≡ grown (E.written err.old) usage_line }
    ensures prefix { GrewByPrefix (E.written err.old) (E.written err.new) usage_line }
    ensures fault { result ≡ 4 → Rose (E.faults err.old) (E.faults err.new) }
{
    tell(err, 1, b"rcx: usage\n")
}

/// Tells that memory ran out, and answers the status.
pub fn tell_no_memory<E: Sink>(err: &mut E) -> u8
    ensures status { (result ≡ 5) ⊎ (result ≡ 4) }
    ensures whole { result ≡ 5 → E.written err.new ≡ grown (E.written err.old) no_memory_line }
    ensures prefix { GrewByPrefix (E.written err.old) (E.written err.new) no_memory_line }
    ensures fault { result ≡ 4 → Rose (E.faults err.old) (E.faults err.new) }
{
    tell(err, 5, b"rcx: no memory\n")
}

/// Writes the line of a status, and answers that status, or 4 where the sink failed.
pub fn tell<E: Sink>(err: &mut E, status: u8, line: &[u8]) -> u8
    requires { status ≢ 4 }
    ensures status { (result ≡ status) ⊎ (result ≡ 4) }
    ensures whole { result ≡ status → E.written err.new ≡ grown (E.written err.old) line.now }
    ensures prefix { GrewByPrefix (E.written err.old) (E.written err.new) line.now }
    ensures fault { result ≡ 4 → Rose (E.faults err.old) (E.faults err.new) }
{
    match write_all(err, line) {
        Ok(()) => status,
        Err(_) => 4,
    }
}
