//! The text of the design.

ghost use Rattle.std.specs.Prelude.{◌≡◌, ◌+◌, ◌*◌, ◌<◌, ◌≤◌, ◌^◌, ◌++◌, length, OnOk, IfOk};
ghost use Rattle.std.specs.Fmt.{decimal};
ghost use Rattle.rc_gen.specs.Draws.{next, offset_at};
ghost use Rattle.rc_gen.specs.Texts.{point_text, name_text, layer_text, wire_text, across as across_of, upright as upright_of, rows_text, design_text as design_text_of};

use crate::draws::Draws;
use itoa::Buffer;
use rc_fixed::NoMemory;
use std::alloc::Global;

/// How long a wire is, and how far one row lies from the row before, in units of 1/1000 micron.
const LENGTH: u32 = 10_000;

const PITCH: u32 = 400;

/// A place, in units of 1/1000 micron.
#[derive(Clone, Copy, Debug)]
pub struct Place {
    pub x: u32,
    pub y: u32,
}

/// A net of one wire: its name is a letter and a number, and its layer is `m` and a number.
#[derive(Clone, Copy, Debug)]
pub struct Wire {
    pub letter: u8,
    pub number: u32,
    pub layer: u32,
    pub from: Place,
    pub to: Place,
}

/// The net of a row from left to right.
fn across(row: u32, x: u32) -> Wire
    requires row { row ≤ 65536 }
    requires x { x ≤ 4900 }
    ensures { result ≡ across_of row x }
{
    let y = PITCH * row;
    Wire {
        letter: b'h',
        number: row,
        layer: 1,
        from: Place { x, y },
        to: Place { x: x + LENGTH, y },
    }
}

/// The net of a row upwards.
fn upright(row: u32, y: u32) -> Wire
    requires row { row ≤ 65536 }
    requires y { y ≤ 4900 }
    ensures { result ≡ upright_of row y }
{
    let x = PITCH * row;
    Wire {
        letter: b'v',
        number: row,
        layer: 2,
        from: Place { x, y },
        to: Place { x, y: y + LENGTH },
    }
}

/// Appends a number.
fn push_number(text: &mut Vec<u8>, number: u32) -> Result<(), NoMemory>
    ensures text { OnOk result (text.new.items ≡ text.old.items ++ decimal number) }
    ensures short { OnOk result (length text.new.items ≤ length text.old.items + 40) }
{
    let mut digits = Buffer::new();
    text.extend_from_slice(digits.format(number).as_bytes())?;
    Ok(())
}

/// Appends a point and a blank.
fn push_point(text: &mut Vec<u8>, at: Place) -> Result<(), NoMemory>
    ensures text { OnOk result (text.new.items ≡ text.old.items ++ point_text at) }
    ensures short { OnOk result (length text.new.items ≤ length text.old.items + 90) }
{
    text.extend_from_slice(b"( ")?;
    push_number(text, at.x)?;
    text.extend_from_slice(b" ")?;
    push_number(text, at.y)?;
    text.extend_from_slice(b" ) ")?;
    Ok(())
}

/// Appends the name of a net.
fn push_name(text: &mut Vec<u8>, wire: &Wire) -> Result<(), NoMemory>
    ensures text { OnOk result (text.new.items ≡ text.old.items ++ name_text wire.now) }
    ensures short { OnOk result (length text.new.items ≤ length text.old.items + 50) }
{
    text.extend_from_slice(b"- ")?;
    text.push(wire.letter)?;
    push_number(text, wire.number)?;
    Ok(())
}

/// Appends the layer of a wire.
fn push_layer(text: &mut Vec<u8>, wire: &Wire) -> Result<(), NoMemory>
    ensures text { OnOk result (text.new.items ≡ text.old.items ++ layer_text wire.now) }
    ensures short { OnOk result (length text.new.items ≤ length text.old.items + 60) }
{
    text.extend_from_slice(b" + ROUTED m")?;
    push_number(text, wire.layer)?;
    text.extend_from_slice(b" ")?;
    Ok(())
}

/// Appends the line of a net.
fn push_wire(text: &mut Vec<u8>, wire: &Wire) -> Result<(), NoMemory>
    ensures text { OnOk result (text.new.items ≡ text.old.items ++ wire_text wire.now) }
    ensures short { OnOk result (length text.new.items ≤ length text.old.items + 300) }
{
    push_name(text, wire)?;
    push_layer(text, wire)?;
    push_point(text, wire.from)?;
    push_point(text, wire.to)?;
    text.extend_from_slice(b";\n")?;
    Ok(())
}

/// Appends the nets of a row, and takes a draw for each.
fn push_row(text: &mut Vec<u8>, draws: &mut Draws, row: u32) -> Result<(), NoMemory>
    requires row { row ≤ 65536 }
    requires state { draws.old.state < 2 ^ 31 }
    ensures text { OnOk result (text.new.items ≡ text.old.items ++ wire_text (across_of row (offset_at (next draws.old.state))) ++ wire_text (upright_of row (offset_at (next (next draws.old.state))))) }
    ensures short { OnOk result (length text.new.items ≤ length text.old.items + 600) }
    ensures draws { OnOk result (draws.new.state ≡ next (next draws.old.state)) }
    ensures state { OnOk result (draws.new.state < 2 ^ 31) }
{
    let x = draws.offset();
    push_wire(text, &across(row, x))?;
    let y = draws.offset();
    push_wire(text, &upright(row, y))?;
    Ok(())
}

/// Appends the nets of all rows.
fn push_rows(text: &mut Vec<u8>, seed: u32, rows: u32) -> Result<(), NoMemory>
    requires seed { seed < 2 ^ 31 }
    requires rows { rows ≤ 65536 }
    ensures text { OnOk result (text.new.items ≡ text.old.items ++ rows_text seed rows) }
    ensures short { OnOk result (length text.new.items ≤ length text.old.items + 600 * rows) }
{
    let mut draws = Draws { state: seed };
    for row in 0..rows {
        push_row(text, &mut draws, row)?;
    }
    Ok(())
}

/// The text of the design, of about 120 bytes a row.
pub fn design_text(alloc: Global, seed: u32, rows: u32) -> Result<Vec<u8>, NoMemory>
    requires seed { seed < 2 ^ 31 }
    requires rows { rows ≤ 65536 }
    ensures text { IfOk result (λ text. text.items ≡ design_text_of seed rows) }
    ensures short { IfOk result (λ text. length text.items ≤ 2 ^ 30) }
{
    let mut text = Vec::from_slice(
        alloc,
        b"VERSION 5.8 ;\nDESIGN t ;\nUNITS DISTANCE MICRONS 1000 ;\nNETS ",
    )?;
    push_number(&mut text, 2 * rows)?;
    text.extend_from_slice(b" ;\n")?;
    push_rows(&mut text, seed, rows)?;
    text.extend_from_slice(b"END NETS\nEND DESIGN\n")?;
    Ok(text)
}
