//! The writer of SPEF texts.

ghost use Rattle.std.specs.Prelude.{◌≡◌, ◌<◌, ◌^◌, ◌∷◌, [], ◌++◌, true, false, codes, map, length, slice_get, drop, OnOk, OnErr, Option, Some, IfSome};
ghost use Rattle.std.specs.Fmt.{decimal};
ghost use Rattle.std.specs.List.{enumerate_from, flat_map};
ghost use Rattle.rc_fixed.specs.Decimal.{decimal_text, fraction_text};
ghost use Rattle.rc_io.specs.Bytes.{grown, GrewByPrefix, GrewByLess};
ghost use Rattle.rc_io.specs.Causes.{HasCause};
ghost use Rattle.rc_spef.specs.Buffering.{at_sink, Puts};
ghost use Rattle.rc_spef.specs.Text.{shown, line_text, lines_text, header, section, keyword, name_token, name_line, name_map, direction, port_line, ports_text, sub_text, end_token, second_text, cell_text, conn_kind, conn_line, cap_line, resistor_line, net_line, net_block, spef_text, head_text as head_bytes, net_text as net_bytes};

use crate::buffered::Buffered;
use crate::value::{Cap, DNet, Dir3, End, Spef, SpefConn, SpefPort, SpefRes, Sub};
use itoa::{Buffer, Integer};
use rc_fixed::{Fixed, Text, digits};
use rc_io::{Sink, WriteFault};

/// One, in units of 10^-15.
const ONE: u64 = 1_000_000_000_000_000;

/// How many bytes of a whole text are handed to the sink at once.
const TEXT_ROOM: usize = 65_536;

/// How many bytes of a net's block are handed to the sink at once.
const BLOCK_ROOM: usize = 8_192;

/// Puts a whole number.
fn put_number<const N: usize, K: Sink, I: Integer>(
    buffer: &mut Buffered<N>,
    sink: &mut K,
    number: I,
)
    ensures { Puts (at_sink (K.written sink.old) (K.faults sink.old) buffer.old) (at_sink (K.written sink.new) (K.faults sink.new) buffer.new) (I.text number) }
{
    let mut digits_of = Buffer::new();
    buffer.put(sink, digits_of.format(number).as_bytes());
}

/// Puts a number of units of 10^-15 that has up to 64 bits.
fn put_short<const N: usize, K: Sink>(buffer: &mut Buffered<N>, sink: &mut K, value: u64)
    ensures { Puts (at_sink (K.written sink.old) (K.faults sink.old) buffer.old) (at_sink (K.written sink.new) (K.faults sink.new) buffer.new) (decimal_text value) }
{
    put_number(buffer, sink, value / ONE);
    put_fraction(buffer, sink, value % ONE);
}

/// Puts the point and the digits behind it of so many units, or nothing where there are none.
fn put_fraction<const N: usize, K: Sink>(buffer: &mut Buffered<N>, sink: &mut K, rest: u64)
    requires { rest < 10 ^ 15 }
    ensures { Puts (at_sink (K.written sink.old) (K.faults sink.old) buffer.old) (at_sink (K.written sink.new) (K.faults sink.new) buffer.new) (fraction_text rest) }
{
    let mut digits_of = [0; 48];
    let end = digits(Fixed(u128::from(rest)), &mut digits_of);
    buffer.put(sink, without_first(&digits_of[..end]));
}

/// What stands behind the first byte.
fn without_first(bytes: &[u8]) -> &[u8]
    ensures { result.now ≡ drop 1 bytes.now }
{
    match bytes {
        [] => bytes,
        [_, rest @ ..] => rest,
    }
}

/// Puts a number of units of 10^-15.
fn put_value<const N: usize, K: Sink>(buffer: &mut Buffered<N>, sink: &mut K, value: Fixed)
    ensures { Puts (at_sink (K.written sink.old) (K.faults sink.old) buffer.old) (at_sink (K.written sink.new) (K.faults sink.new) buffer.new) (decimal_text value.0) }
{
    if let Ok(short) = u64::try_from(value.0) {
        return put_short(buffer, sink, short);
    }
    let mut digits_of = [0; 48];
    let end = digits(value, &mut digits_of);
    buffer.put(sink, &digits_of[..end]);
}

/// Puts what stands behind the number of a name.
fn put_sub<const N: usize, K: Sink>(buffer: &mut Buffered<N>, sink: &mut K, sub: &Sub)
    ensures { Puts (at_sink (K.written sink.old) (K.faults sink.old) buffer.old) (at_sink (K.written sink.new) (K.faults sink.new) buffer.new) (sub_text sub.now) }
{
    match sub {
        Sub::Bare => buffer.put(sink, b""),
        Sub::Num(number) => {
            buffer.put(sink, b":");
            put_number(buffer, sink, *number);
        }
        Sub::Word(word) => {
            buffer.put(sink, b":");
            buffer.put(sink, word.bytes());
        }
    }
}

/// Puts a blank and an end.
fn put_end<const N: usize, K: Sink>(buffer: &mut Buffered<N>, sink: &mut K, end: &End)
    ensures { Puts (at_sink (K.written sink.old) (K.faults sink.old) buffer.old) (at_sink (K.written sink.new) (K.faults sink.new) buffer.new) (32 ∷ shown (end_token end.now)) }
{
    buffer.put(sink, b" *");
    put_number(buffer, sink, end.name);
    put_sub(buffer, sink, &end.sub);
}

/// Puts a blank and a value, and ends the line.
fn put_amount<const N: usize, K: Sink>(buffer: &mut Buffered<N>, sink: &mut K, value: Fixed)
    ensures { Puts (at_sink (K.written sink.old) (K.faults sink.old) buffer.old) (at_sink (K.written sink.new) (K.faults sink.new) buffer.new) (32 ∷ decimal_text value.0 ++ 10 ∷ []) }
{
    buffer.put(sink, b" ");
    put_value(buffer, sink, value);
    buffer.put(sink, b"\n");
}

/// Puts a blank and an end, where there is one.
fn put_second<const N: usize, K: Sink>(buffer: &mut Buffered<N>, sink: &mut K, end: &Option<End>)
    ensures { Puts (at_sink (K.written sink.old) (K.faults sink.old) buffer.old) (at_sink (K.written sink.new) (K.faults sink.new) buffer.new) (second_text end.now) }
{
    match end {
        None => buffer.put(sink, b""),
        Some(end) => put_end(buffer, sink, end),
    }
}

/// Puts the line of a capacitance.
fn put_cap<const N: usize, K: Sink>(
    buffer: &mut Buffered<N>,
    sink: &mut K,
    number: usize,
    cap: &Cap,
)
    ensures { Puts (at_sink (K.written sink.old) (K.faults sink.old) buffer.old) (at_sink (K.written sink.new) (K.faults sink.new) buffer.new) (line_text (cap_line (number, cap.now))) }
{
    put_number(buffer, sink, number);
    put_end(buffer, sink, &cap.a);
    put_second(buffer, sink, &cap.b);
    put_amount(buffer, sink, cap.value);
}

/// Puts the line of a resistor.
fn put_resistor<const N: usize, K: Sink>(
    buffer: &mut Buffered<N>,
    sink: &mut K,
    number: usize,
    resistor: &SpefRes,
)
    ensures { Puts (at_sink (K.written sink.old) (K.faults sink.old) buffer.old) (at_sink (K.written sink.new) (K.faults sink.new) buffer.new) (line_text (resistor_line (number, resistor.now))) }
{
    put_number(buffer, sink, number);
    put_end(buffer, sink, &resistor.a);
    put_end(buffer, sink, &resistor.b);
    put_amount(buffer, sink, resistor.value);
}

/// Puts a blank and a direction.
fn put_direction<const N: usize, K: Sink>(buffer: &mut Buffered<N>, sink: &mut K, dir: Dir3)
    ensures { Puts (at_sink (K.written sink.old) (K.faults sink.old) buffer.old) (at_sink (K.written sink.new) (K.faults sink.new) buffer.new) (32 ∷ shown (direction dir)) }
{
    match dir {
        Dir3::I => buffer.put(sink, b" I"),
        Dir3::O => buffer.put(sink, b" O"),
        Dir3::B => buffer.put(sink, b" B"),
    }
}

/// Puts a cell, where there is one, and ends the line.
fn put_cell<const N: usize, K: Sink>(buffer: &mut Buffered<N>, sink: &mut K, cell: &Option<Text>)
    ensures { Puts (at_sink (K.written sink.old) (K.faults sink.old) buffer.old) (at_sink (K.written sink.new) (K.faults sink.new) buffer.new) (cell_text cell.now ++ 10 ∷ []) }
{
    match cell {
        None => buffer.put(sink, b"\n"),
        Some(name) => {
            buffer.put(sink, b" *D ");
            buffer.put(sink, name.bytes());
            buffer.put(sink, b"\n");
        }
    }
}

/// Puts what a connection begins with.
fn put_kind<const N: usize, K: Sink>(buffer: &mut Buffered<N>, sink: &mut K, port: bool)
    ensures { Puts (at_sink (K.written sink.old) (K.faults sink.old) buffer.old) (at_sink (K.written sink.new) (K.faults sink.new) buffer.new) (shown (conn_kind port)) }
{
    if port {
        buffer.put(sink, b"*P");
    } else {
        buffer.put(sink, b"*I");
    }
}

/// Puts the line of a connection.
fn put_conn<const N: usize, K: Sink>(buffer: &mut Buffered<N>, sink: &mut K, conn: &SpefConn)
    ensures { Puts (at_sink (K.written sink.old) (K.faults sink.old) buffer.old) (at_sink (K.written sink.new) (K.faults sink.new) buffer.new) (line_text (conn_line conn.now)) }
{
    put_kind(buffer, sink, conn.port);
    put_end(buffer, sink, &conn.end);
    put_direction(buffer, sink, conn.dir);
    put_cell(buffer, sink, &conn.cell);
}

/// Puts the lines of the connections under their keyword.
fn put_conns<const N: usize, K: Sink>(buffer: &mut Buffered<N>, sink: &mut K, conns: &[SpefConn])
    ensures { Puts (at_sink (K.written sink.old) (K.faults sink.old) buffer.old) (at_sink (K.written sink.new) (K.faults sink.new) buffer.new) (lines_text (section (keyword (codes "*CONN") ∷ []) (map conn_line conns.now))) }
{
    if conns.is_empty() {
        return buffer.put(sink, b"");
    }
    buffer.put(sink, b"*CONN\n");
    for conn in conns {
        put_conn(buffer, sink, conn);
    }
}

/// Puts the lines of the capacitances, numbered from 1, under their keyword.
fn put_caps<const N: usize, K: Sink>(buffer: &mut Buffered<N>, sink: &mut K, caps: &[Cap])
    ensures { Puts (at_sink (K.written sink.old) (K.faults sink.old) buffer.old) (at_sink (K.written sink.new) (K.faults sink.new) buffer.new) (lines_text (section (keyword (codes "*CAP") ∷ []) (map cap_line (enumerate_from 1 caps.now)))) }
{
    if caps.is_empty() {
        return buffer.put(sink, b"");
    }
    buffer.put(sink, b"*CAP\n");
    let mut number = 0;
    for cap in caps {
        number += 1;
        put_cap(buffer, sink, number, cap);
    }
}

/// Puts the lines of the resistors, numbered from 1, under their keyword.
fn put_resistors<const N: usize, K: Sink>(
    buffer: &mut Buffered<N>,
    sink: &mut K,
    resistors: &[SpefRes],
)
    ensures { Puts (at_sink (K.written sink.old) (K.faults sink.old) buffer.old) (at_sink (K.written sink.new) (K.faults sink.new) buffer.new) (lines_text (section (keyword (codes "*RES") ∷ []) (map resistor_line (enumerate_from 1 resistors.now)))) }
{
    if resistors.is_empty() {
        return buffer.put(sink, b"");
    }
    buffer.put(sink, b"*RES\n");
    let mut number = 0;
    for resistor in resistors {
        number += 1;
        put_resistor(buffer, sink, number, resistor);
    }
}

/// Puts the block of a net.
fn put_net<const N: usize, K: Sink>(buffer: &mut Buffered<N>, sink: &mut K, net: &DNet)
    ensures { Puts (at_sink (K.written sink.old) (K.faults sink.old) buffer.old) (at_sink (K.written sink.new) (K.faults sink.new) buffer.new) (lines_text (net_block net.now)) }
{
    buffer.put(sink, b"\n*D_NET *");
    put_number(buffer, sink, net.name);
    put_amount(buffer, sink, net.total);
    put_conns(buffer, sink, net.conns.items());
    put_caps(buffer, sink, net.caps.items());
    put_resistors(buffer, sink, net.res.items());
    buffer.put(sink, b"*END\n");
}

/// Puts the blocks of nets.
fn put_nets<const N: usize, K: Sink>(buffer: &mut Buffered<N>, sink: &mut K, nets: &[DNet])
    ensures { Puts (at_sink (K.written sink.old) (K.faults sink.old) buffer.old) (at_sink (K.written sink.new) (K.faults sink.new) buffer.new) (lines_text (flat_map net_block nets.now)) }
{
    buffer.put(sink, b"");
    for net in nets {
        put_net(buffer, sink, net);
    }
}

/// Puts the line of a die pin.
fn put_port<const N: usize, K: Sink>(buffer: &mut Buffered<N>, sink: &mut K, port: &SpefPort)
    ensures { Puts (at_sink (K.written sink.old) (K.faults sink.old) buffer.old) (at_sink (K.written sink.new) (K.faults sink.new) buffer.new) (line_text (port_line port.now)) }
{
    buffer.put(sink, b"*");
    put_number(buffer, sink, port.name);
    put_direction(buffer, sink, port.dir);
    buffer.put(sink, b"\n");
}

/// Puts the lines of the die pins under their keyword.
fn put_ports<const N: usize, K: Sink>(buffer: &mut Buffered<N>, sink: &mut K, ports: &[SpefPort])
    ensures { Puts (at_sink (K.written sink.old) (K.faults sink.old) buffer.old) (at_sink (K.written sink.new) (K.faults sink.new) buffer.new) (lines_text (ports_text ports.now)) }
{
    if ports.is_empty() {
        return buffer.put(sink, b"");
    }
    buffer.put(sink, b"\n*PORTS\n");
    for port in ports {
        put_port(buffer, sink, port);
    }
}

/// Puts the line of a name.
fn put_name<const N: usize, K: Sink>(
    buffer: &mut Buffered<N>,
    sink: &mut K,
    number: usize,
    name: &[u8],
)
    ensures { Puts (at_sink (K.written sink.old) (K.faults sink.old) buffer.old) (at_sink (K.written sink.new) (K.faults sink.new) buffer.new) (line_text (name_line (number, name.now))) }
{
    buffer.put(sink, b"*");
    put_number(buffer, sink, number);
    buffer.put(sink, b" ");
    buffer.put(sink, name);
    buffer.put(sink, b"\n");
}

/// Puts the map of names, numbered from 1.
fn put_names<const N: usize, K: Sink>(buffer: &mut Buffered<N>, sink: &mut K, names: &[Text])
    ensures { Puts (at_sink (K.written sink.old) (K.faults sink.old) buffer.old) (at_sink (K.written sink.new) (K.faults sink.new) buffer.new) (lines_text (name_map names.now)) }
{
    if names.is_empty() {
        return buffer.put(sink, b"");
    }
    buffer.put(sink, b"\n*NAME_MAP\n");
    let mut number = 0;
    for name in names {
        number += 1;
        put_name(buffer, sink, number, name.bytes());
    }
}

/// Puts the header.
fn put_header<const N: usize, K: Sink>(buffer: &mut Buffered<N>, sink: &mut K, spef: &Spef)
    ensures { Puts (at_sink (K.written sink.old) (K.faults sink.old) buffer.old) (at_sink (K.written sink.new) (K.faults sink.new) buffer.new) (lines_text (header spef.now)) }
{
    buffer.put(sink, b"*SPEF \"IEEE 1481-1998\"\n*DESIGN \"");
    buffer.put(sink, spef.design.bytes());
    buffer.put(
        sink,
        b"\"\n\
        *DATE \"Thu Jan 1 00:00:00 1970\"\n\
        *VENDOR \"rcx\"\n\
        *PROGRAM \"rcx\"\n\
        *VERSION \"1\"\n\
        *DESIGN_FLOW \"NAME_SCOPE LOCAL\" \"PIN_CAP NONE\"\n\
        *DIVIDER ",
    );
    buffer.put(sink, &[spef.divider]);
    buffer.put(sink, b"\n*DELIMITER :\n*BUS_DELIMITER ");
    buffer.put(sink, &[spef.bus_left]);
    buffer.put(sink, b" ");
    buffer.put(sink, &[spef.bus_right]);
    buffer.put(
        sink,
        b"\n\
        *T_UNIT 1 PS\n\
        *C_UNIT 1 FF\n\
        *R_UNIT 1 OHM\n\
        *L_UNIT 1 HENRY\n",
    );
}

/// Puts what stands before the blocks of the nets.
fn put_head<const N: usize, K: Sink>(buffer: &mut Buffered<N>, sink: &mut K, spef: &Spef)
    ensures { Puts (at_sink (K.written sink.old) (K.faults sink.old) buffer.old) (at_sink (K.written sink.new) (K.faults sink.new) buffer.new) (head_bytes spef.now) }
{
    put_header(buffer, sink, spef);
    put_names(buffer, sink, spef.names.items());
    put_ports(buffer, sink, spef.ports.items());
}

/// Puts the whole text.
fn put_spef<const N: usize, K: Sink>(buffer: &mut Buffered<N>, sink: &mut K, spef: &Spef)
    ensures { Puts (at_sink (K.written sink.old) (K.faults sink.old) buffer.old) (at_sink (K.written sink.new) (K.faults sink.new) buffer.new) (spef_text spef.now) }
{
    put_head(buffer, sink, spef);
    put_nets(buffer, sink, spef.nets.items());
}

/// Writes what is still held, and says whether the sink has failed.
fn finish<const N: usize, K: Sink>(buffer: &mut Buffered<N>, sink: &mut K) -> Result<(), WriteFault>
    ensures puts { Puts (at_sink (K.written sink.old) (K.faults sink.old) buffer.old) (at_sink (K.written sink.new) (K.faults sink.new) buffer.new) [] }
    ensures ok { OnOk result (buffer.new ≡ record { bytes = []; failed = false }) }
    ensures err { OnErr result (buffer.new.failed ≡ true) }
{
    buffer.empty(sink);
    if buffer.has_failed() {
        return Err(WriteFault);
    }
    Ok(())
}

/// Appends the text of a SPEF file to the sink: its head, and the blocks of its nets. It takes no memory, and hands the
/// sink pieces of up to 64 KB.
///
/// # Errors
///
/// `WriteFault` where a write fails, and only where the sink's count of faults rose. Some first bytes of the text, but not
/// all, were appended by then, and nothing else.
pub fn text<K: Sink>(spef: &Spef, sink: &mut K) -> Result<(), WriteFault>
    ensures all { OnOk result (K.written sink.new ≡ grown (K.written sink.old) (spef_text spef.now)) }
    ensures cut { OnErr result (GrewByLess (K.written sink.old) (K.written sink.new) (spef_text spef.now)) }
    ensures cause { HasCause (K.faults sink.old) (K.faults sink.new) result }
{
    let mut buffer = Buffered::<TEXT_ROOM>::new();
    put_spef(&mut buffer, sink, spef);
    finish(&mut buffer, sink)
}

/// Appends what stands in a text before the blocks of its nets: the header, the map of names and the die pins. The nets of
/// the value aren't looked at, so a large design is written by this call and one of [`block_text`] for each net, one after the
/// other. It takes no memory.
///
/// # Errors
///
/// `WriteFault` as for [`text`].
pub fn head_text<K: Sink>(spef: &Spef, sink: &mut K) -> Result<(), WriteFault>
    ensures all { OnOk result (K.written sink.new ≡ grown (K.written sink.old) (head_bytes spef.now)) }
    ensures cut { OnErr result (GrewByLess (K.written sink.old) (K.written sink.new) (head_bytes spef.now)) }
    ensures cause { HasCause (K.faults sink.old) (K.faults sink.new) result }
{
    let mut buffer = Buffered::<TEXT_ROOM>::new();
    put_head(&mut buffer, sink, spef);
    finish(&mut buffer, sink)
}

/// Appends the block of a net, with the empty line before it. Names stand in it as their places alone, so no list of them is
/// asked for. It takes no memory.
///
/// # Errors
///
/// `WriteFault` as for [`text`].
pub fn block_text<K: Sink>(net: &DNet, sink: &mut K) -> Result<(), WriteFault>
    ensures all { OnOk result (K.written sink.new ≡ grown (K.written sink.old) (net_bytes net.now)) }
    ensures cut { OnErr result (GrewByLess (K.written sink.old) (K.written sink.new) (net_bytes net.now)) }
    ensures cause { HasCause (K.faults sink.old) (K.faults sink.new) result }
{
    let mut buffer = Buffered::<BLOCK_ROOM>::new();
    put_net(&mut buffer, sink, net);
    finish(&mut buffer, sink)
}

/// Appends the block of one net of a value, with the empty line before it. It takes no memory.
///
/// # Errors
///
/// `WriteFault` as for [`text`].
pub fn net_text<K: Sink>(spef: &Spef, net: usize, sink: &mut K) -> Result<(), WriteFault>
    requires { net < length spef.now.nets }
    ensures all { OnOk result (IfSome (slice_get spef.now.nets net) (λ net. K.written sink.new ≡ grown (K.written sink.old) (net_bytes net))) }
    ensures cut { OnErr result (IfSome (slice_get spef.now.nets net) (λ net. GrewByLess (K.written sink.old) (K.written sink.new) (net_bytes net))) }
    ensures cause { HasCause (K.faults sink.old) (K.faults sink.new) result }
{
    block_text(&spef.nets.items()[net], sink)
}
