ghost use Rattle.std.specs.Prelude.{◌≤◌, length};

use super::*;
use rc_fixed::{List, NoMemory, Text};
use std::alloc::Global;
use std::fs;
use std::fs::File;
use std::test::Fail;

const CONTENT: &str = "UNITS DATABASE MICRON";

/// A list of one item.
fn one<T: Drop>(alloc: Global, item: T) -> Result<List<T>, NoMemory> {
    let mut items = List::new(alloc);
    items.push(item)?;
    Ok(items)
}

/// A file of a name and a content.
fn file(alloc: Global, name: &str, content: &str) -> Result<(Text, Text), NoMemory> {
    let name = Text::from(alloc, name.as_bytes())?;
    let content = Text::from(alloc, content.as_bytes())?;
    Ok((name, content))
}

/// Three files, of which two have one name; the call of this number fails.
fn three_files(alloc: Global, most: usize, failing: u64) -> Result<MemFiles, NoMemory>
    requires { 1 ≤ most }
{
    let mut files = List::new(alloc);
    files.push(file(alloc, "first.lef", "LAYER")?)?;
    files.push(file(alloc, "second.lef", CONTENT)?)?;
    files.push(file(alloc, "second.lef", "another")?)?;
    MemFiles::new(alloc, files, most, one(alloc, failing)?)
}

/// Whether the second file is read, or its fault is answered and counted where the failing call is among those
/// that reading it takes.
fn is_read_in(alloc: Global, most: usize, calls: u64, failing: u64) -> Result<bool, NoMemory>
    requires { 1 ≤ most }
{
    let mut files = three_files(alloc, most, failing)?;
    let result = read_whole(alloc, &mut files, "second.lef", 1000);
    let faults = (files.faults("first.lef"), files.faults("second.lef"));
    let is_right = match result {
        Ok(bytes) => { calls < failing && bytes.items() == CONTENT.as_bytes() && faults == (0, 0) }
        Err(end) => failing <= calls && end == ReadEnd::Fault && faults == (0, 1),
    };
    Ok(is_right)
}

/// At most so many bytes a read, and how many calls read the 21 bytes: one begins, the last one finds the end.
#[test]
fn each_failing_call_is_a_fault(rt: HostRuntime) -> Result<(), Fail> {
    for (most, calls) in [(1usize, 23u64), (7, 5), (4096, 3)] {
        assert!(rt; most >= 1);
        for failing in 1..30 {
            let is_right = is_read_in(rt.alloc(), most, calls, failing)?;
            assert!(rt; is_right, "{most}, {failing}");
        }
    }
    Ok(())
}

/// Whether a file of this content is read where this is the room, or the end is answered that is given.
fn is_read_within(
    alloc: Global,
    content: &str,
    room: u64,
    end: Option<ReadEnd>,
) -> Result<bool, NoMemory>
    requires { room ≤ 10 }
{
    let files = one(alloc, file(alloc, "a.def", content)?)?;
    let mut files = MemFiles::new(alloc, files, 3, List::new(alloc))?;
    let is_right = match read_whole(alloc, &mut files, "a.def", room) {
        Ok(bytes) => end.is_none() && bytes.items() == content.as_bytes(),
        Err(other) => end == Some(other),
    };
    Ok(is_right)
}

#[test]
fn a_room_is_kept(rt: HostRuntime) -> Result<(), Fail> {
    let cases = [
        ("", 0, None),
        ("0123456789", 10, None),
        ("0123456789+", 10, Some(ReadEnd::Long)),
        ("+", 0, Some(ReadEnd::Long)),
    ];
    for (content, room, end) in cases {
        assert!(rt; room <= 10);
        let is_right = is_read_within(rt.alloc(), content, room, end)?;
        assert!(rt; is_right, "{content}");
    }
    Ok(())
}

#[test]
fn an_absent_name_is_a_fault(rt: HostRuntime) -> Result<(), Fail> {
    let mut files = three_files(rt.alloc(), 7, 100)?;
    let result = read_whole(rt.alloc(), &mut files, "third.lef", 1000);
    assert_eq!(rt; result.err(), Some(ReadEnd::Fault));
    let faults = ["second.lef", "third.lef", "fourth.lef"].map(|name| files.faults(name));
    assert_eq!(rt; faults, [0, 1, 1]);
    Ok(())
}

/// Whether a sink of this room, which takes 100 bytes a call and fails at the call of this number, holds so many
/// of the bytes, and all or a fault is answered.
fn is_held(
    alloc: Global,
    bytes: &[u8],
    room: usize,
    failing: u64,
    held: usize,
) -> Result<bool, NoMemory>
    requires { held ≤ length bytes.now }
{
    let mut sink = MemSink::new(alloc, 100, room, one(alloc, failing)?)?;
    let result = write_all(&mut sink, bytes);
    let is_all = held == bytes.len();
    Ok(
        result.is_ok() == is_all
            && sink.bytes() == &bytes[..held]
            && sink.faults() == if is_all { 0 } else { 1 },
    )
}

/// The room of the sink, the call that fails, and how many of 450 bytes are held then.
#[test]
fn a_sink_holds_what_was_written_before_its_fault(rt: HostRuntime) -> Result<(), Fail> {
    let mut bytes = [0u8; 450];
    for (at, byte) in bytes.iter_mut().enumerate() {
        *byte = (at % 251) as u8;
    }
    let cases = [
        (450usize, 1u64, 0usize),
        (450, 2, 100),
        (450, 3, 200),
        (450, 4, 300),
        (450, 5, 400),
        (450, 6, 450),
        (1000, 6, 450),
        (250, 9, 250),
        (0, 9, 0),
    ];
    for (room, failing, held) in cases {
        assert!(rt; held <= 450);
        let is_right = is_held(rt.alloc(), &bytes, room, failing, held)?;
        assert!(rt; is_right, "{room}, {failing}");
    }
    Ok(())
}

#[test]
fn what_is_written_is_gathered(rt: HostRuntime) -> Result<(), Fail> {
    let mut sink = Gather::new(rt.alloc());
    write_all(&mut sink, b"*SPEF ")?;
    write_all(&mut sink, b"")?;
    write_all(&mut sink, b"\"IEEE 1481-1998\"\n")?;
    assert!(rt; sink.bytes() == "*SPEF \"IEEE 1481-1998\"\n".as_bytes());
    assert_eq!(rt; sink.faults(), 0);
    Ok(())
}

/// Many writes, of which some end in the middle of a piece, are held and handed on in their order.
#[test]
fn what_is_written_in_pieces_is_handed_on(rt: HostRuntime) -> Result<(), Fail> {
    let mut pieces = Pieces::new(rt.alloc());
    let mut gathered = Gather::new(rt.alloc());
    let mut bytes = [0u8; 60_000];
    for round in 0..40u8 {
        bytes[0] = round;
        bytes[59_999] = round + 100;
        write_all(&mut pieces, &bytes)?;
        write_all(&mut gathered, &bytes)?;
    }
    assert_eq!(rt; (pieces.len(), pieces.faults()), (2_400_000, 0));
    let mut handed = Gather::new(rt.alloc());
    pieces.write_to(&mut handed)?;
    assert!(rt; handed.bytes() == gathered.bytes());
    Ok(())
}

/// The names and rooms at which no file is read, the end of each, and the count of faults after it.
#[test]
fn real_files_are_read(rt: HostRuntime) -> Result<(), Fail> {
    fs::write(&rt, "a.lef", CONTENT)?;
    fs::create_dir(&rt, "folder")?;
    let mut files = RealFiles::new(&rt);
    let bytes = read_whole(rt.alloc(), &mut files, "a.lef", 21)?;
    assert!(rt; bytes.items() == CONTENT.as_bytes());
    assert_eq!(rt; files.faults(), 0);
    let cases = [
        ("b.lef", 21, ReadEnd::Fault, 1),
        ("folder", 21, ReadEnd::Fault, 2),
        ("a.lef", 20, ReadEnd::Long, 2),
    ];
    for (name, room, end, faults) in cases {
        assert!(rt; room <= 21);
        let result = read_whole(rt.alloc(), &mut files, name, room);
        assert_eq!(rt;
            (result.err(), files.faults()),
            (Some(end), faults),
            "{name}"
        );
    }
    fs::remove_dir(&rt, "folder")?;
    fs::remove_file(&rt, "a.lef")?;
    Ok(())
}

/// A file takes all bytes. A slice takes what it has room for, and then nothing, which is a fault.
#[test]
fn real_streams_are_written(rt: HostRuntime) -> Result<(), Fail> {
    let mut sink = RealSink::new(File::create(&rt, "out.spef")?);
    write_all(&mut sink, CONTENT.as_bytes())?;
    assert_eq!(rt; sink.faults(), 0);
    assert_eq!(rt; fs::read_to_string(&rt, "out.spef")?.as_str(), CONTENT);
    fs::remove_file(&rt, "out.spef")?;

    let mut room = [0u8; 5];
    let mut sink = RealSink::new(&mut room[..]);
    assert_eq!(rt; write_all(&mut sink, CONTENT.as_bytes()), Err(WriteFault));
    assert_eq!(rt; sink.faults(), 1);
    Ok(())
}
