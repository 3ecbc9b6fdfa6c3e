//! Words and quoted texts about 4,096 bytes long.

use super::feeding::{fed, is_cut_alike};
use rc_fixed::NoMemory;
use rc_keys::{Code, Mode};
use std::alloc::Global;
use std::test::Fail;

/// An empty line, this front, a byte so many times, and this end.
fn long_text(
    alloc: Global,
    front: &[u8],
    byte: u8,
    count: usize,
    end: &[u8],
) -> Result<Vec<u8>, NoMemory> {
    let mut text = Vec::new(alloc);
    text.push(b'\n')?;
    text.extend_from_slice(front)?;
    for _ in 0..count {
        text.push(byte)?;
    }
    text.extend_from_slice(end)?;
    Ok(text)
}

#[test]
fn a_token_has_at_most_4096_bytes(rt: HostRuntime) -> Result<(), Fail> {
    use Code::{E01, E02};
    use Mode::{Lef, Spef};
    let rows: [(Mode, &[u8], u8, usize, &[u8], usize, Option<(Code, u32)>); 18] = [
        (Lef, b"", b'a', 4096, b"", 1, None),
        (Lef, b"", b'a', 4096, b"\nb", 2, None),
        (Lef, b"", b'a', 4097, b"", 0, Some((E02, 2))),
        (Lef, b"b ", b'a', 4097, b" c", 1, Some((E02, 2))),
        (Lef, b"", b'a', 4096, b"\"", 0, Some((E02, 2))),
        (Lef, b"", b'a', 4096, b"\x01", 0, Some((E01, 2))),
        (Lef, b"", b'a', 4096, b"\xc8", 0, Some((E01, 2))),
        (Lef, b"b ", b'a', 4097, b"\x01", 1, Some((E02, 2))),
        (Lef, b"\"", b'a', 4096, b"\"b", 2, None),
        (Lef, b"\"", 200, 4096, b"\"", 1, None),
        (Lef, b"\"", b'\n', 4097, b"\"", 0, Some((E02, 2))),
        (Lef, b"\"", b'a', 4096, b"", 0, Some((E02, 2))),
        (Lef, b"\"", b'a', 4095, b"\\\"", 0, Some((E02, 2))),
        (Lef, b"\"", b'a', 4094, b"\\\"\"", 1, None),
        (Lef, b"#", 255, 5000, b"\n\x7f", 0, Some((E01, 3))),
        (Spef, b"//", b'a', 5000, b"\n*1", 1, None),
        (Spef, b"/", b'a', 4095, b"", 1, None),
        (Spef, b"/", b'a', 4096, b"", 0, Some((E02, 2))),
    ];
    for (mode, front, byte, count, end, tokens, fault) in rows {
        let text = long_text(rt.alloc(), front, byte, count, end)?;
        if text.len() < 10000 {
            assert!(rt; is_cut_alike(rt.alloc(), mode, &text)?);
            let cut = fed(rt.alloc(), mode, &text, 4090)?;
            assert_eq!(rt; cut.tokens.len(), tokens);
            assert_eq!(rt; cut.fault, fault);
        }
    }
    Ok(())
}
