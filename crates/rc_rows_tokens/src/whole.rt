//! Whole files, fed in pieces.

use super::feeding::{fed, is_cut_alike};
use super::texts::{CELLS, PARASITICS, RULES, TECHNOLOGY, TOP, TWO_WIRES};
use rc_keys::{Kind, Mode, Token};
use std::test::Fail;

/// How many of these tokens are quoted.
fn quoted(tokens: &[Token]) -> usize {
    tokens.iter().filter(|t| t.kind == Kind::Quoted).count()
}

/// The line of the last of these tokens.
fn last_line(tokens: &[Token]) -> u32 {
    let mut line = 0;
    for token in tokens {
        line = token.line;
    }
    line
}

/// The bytes of all these tokens.
fn size(tokens: &[Token]) -> u32 {
    let mut size: u32 = 0;
    for token in tokens {
        size = size.wrapping_add(token.end.wrapping_sub(token.start));
    }
    size
}

/// For each text how many tokens it has and how many of them are quoted, the line of the last, and the bytes of all.
#[test]
fn whole_files_are_cut_alike_in_any_pieces(rt: HostRuntime) -> Result<(), Fail> {
    let rows: [(Mode, &str, usize, usize, u32, u32); 6] = [
        (Mode::Lef, TECHNOLOGY, 117, 0, 17, 414),
        (Mode::Lef, CELLS, 47, 0, 6, 144),
        (Mode::Lef, RULES, 151, 0, 23, 441),
        (Mode::Lef, TWO_WIRES, 46, 0, 8, 116),
        (Mode::Lef, TOP, 153, 3, 21, 436),
        (Mode::Spef, PARASITICS, 87, 8, 38, 376),
    ];
    for (mode, text, count, quotes, last, bytes) in rows {
        let text = text.as_bytes();
        assert!(rt; is_cut_alike(rt.alloc(), mode, text)?);
        let cut = fed(rt.alloc(), mode, text, text.len() + 1)?;
        assert_eq!(rt; cut.fault, None);
        assert_eq!(rt; cut.tokens.len(), count);
        let tokens = cut.tokens.items();
        assert_eq!(rt; quoted(tokens), quotes);
        assert_eq!(rt; last_line(tokens), last);
        assert_eq!(rt; size(tokens), bytes);
    }
    Ok(())
}
