//! Small texts, whose tokens and faults are worked by hand.

use super::feeding::{Cut, fed, is_cut_alike};
use rc_keys::{Code, Kind, Mode};
use std::test::Fail;

/// A token that a text must have: its kind, where it begins and ends, and its line.
type Wanted = (Kind, u32, u32, u32);

/// Whether a text's tokens are these.
fn has(cut: &Cut, wanted: &[Wanted]) -> bool {
    let tokens = cut.tokens.items();
    tokens.len() == wanted.len()
        && tokens
            .iter()
            .zip(wanted)
            .all(|(t, w)| (t.kind, t.start, t.end, t.line) == *w)
}

#[test]
fn small_texts_have_the_tokens_that_are_written_down(rt: HostRuntime) -> Result<(), Fail> {
    use Code::{E01, E02};
    use Kind::{Quoted, Word};
    use Mode::{Lef, Spef};
    let rows: [(Mode, &[u8], &[Wanted], Option<(Code, u32)>); 40] = [
        (Lef, b"", &[], None),
        (Lef, b" \t\r\n", &[], None),
        (
            Lef,
            b"a\r\n;b\r\n",
            &[(Word, 0, 1, 1), (Word, 3, 5, 2)],
            None,
        ),
        (Lef, b"a\tb", &[(Word, 0, 1, 1), (Word, 2, 3, 1)], None),
        (Lef, b"x\ny\x0cb", &[(Word, 0, 1, 1)], Some((E01, 2))),
        (Lef, b"x \x0cb", &[(Word, 0, 1, 1)], Some((E01, 1))),
        (Lef, b"\xef\xbb\xbfVERSION 5.8 ;", &[], Some((E01, 1))),
        (
            Lef,
            b"END LIBRARY",
            &[(Word, 0, 3, 1), (Word, 4, 11, 1)],
            None,
        ),
        (Lef, b"0.1;", &[(Word, 0, 4, 1)], None),
        (Lef, b"0.1 ;", &[(Word, 0, 3, 1), (Word, 4, 5, 1)], None),
        (Lef, b"(+); -", &[(Word, 0, 4, 1), (Word, 5, 6, 1)], None),
        (Lef, b"a\nb\xc8", &[(Word, 0, 1, 1)], Some((E01, 2))),
        (Lef, b"# \xc8\x00\nb", &[(Word, 5, 6, 2)], None),
        (
            Lef,
            b"\"\xc8\x0c\" c",
            &[(Quoted, 1, 3, 1), (Word, 5, 6, 1)],
            None,
        ),
        (Lef, b"a \x7f", &[(Word, 0, 1, 1)], Some((E01, 1))),
        (Lef, b"a~\n!", &[(Word, 0, 2, 1), (Word, 3, 4, 2)], None),
        (Lef, b"a \0", &[(Word, 0, 1, 1)], Some((E01, 1))),
        (Lef, b"a\n\"b\n c", &[(Word, 0, 1, 1)], Some((E02, 2))),
        (Lef, b"a\n\"", &[(Word, 0, 1, 1)], Some((E02, 2))),
        (Lef, b"\"a\\", &[], Some((E02, 1))),
        (Lef, b"\"a\\\"", &[], Some((E02, 1))),
        (
            Lef,
            b"\"a\nb\"c",
            &[(Quoted, 1, 4, 1), (Word, 5, 6, 2)],
            None,
        ),
        (
            Lef,
            b"\"a\\\"b\\\\\" ;",
            &[(Quoted, 1, 7, 1), (Word, 9, 10, 1)],
            None,
        ),
        (
            Lef,
            b"\"\"\"b\"",
            &[(Quoted, 1, 1, 1), (Quoted, 3, 4, 1)],
            None,
        ),
        (
            Lef,
            b"a#b #c \"\nd",
            &[(Word, 0, 3, 1), (Word, 9, 10, 2)],
            None,
        ),
        (Lef, b"\"a\"#c", &[(Quoted, 1, 2, 1)], None),
        (
            Lef,
            b"a\"b \"#\"",
            &[(Word, 0, 3, 1), (Quoted, 5, 6, 1)],
            None,
        ),
        (Lef, b"#\r#\nx", &[(Word, 4, 5, 2)], None),
        (Lef, b"//a /", &[(Word, 0, 3, 1), (Word, 4, 5, 1)], None),
        (
            Spef,
            b"// c\n# d",
            &[(Word, 5, 6, 2), (Word, 7, 8, 2)],
            None,
        ),
        (
            Spef,
            b"/ /a /",
            &[(Word, 0, 1, 1), (Word, 2, 4, 1), (Word, 5, 6, 1)],
            None,
        ),
        (
            Spef,
            b"a//b /*x*/",
            &[(Word, 0, 4, 1), (Word, 5, 10, 1)],
            None,
        ),
        (
            Spef,
            b"\"a // b\"// c\n*1",
            &[(Quoted, 1, 7, 1), (Word, 13, 15, 2)],
            None,
        ),
        (
            Spef,
            b"// \xc8\n*1 \xc8",
            &[(Word, 5, 7, 2)],
            Some((E01, 2)),
        ),
        (Spef, b"//", &[], None),
        (Spef, b"/\n//", &[(Word, 0, 1, 1)], None),
        (Spef, b"/\"a\" b", &[(Word, 0, 4, 1), (Word, 5, 6, 1)], None),
        (Spef, b"/\x01", &[], Some((E01, 1))),
        (Spef, b"*1:2 \"a\\\n", &[(Word, 0, 4, 1)], Some((E02, 1))),
        (Spef, b"/// c\n///", &[], None),
    ];
    for (mode, text, wanted, fault) in rows {
        if text.len() < 100 {
            assert!(rt; is_cut_alike(rt.alloc(), mode, text)?);
            let cut = fed(rt.alloc(), mode, text, 100)?;
            assert!(rt; has(&cut, wanted));
            assert_eq!(rt; cut.fault, fault);
        }
    }
    Ok(())
}
