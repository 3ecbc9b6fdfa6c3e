//! Texts of each length, and lists.

use rc_fixed::{List, NoMemory, Text};
use std::alloc::Global;
use std::test::Fail;

/// So many bytes, no two of which beside each other are alike.
fn bytes(alloc: Global, count: usize) -> Result<Vec<u8>, NoMemory> {
    let mut bytes = Vec::with_capacity(alloc, count)?;
    for at in 0..count {
        bytes.push((at % 251) as u8)?;
    }
    Ok(bytes)
}

/// Texts about the longest that needs no memory of its own, long ones, and the list's calls.
#[test]
fn texts_and_lists(rt: HostRuntime) -> Result<(), Fail> {
    let lengths = [0, 1, 2, 20, 21, 22, 23, 24, 31, 32, 33, 255, 256, 4096];
    for count in lengths {
        let mut bytes = bytes(rt.alloc(), count)?;
        let text = Text::from(rt.alloc(), &bytes)?;
        assert_eq!(rt; text.bytes(), bytes.as_slice(), "{count}");
        for other in lengths {
            let other_text = Text::from_vec(rt.alloc(), self::bytes(rt.alloc(), other)?)?;
            assert_eq!(rt; text == other_text, count == other, "{count} {other}");
        }
        if let Some(last) = bytes.last_mut() {
            *last = 255;
        }
        let other = Text::from_vec(rt.alloc(), bytes)?;
        assert_eq!(rt; text == other, count == 0, "{count}");
    }
    assert!(rt; Text::new(rt.alloc()) == Text::from(rt.alloc(), b"")?);

    let mut list = List::new(rt.alloc());
    assert!(rt; list.is_empty());
    list.push(7_u64)?;
    list.push(8)?;
    assert_eq!(rt; list.len(), 2);
    assert_eq!(rt; list.swap(0, 9), 7);
    assert_eq!(rt; list.items(), [9, 8].as_slice());
    assert_eq!(rt; list.reserve(usize::MAX), Err(NoMemory));
    assert_eq!(rt; list.reserve(1000), Ok(()));
    assert_eq!(rt; list.items(), [9, 8].as_slice());

    let mut more = List::with_capacity(rt.alloc(), 3)?;
    assert!(rt; more.is_empty());
    more.push(1)?;
    more.append(&mut list)?;
    assert!(rt; list.is_empty());
    more.append(&mut list)?;
    assert_eq!(rt; more.items(), [1, 9, 8].as_slice());
    assert_eq!(rt; more.pop(), Some(8));
    let mut more = List::from_vec(more.into_vec());
    more.truncate(5);
    assert_eq!(rt; more.items(), [1, 9].as_slice());
    more.truncate(1);
    assert_eq!(rt; more.pop(), Some(1));
    assert_eq!(rt; more.pop(), None);
    more.push(2)?;
    more.clear();
    assert!(rt; more.is_empty());
    assert!(rt; List::<u64>::with_capacity(rt.alloc(), 0)?.is_empty());
    Ok(())
}
