//! Where the last additions were.

use rc_geom::Key;

/// The places of the last additions, that for a single node and that for a pair: the next ones are likely for the same two
/// keys. They are guesses: entries move when new ones are put in.
#[derive(Clone, Copy)]
pub(crate) struct Latest {
    node: usize,
    pair: usize,
}

impl Latest {
    /// No guess is better than the first place.
    pub(crate) fn start() -> Latest {
        Latest { node: 0, pair: 0 }
    }

    /// Where to look for the key first.
    pub(crate) fn guess(self, key: Key) -> usize {
        match key {
            Key::Ground { .. } => self.node,
            Key::Pair { .. } => self.pair,
        }
    }

    /// The same after an addition at a place.
    pub(crate) fn moved(self, key: Key, at: usize) -> Latest {
        match key {
            Key::Ground { .. } => Latest {
                node: at,
                pair: self.pair,
            },
            Key::Pair { .. } => Latest {
                node: self.node,
                pair: at,
            },
        }
    }
}
