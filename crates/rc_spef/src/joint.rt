//! Couplings as they are looked up.

ghost use Rattle.std.specs.Prelude.{◌≡◌, option_map};
ghost use Rattle.rc_spef.specs.Balance.{coupling_of};
ghost use Rattle.rc_spef.specs.Means.{sub_seen, end_seen};

use crate::name_map::{Behind, Reference};
use crate::value::{Cap, End, Sub};

/// Two ends in their order.
#[derive(Clone, Copy, Debug, PartialEq, Eq, Hash)]
pub struct Joint<'a> {
    pub from: Reference<'a>,
    pub to: Reference<'a>,
}

/// A coupling: its ends, and its value.
#[derive(Clone, Copy, Debug)]
pub struct Entry<'a> {
    pub joint: Joint<'a>,
    pub value: u128,
}

impl<'a> Joint<'a> {
    /// The same ends the other way round.
    pub fn turned(self) -> Joint<'a>
        ensures from { result.from ≡ self.entry.to }
        ensures to { result.to ≡ self.entry.from }
    {
        Joint {
            from: self.to,
            to: self.from,
        }
    }
}

/// What stands behind a name, as it lies in the value.
fn behind(sub: &Sub) -> Behind<'_>
    ensures { sub_seen result ≡ sub.now }
{
    match sub {
        Sub::Bare => Behind::Bare,
        Sub::Num(number) => Behind::Num(*number),
        Sub::Word(word) => Behind::Word(word.bytes()),
    }
}

impl End {
    /// The end, as it lies in the value.
    fn reference(&self) -> Reference<'_>
        ensures { end_seen result ≡ self.now }
    {
        Reference {
            name: self.name,
            sub: behind(&self.sub),
        }
    }
}

impl Cap {
    ghost use Rattle.rc_spef.specs.Joints.{entry_seen};

    /// The coupling that it is, where it has a second end.
    pub fn coupling(&self) -> Option<Entry<'_>>
        ensures { option_map entry_seen result ≡ coupling_of self.now }
    {
        match &self.b {
            None => None,
            Some(to) => Some(Entry {
                joint: Joint {
                    from: self.a.reference(),
                    to: to.reference(),
                },
                value: self.value.0,
            }),
        }
    }
}
