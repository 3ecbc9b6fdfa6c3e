//! Items of a format: how they are written, part by part.

ghost use Rattle.std.specs.Prelude.{◌≡◌};
ghost use Rattle.rc_wire.specs.Parts.{starts as starts_of, past as past_of};
ghost use Rattle.rc_wire.specs.Items.{place_of as place_in};

use crate::key::Key;

/// By which token a part that may be missing is known to be there.
#[derive(Clone, Copy, Debug, PartialEq, Eq)]
pub enum When {
    /// It begins with MASK.
    Mask,
    /// It begins with `+`.
    Plus,
    /// It begins with SPACING or DESIGNRULEWIDTH.
    Spacing,
    /// It is any token but `)`.
    Extension,
}

/// A part of an item, which is one token but for `Maybe`.
#[derive(Clone, Copy, Debug, PartialEq, Eq)]
pub enum Part {
    /// The token by which the item is known.
    First,
    /// A name: a word that is no mark.
    Name,
    /// A second name.
    SecondName,
    /// A third name.
    ThirdName,
    /// A name of which the keyword alone counts.
    Choice,
    /// One of the eight orientations.
    Orientation,
    /// INPUT, OUTPUT, INOUT or FEEDTHRU.
    Direction,
    /// The mark `(`.
    Open,
    /// The mark `)`.
    Close,
    /// The mark `;`.
    Semicolon,
    /// The keyword DISTANCE.
    Distance,
    /// The keyword MICRONS.
    Microns,
    /// The keyword MASK.
    Mask,
    /// The keyword SYNTHESIZED.
    Synthesized,
    /// The keyword WIDTH.
    Width,
    /// The keyword SHAPE; STYLE isn't taken.
    Shape,
    /// A whole number.
    Whole,
    /// A whole number that doesn't count.
    Passed,
    /// A whole number from 0 on.
    AtLeast0,
    /// A whole number above 0.
    Above0,
    /// A whole number from 1 to 1024.
    UpTo1024,
    /// The x of a point, or `*`.
    X,
    /// The y of a point, or `*`.
    Y,
    /// How far a wire goes on behind a point: a whole number from 0 on.
    Extension,
    /// One of `/`, `.` and `|` in quotes.
    Divider,
    /// One of `[]`, `{}`, `<>` and `()` in quotes.
    BusBits,
    /// The next so many parts may be missing, together.
    Maybe(When, u8),
}

impl When {
    /// Whether a token begins it.
    pub fn starts(self, key: Key) -> bool
        ensures { result ≡ starts_of self key }
    {
        match self {
            When::Mask => matches!(key, Key::Mask),
            When::Plus => matches!(key, Key::Plus),
            When::Spacing => matches!(key, Key::Spacing | Key::DesignRuleWidth),
            When::Extension => !matches!(key, Key::Close),
        }
    }
}

/// The place in a form behind parts that may stand there and don't.
pub fn past(form: &[Part], place: usize, key: Key) -> usize
    ensures { result ≡ past_of form.now place key }
{
    match form.get(place) {
        Some(Part::Maybe(when, count)) => {
            if when.starts(key) {
                place + 1
            } else {
                place + 1 + *count as usize
            }
        }
        _ => place,
    }
}

/// The place of the part that a token stands for.
pub fn place_of(form: &[Part], place: usize, key: Key) -> usize
    ensures { result ≡ place_in form.now place key }
{
    past(form, past(form, place, key), key)
}
