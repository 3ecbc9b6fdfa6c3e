//! Why a text is no number.

use thiserror::Error;

/// Why a number in a text is refused.
#[derive(Clone, Copy, Debug, PartialEq, Eq, Error)]
pub enum NumFault {
    /// It has not the form of a number.
    #[error("not a number")]
    Form,
    /// It has more places than can be kept.
    #[error("a number with too many places")]
    TooFine,
    /// It is above the largest that is taken.
    #[error("a number that is too large")]
    TooLarge,
}
