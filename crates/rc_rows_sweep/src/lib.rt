//! Rows of columns and of the sums of windows, as tests: tiles, and what a column shows of them and a window adds up to.
#![tactic(auto)]

mod rates;
mod scene;

pub use rates::RowRates;
pub use scene::{Scene, alike, by_columns, is_window, merged, plain, plain_both, swept};

#[cfg(test)]
mod columns;
#[cfg(test)]
mod lists;
#[cfg(test)]
mod tiles;
#[cfg(test)]
mod windows;
