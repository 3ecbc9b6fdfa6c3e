//! Rows of the exact numbers, the texts and the lists, as tests.
#![tactic(auto)]

#[cfg(test)]
mod amounts;
#[cfg(test)]
mod kept;
#[cfg(test)]
mod lengths;
