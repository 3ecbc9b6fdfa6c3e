//! Rows of tokens, as tests: texts, and the tokens and faults that they must have; and the keywords of each format.
#![tactic(auto)]

#[cfg(test)]
mod feeding;
#[cfg(test)]
mod keywords;
#[cfg(test)]
mod limits;
#[cfg(test)]
mod small;
#[cfg(test)]
mod texts;
#[cfg(test)]
mod whole;
