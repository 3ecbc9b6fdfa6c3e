//! The program: what it does with its words, its files and its streams. Begin at `run` in `top`; `stages` has the order of work.
#![tactic(auto)]

mod command;
mod extracting;
mod laws;
mod line;
mod opening;
mod reading;
mod session;
mod stages;
mod stop;
mod top;
mod verdict;
mod work;

pub use laws::{texts_are_fresh, workers_change_nothing};
pub use line::{tell_no_memory, tell_usage};
pub use rc_script::{Command, read_script};
pub use top::run;
