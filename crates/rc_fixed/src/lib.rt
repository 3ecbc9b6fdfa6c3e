//! Exact numbers, and the texts and lists that the other crates hold their values in.
#![tactic(auto)]

mod decimal;
mod fault;
mod laws;
mod list;
mod memory;
mod numeral;
mod parse;
mod scale;
mod text;
mod units;
mod word;

pub use decimal::{Fixed, digits};
pub use fault::NumFault;
pub use laws::{
    decimal_gives_back, decimal_is_plain, decimal_reads_back, decimal_tells_apart,
    decimal_writes_back,
};
pub use list::List;
pub use memory::NoMemory;
pub use numeral::is_decimal;
pub use parse::{parse_fixed, parse_len, parse_rule, parse_whole};
pub use text::Text;
pub use units::{is_units, per_unit};
