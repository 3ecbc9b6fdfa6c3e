//! What readers of texts share: tokens, keywords, and why an input is refused.
#![tactic(auto)]

mod code;
mod fault;
mod grammar;
mod key_table;
mod key_word;
mod keys;
mod keywords;
mod laws;
mod lexeme;
mod lexer;
mod slice;
mod table;
mod token;
mod turn;
mod words;

pub use code::{Code, Quantity};
pub use fault::{Fault, Refusal};
pub use grammar::{Grammar, read};
pub use key_table::KeyTable;
pub use key_word::KeyWord;
pub use keys::{
    DEF_KEYS, LEF_KEYS, RULE_KEYS, SCRIPT_KEYS, SPEF_KEYS, def_keys, lef_keys, rule_keys,
    script_keys, spef_keys,
};
pub use keywords::find_key;
pub use laws::{
    accepted_are_statements, closed_are_tokens, parts_make_tokens, refusals_stay,
    tokens_are_pieces, tokens_are_worked, unfinished_at_last, words_are_pieces,
};
pub use lexeme::Lexeme;
pub use lexer::Lexer;
pub use slice::read_tokens;
pub use table::{Named, Table};
pub use token::{Kind, Mode, Token};
pub use turn::{Ending, Stop, Turn};
pub use words::Words;
