//! In: bytes. Out: lines, tokens, parts, numbers and names, each by its definition: `next_line`, `tokens`, `parts_at`,
//! `number`, `all_numbers`, `is_name`.
#![tactic(auto)]

mod line;
mod line_bytes;
mod names;
mod numbers;
mod text_end;
mod token_list;
mod token_parts;
mod token_spans;

pub use line::{Line, next_line};
pub use line_bytes::behind_blanks;
pub use names::{is_name, is_name_byte};
pub use numbers::{all_numbers, are_all_numerals, is_numeral, number};
pub use text_end::TextEnd;
pub use token_list::{Token, Tokens};
pub use token_parts::parts_at;
pub use token_spans::{after_word, tokens, word, words};
