//! What all that read or write a text share: its lines ([`first_line`]), blanks ([`is_blank`]), the form of a name
//! ([`has_name_form`]), the words that no name may be ([`is_reserved_word`]), and the digits of numbers
//! ([`put_address`], [`put_decimal`], [`hex_digit`]).
#![tactic(auto)]

mod digits;
mod lines;
mod names;
mod numbers;

pub use digits::hex_digit;
pub use lines::first_line;
pub use names::{are_word_bytes, has_name_form, is_blank, is_reserved_word, is_word_byte};
pub use numbers::{put_address, put_decimal};
