//! What the bytes of an image are that no code has: what to tell [`reach65::ranges_of`].
//!
//! Each module is one rule, as in `entries65`. They are asked in this order:
//!
//! - `survey`: what reached code does with addresses.
//! - `skips`: the opcodes that hide an instruction.
//! - `ground`: the addresses that nothing speaks for.
//! - `tables`: the words and halves that reached code reads by an index.
//! - `links`: the words that lead on, each to the next one.
//! - `threads`: the words of threaded code.
//! - `rows`: the words in rows that are addresses of routines.
//! - `variables`: those right after the image.
//! - `items`: which instructions are listed, for the pairs of halves that are sure.
//! - `halves`: the addresses that code loads in halves.
//! - `loads`: the words that reached code loads a byte after the other.
//! - `pointers`: the words in rows that are addresses of texts.
//! - `firsts`: the first words of data that code loads in halves.
//! - `orphans`: the words to whose routines nothing else leads.
//! - `copies`: the code that is copied and runs elsewhere.
//! - `cells`: the words that are copied to pointers.
//! - `bases`: the operands that are counted from a table behind them.
//! - `labels`: the addresses that get labels.
//! - `pieces`: what is left, cut into pieces.
#![tactic(auto)]

pub mod bases;
pub mod cells;
pub mod copies;
pub mod firsts;
pub mod ground;
pub mod halves;
pub mod items;
pub mod labels;
pub mod links;
pub mod loads;
pub mod orphans;
pub mod pieces;
pub mod pointers;
pub mod rows;
pub mod skips;
pub mod survey;
pub mod tables;
pub mod threads;
pub mod variables;
