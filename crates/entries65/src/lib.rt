//! What may be code of an image: which entries to give to [`reach65::reached`].
//!
//! Each module is one rule. A rule may be wrong: what comes of it is checked before it is written, and programs whose
//! truth is known (`tests/corpus`) say how often it is. A rule fails only if an allocation failed. They are asked in
//! this order:
//!
//! - `pulls`: the routines that read what stands behind their calls.
//! - `basic`: the line of BASIC that calls code.
//! - `starts`: where reading begins.
//! - `search` tries an entry, by what `sound` says reads as code. `growth` asks the rules below for others that join,
//!   until there are no more.
//! - `pairs`: the addresses that code loads in halves.
//! - `words`: where words that lead to code may stand.
//! - `readers`: the tables that instructions read, and `declared`: those that the information file has in halves.
//! - `words` again: the words that stand in rows, and those right before their code.
//! - `named`: the words behind names.
//! - `jumps`: the jumps that stand in rows.
//! - `obstacles`: what kept bytes from being code.
//! - `texts`: which bytes are a text, and rather no code.
#![tactic(auto)]

pub mod basic;
pub mod declared;
pub mod growth;
pub mod jumps;
pub mod named;
pub mod obstacles;
pub mod pairs;
pub mod pulls;
pub mod readers;
pub mod search;
pub mod sound;
pub mod starts;
pub mod texts;
pub mod words;

/// The instructions of an image, each read once.
pub type Steps<'a> = reach65::Steps<'a, 'a>;
