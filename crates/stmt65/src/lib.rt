//! Statements of 6502 assembler text in the grammar of ca65: printing, reading and assembling.
//!
//! `statement` has what a listing prints, `source_line` what a line is read as, `directive` the directives of
//! both, and `language` the two languages in which a line is read.
//!
//! `printing`: a [`Statement`] with its [`Expr`]s and [`Operands`] is what one line of a listing says.
//! [`put_line`] prints it at its [`Columns`], with the [`Remarks`] that stand beside it.
//!
//! `reading`: [`read_line`] answers what a line says, a [`SourceLine`], or that it says nothing. `lexer` cuts a line
//! into parts, `parts` is a cursor over them, and `names`, `expressions`, `operands`, `operations` and `whole_line`
//! take from it what they are named for. [`Places`] says where the parts and operands of a line stand.
//!
//! `assembling`: [`assemble`] answers the bytes that a text means from a start, or its first fault. It goes over the
//! lines once, for the names (`symbols`) and the bytes (`coding`, `emit`); what waits for a name below it (`late`) is
//! coded after that. [`assemble_source`] does it in either language, with segments that begin where a [`Layout`] says.
//! [`assemble_known`] assembles a text whose names are known before, in one pass. [`line_addresses`] returns the
//! address after each line, which says which line gave a byte, and [`assemble_explained`] what a fault is about.
//!
//! `laws`: that a line parses as a statement exactly when it is a source form of it, and what a text means.
#![tactic(auto)]

mod assembling;
mod directive;
mod language;
mod laws;
mod printing;
mod reading;
mod source_line;
mod statement;

pub use assembling::about::{About, Explained, names_in};
pub use assembling::addresses::{Assembly, assemble_lines, line_addresses};
pub use assembling::assembler::{Source, assemble, assemble_explained, assemble_source};
pub use assembling::fault::{AsmFault, AsmFaultKind};
pub use assembling::known::assemble_known;
pub use assembling::layout::Layout;
pub use assembling::line_ends::{EndsIter, LineEnds};
pub use assembling::symbols::{Definition, Symbols};
pub use directive::Directive;
pub use language::Language;
pub use laws::meaning_laws::{keeps_listings, means_first_fault, means_its_lines, takes_modes};
pub use laws::reading_laws::{reads_lines, reads_spellings, spells_one, takes_parts};
pub use printing::columns::{Column, Columns, LabelBreak, Level, LimitError, Within};
pub use printing::line::{Line, put_line};
pub use printing::remarks::Remarks;
pub use reading::lexer::Part;
pub use reading::numeral::Numeral;
pub use reading::places::{Head, Operand, PlacedPart, Places, Span};
pub use reading::whole_line::read_line;
pub use source_line::{
    AddressSize, Datum, Form, Half, Minus, Notation, Operation, SourceLine, Value,
};
pub use statement::{Expr, Operands, Statement, Target};
pub use text65::first_line;
