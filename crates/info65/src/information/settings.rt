//! The settings of a run.

use isa65::Cpu;
use std::alloc::{Allocator, Global};
use std::marker::Model;

/// What decides how an image is read and listed: the options of the command line, the groups GLOBAL of
/// the information file, and the defaults. A contract sees the names as lists of bytes.
#[derive(Drop)]
pub struct Settings<A: Allocator = Global> {
    /// The name of the input file.
    pub input: Option<String<A>>,
    /// The name of the output file; without one it is standard output.
    pub output: Option<String<A>>,
    /// How many bytes of the input are passed over, 0 to 16,777,216; 0 by default.
    pub offset: u32,
    /// How many bytes are taken, 1 to 65,536; without a size all to the end.
    pub size: Option<u32>,
    /// The address of the first byte; without one the image ends at $FFFF.
    pub start: Option<u16>,
    /// The CPU; the 6502 by default.
    pub cpu: Cpu,
    /// How much the listing comments, 0 to 4; 0 by default.
    pub comments: u8,
    /// The column of mnemonics, 1 to 120; 9 by default.
    pub mnemonic_column: u8,
    /// The column of operands, 1 to 120; 17 by default.
    pub argument_column: u8,
    /// The column of the comment after a statement, 1 to 120; 49 by default.
    pub comment_column: u8,
    /// The column of the bytes as characters, 1 to 120; 81 by default.
    pub text_column: u8,
    /// The length of the longest label that stands on the line of its statement, 0 to 120; 7 by default.
    pub label_break: u8,
    /// Offsets are written in hexadecimal; off by default.
    pub hexoffs: bool,
    /// An empty line follows each `jmp`; off by default.
    pub newline_after_jmp: bool,
    /// An empty line follows each `rts`; off by default.
    pub newline_after_rts: bool,
}

impl<A: Allocator> Model for Settings<A> {
    ghost use Rattle.info65.specs.Views.{AreSettingNumbers, SettingsView, name_seen};

    ghost Value = { SettingsView };

    ghost view = { λ s. record {
      input = name_seen s.input;
      output = name_seen s.output;
      offset = s.offset;
      size = s.size;
      start = s.start;
      cpu = s.cpu;
      comments = s.comments;
      mnemonic_column = s.mnemonic_column;
      argument_column = s.argument_column;
      comment_column = s.comment_column;
      text_column = s.text_column;
      label_break = s.label_break;
      hexoffs = s.hexoffs;
      newline_after_jmp = s.newline_after_jmp;
      newline_after_rts = s.newline_after_rts;
    } };

    ghost invariant = { λ s. AreSettingNumbers s.offset s.comments s.mnemonic_column s.argument_column s.comment_column s.text_column s.label_break s.size };
}
