//! The options of a command line.

use isa65::Cpu;
use std::alloc::{Allocator, Global};
use std::marker::Model;

/// What the words of a command line ask for. A contract sees the names as lists of bytes.
#[derive(Drop)]
pub struct Options<A: Allocator = Global> {
    /// The name of the information file.
    pub info: Option<String<A>>,
    /// The name of the input file.
    pub input: Option<String<A>>,
    /// The name of the output file.
    pub output: Option<String<A>>,
    /// The address of the image's first byte.
    pub start: Option<u16>,
    /// The CPU whose opcodes the image has.
    pub cpu: Option<Cpu>,
    /// How much the listing comments, 0 to 4.
    pub comments: Option<u8>,
    /// The column of mnemonics, 1 to 120.
    pub mnemonic_column: Option<u8>,
    /// The column of operands, 1 to 120.
    pub argument_column: Option<u8>,
    /// The column of the comment after a statement, 1 to 120.
    pub comment_column: Option<u8>,
    /// The column of the bytes as characters, 1 to 120.
    pub text_column: Option<u8>,
    /// The length of the longest label that stands on the line of its statement, 0 to 120.
    pub label_break: Option<u8>,
    /// Offsets are written in hexadecimal.
    pub hexoffs: bool,
    /// The help text is asked for.
    pub help: bool,
    /// The version is asked for.
    pub version: bool,
}

impl<A: Allocator> Model for Options<A> {
    ghost use Rattle.info65.specs.Views.{AreOptionNumbers, OptionsView, name_seen};

    ghost Value = { OptionsView };

    ghost view = { λ o. record {
      info = name_seen o.info;
      input = name_seen o.input;
      output = name_seen o.output;
      start = o.start;
      cpu = o.cpu;
      comments = o.comments;
      mnemonic_column = o.mnemonic_column;
      argument_column = o.argument_column;
      comment_column = o.comment_column;
      text_column = o.text_column;
      label_break = o.label_break;
      hexoffs = o.hexoffs;
      help = o.help;
      version = o.version;
    } };

    ghost invariant = { λ o. AreOptionNumbers o.comments o.mnemonic_column o.argument_column o.comment_column o.text_column o.label_break };
}

impl<A: Allocator> Options<A> {
    ghost use Rattle.std.specs.Prelude.{◌≡◌};
    ghost use Rattle.info65.specs.Views.{AreOptions, no_options};

    /// No option at all.
    pub fn none() -> Self
        /// No option is set.
        ensures { result ≡ no_options }
    {
        Options {
            info: None,
            input: None,
            output: None,
            start: None,
            cpu: None,
            comments: None,
            mnemonic_column: None,
            argument_column: None,
            comment_column: None,
            text_column: None,
            label_break: None,
            hexoffs: false,
            help: false,
            version: false,
        }
    }

    /// Does nothing: its clause says that the numbers are in their limits.
    pub fn limits(&self)
        /// The numbers of options are in their limits.
        ensures { AreOptions self.now }
    {
        let _ = &self.comments;
    }
}
