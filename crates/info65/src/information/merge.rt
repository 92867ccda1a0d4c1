//! The settings that options and groups give.

ghost use Rattle.std.specs.Prelude.{◌≡◌, IfSome, Ok, option_copied, true};
ghost use Rattle.std.specs.Option.{option_or, unwrap_or};
ghost use Rattle.info65.specs.Words.{AreFormed, Gives, IsAtMost, as_number, form_of, global_seen, is_file_name, name_seen, settings_of, value_in};
ghost use Rattle.std.specs.String.{string_bytes};

use crate::fault::InfoFault;
use crate::groups::group_values::global_value;
use crate::information::options::Options;
use crate::information::settings::Settings;
use crate::syntax::assignment::{Group, as_address, as_boolean, as_cpu, as_name, as_number};
use crate::syntax::attribute::Attribute;
use isa65::Cpu;
use std::alloc::Allocator;

/// The settings that options and the groups GLOBAL give: what the command line gives wins.
#[tactic(auto, unfolding(crate::specs::Settings::settings_of, crate::specs::Attributes::form_of))]
pub fn settings_of<'a, A: Allocator + Copy, B: Allocator>(
    alloc: A,
    options: &Options<B>,
    groups: &[Group<'a, A>],
) -> Result<Settings<A>, InfoFault>
    requires { AreFormed (global_seen groups.now) }
    ensures { Gives (λ s. s) result (Ok (settings_of options.now (global_seen groups.now))) }
{
    let input_given = as_name(global_value(groups, Attribute::InputName));
    let output_given = as_name(global_value(groups, Attribute::OutputName));
    let offset_given = as_number(global_value(groups, Attribute::InputOffset));
    let hexoffs_given = as_boolean(global_value(groups, Attribute::HexOffsets));
    let newline_after_jmp = as_boolean(global_value(groups, Attribute::NewlineAfterJmp));
    let newline_after_rts = as_boolean(global_value(groups, Attribute::NewlineAfterRts));
    let size = as_number(global_value(groups, Attribute::InputSize));
    let start_given = as_address(global_value(groups, Attribute::StartAddress));
    let cpu_given = as_cpu(global_value(groups, Attribute::Cpu));
    let input = first_name(alloc, &options.input, input_given)?;
    let output = first_name(alloc, &options.output, output_given)?;
    Ok(Settings {
        input,
        output,
        offset: offset_given.unwrap_or(0),
        size,
        start: options.start.or(start_given),
        cpu: options.cpu.or(cpu_given).unwrap_or(Cpu::M6502),
        comments: number_of(options.comments, groups, Attribute::Comments, 0),
        mnemonic_column: number_of(
            options.mnemonic_column,
            groups,
            Attribute::MnemonicColumn,
            9,
        ),
        argument_column: number_of(
            options.argument_column,
            groups,
            Attribute::ArgumentColumn,
            17,
        ),
        comment_column: number_of(options.comment_column, groups, Attribute::CommentColumn, 49),
        text_column: number_of(options.text_column, groups, Attribute::TextColumn, 81),
        label_break: number_of(options.label_break, groups, Attribute::LabelBreak, 7),
        hexoffs: options.hexoffs || hexoffs_given.unwrap_or(false),
        newline_after_jmp: newline_after_jmp.unwrap_or(false),
        newline_after_rts: newline_after_rts.unwrap_or(false),
    })
}

// A number that the command line chooses, or else that of the groups GLOBAL, or else the default.
#[tactic(auto, using(crate::proofs::FormLemmas::at_most_120))]
fn number_of<A: Allocator>(
    chosen: Option<u8>,
    groups: &[Group<A>],
    attribute: Attribute,
    default: u8,
) -> u8
    requires small { IsAtMost 120 (form_of attribute) }
    requires formed { AreFormed (global_seen groups.now) }
    ensures { result ≡ unwrap_or (option_or chosen (as_number (value_in attribute (global_seen groups.now)))) default }
{
    match (chosen, as_number(global_value(groups, attribute))) {
        (Some(number), _) => number,
        (None, Some(number)) => number as u8,
        (None, None) => default,
    }
}

/// The text of a file name, which is ASCII.
pub fn text_of<A: Allocator>(alloc: A, name: &[u8]) -> Result<String<A>, InfoFault>
    requires { is_file_name name.now ≡ true }
    ensures { Gives (λ s. string_bytes s) result (Ok name.now) }
{
    let text = str::from_utf8(name).unwrap();
    Ok(String::from_str(alloc, text)?)
}

// The name of the command line, or else that of the file.
fn first_name<A: Allocator, B: Allocator>(
    alloc: A,
    chosen: &Option<String<B>>,
    given: Option<&[u8]>,
) -> Result<Option<String<A>>, InfoFault>
    requires { IfSome given (λ s. is_file_name s.now ≡ true) }
    ensures { Gives name_seen result (Ok (option_or (name_seen chosen.now) (option_copied given.entry))) }
{
    match chosen {
        Some(name) => Ok(Some(String::from_str(alloc, name.as_str())?)),
        None => match given {
            Some(name) => Ok(Some(text_of(alloc, name)?)),
            None => Ok(None),
        },
    }
}
