// Command lines.
use crate::tests::asserts::assert_equal_at;
use crate::tests::worked::words_of;
use da65::{Options, UsageFault, options_of};
use std::alloc::{AllocError, AllocGlobal, Global};
use std::process::Abort;

/// The words of a command line: the program's name, and then these.
fn line_of(alloc: Global, words: &[&str]) -> Result<Vec<String>, AllocError> {
    let mut all = Vec::new(alloc);
    all.push(String::from_str(alloc, "da65")?)?;
    for word in words {
        all.push(String::from_str(alloc, word)?)?;
    }
    Ok(all)
}

/// The options of these words, which follow the program's name.
pub fn options_on(rt: &(impl AllocGlobal + Abort), words: &[&str]) -> Result<Options, UsageFault> {
    options_of(
        rt.alloc(),
        &line_of(rt.alloc(), words).expect(rt, "line_of"),
    )
}

/// A command line and what its options are: the names of the information file, the output and the input,
/// the start and the CPU; the level and the layout, in the order of the help text; and whether
/// `--hexoffs`, `-h` and `-V` stand there.
const ROWS: &[(&str, &str)] = &[
    (
        "-i a.info -o a.s -S $C000 --cpu 6502 --comments 4 --mnemonic-column 1 --argument-column 2 --comment-column 120 \
        --text-column 003 --label-break 0 --hexoffs -h -V a.bin",
        r#"Some("a.info") Some("a.s") Some("a.bin") Some(49152) Some(M6502)
[Some(4), Some(1), Some(2), Some(120), Some(3), Some(0)] [true, true, true]"#,
    ),
    (
        "--info=a.info --start-addr=0xC000 --cpu=65sc02 --help -- -V",
        r#"Some("a.info") None Some("-V") Some(49152) Some(M65SC02)
[None, None, None, None, None, None] [false, true, false]"#,
    ),
    (
        "--version --cpu 65c02",
        r#"None None None None Some(M65C02)
[None, None, None, None, None, None] [false, false, true]"#,
    ),
    (
        "-S 0XfFfF a.bin",
        r#"None None Some("a.bin") Some(65535) None
[None, None, None, None, None, None] [false, false, false]"#,
    ),
    (
        "-S 0177777 a.bin",
        r#"None None Some("a.bin") Some(65535) None
[None, None, None, None, None, None] [false, false, false]"#,
    ),
    (
        "--start-addr 65535 a.bin",
        r#"None None Some("a.bin") Some(65535) None
[None, None, None, None, None, None] [false, false, false]"#,
    ),
    (
        "",
        r#"None None None None None
[None, None, None, None, None, None] [false, false, false]"#,
    ),
];

fn put_options(out: &mut String, options: &Options) -> Result<(), AllocError> {
    let info = options.info.as_deref();
    let output = options.output.as_deref();
    let input = options.input.as_deref();
    let layout = [
        options.comments,
        options.mnemonic_column,
        options.argument_column,
        options.comment_column,
        options.text_column,
        options.label_break,
    ];
    let flags = [options.hexoffs, options.help, options.version];
    write!(
        out,
        "{info:?} {output:?} {input:?} {:?} {:?}\n{layout:?} {flags:?}",
        options.start, options.cpu
    )
}

#[test]
fn each_option(rt: HostRuntime) {
    for (line, want) in ROWS {
        let words = words_of(rt.alloc(), line).expect(&rt, "words_of");
        let options = options_on(&rt, &words).expect(&rt, "options_on");
        let mut found = String::new(rt.alloc());
        put_options(&mut found, &options).expect(&rt, "put_options");
        assert_equal_at(&rt, &found.as_str(), want, line);
    }
}

/// Why a command line is refused.
const REFUSED: &[(UsageFault, &[&str])] = &[
    (UsageFault::BadNumber, &["-S", ""]),
    (UsageFault::BadNumber, &["--start-addr="]),
    (UsageFault::BadNumber, &["-S", "$"]),
    (UsageFault::BadNumber, &["-S", "+1"]),
    (UsageFault::BadNumber, &["-S", "0x1G"]),
    (UsageFault::BadNumber, &["-S", "99999999999999999999x"]),
    (UsageFault::OutOfRange, &["-S", "$10000"]),
    (UsageFault::OutOfRange, &["-S", "0200000"]),
    (UsageFault::OutOfRange, &["--cpu", ""]),
    (UsageFault::BadNumber, &["--comments", ""]),
    (UsageFault::BadNumber, &["--comments", "$1"]),
    (UsageFault::BadNumber, &["--text-column", "0x10"]),
    (UsageFault::BadNumber, &["--label-break", "1 "]),
    (UsageFault::OutOfRange, &["--comments", "5"]),
    (UsageFault::OutOfRange, &["--mnemonic-column", "0"]),
    (UsageFault::OutOfRange, &["--argument-column", "121"]),
    (UsageFault::OutOfRange, &["--comment-column", "257"]),
    (UsageFault::OutOfRange, &["--text-column", "4294967297"]),
    (UsageFault::OutOfRange, &["--label-break", "121"]),
    // in the order of the help text
    (
        UsageFault::OutOfRange,
        &["--label-break", "x", "--comments", "5"],
    ),
    (
        UsageFault::BadNumber,
        &["--text-column", "0", "--comment-column", "x"],
    ),
    (
        UsageFault::OutOfRange,
        &["--comments", "x", "--cpu", "6809"],
    ),
    (UsageFault::Words, &["--comments", "1", "--comments", "1"]),
    (UsageFault::Words, &["--comments"]),
    (UsageFault::Words, &["-i", "x", "--info", "x"]),
    (UsageFault::Words, &["-S", "1", "--start-addr", "1"]),
    (UsageFault::Words, &["--cpu", "6502", "--cpu", "6502"]),
    (UsageFault::Words, &["-h", "--help"]),
    (UsageFault::Words, &["-V", "-V"]),
    (UsageFault::Words, &["-h", "--frob"]),
    (UsageFault::Words, &["--frob", "-S", "08"]),
    (UsageFault::Words, &["--inf", "x"]),
    (UsageFault::Words, &["--help=x"]),
    (UsageFault::Words, &["-S", "-1"]),
    (UsageFault::Words, &["-o"]),
];

#[test]
fn refusals(rt: HostRuntime) {
    for (fault, words) in REFUSED {
        let refused = options_on(&rt, words).err();
        assert_equal_at(&rt, &refused, &Some(*fault), &format_args!("{words:?}"));
    }
}
