// The names of the files that a run needs.
use crate::tests::asserts::assert_equal_at;
use crate::tests::command_lines::options_on;
use da65::{Needs, needs};
use std::alloc::{AllocError, AllocGlobal};
use std::process::Abort;

/// The names of the input, the output and the include files.
fn put_needs(out: &mut String, found: &Needs) -> Result<(), AllocError> {
    if let Some(input) = found.input.as_deref() {
        write!(out, " input {input}")?;
    }
    if let Some(output) = found.output.as_deref() {
        write!(out, " output {output}")?;
    }
    for include in &found.includes {
        let name = include.as_str();
        write!(out, " include {name}")?;
    }
    Ok(())
}

/// The names of the files that a run needs, as text.
pub fn needed(rt: &(impl AllocGlobal + Abort), words: &[&str], info: &str) -> String {
    let options = options_on(rt, words).expect(rt, "options_on");
    let found = needs(rt.alloc(), &options, info.as_bytes()).expect(rt, "needs");
    let mut out = String::new(rt.alloc());
    put_needs(&mut out, &found).expect(rt, "put_needs");
    out
}

const BOTH: &str = "GLOBAL { INPUTNAME \"a.bin\"; OUTPUTNAME \"b.s\"; };";

const INCLUDING: &str =
    "ASMINC { FILE \"b.inc\"; }; GLOBAL { INPUTNAME \"a.bin\"; }; ASMINC { FILE \"a.inc\"; }; \
    ASMINC { FILE \"b.inc\"; IGNOREUNKNOWN on; };";

/// The words of a command line, an information file, and the names that are needed.
const ROWS: &[(&[&str], &str, &str)] = &[
    (&[], "", ""),
    (&["-o", "d.s", "c.bin"], "", " input c.bin output d.s"),
    (
        &["c.bin"],
        "GLOBAL { OUTPUTNAME \"b.s\"; };",
        " input c.bin output b.s",
    ),
    // nothing is needed where the information file is refused
    (&["-o", "d.s", "c.bin"], "FOO { };", ""),
    (&["c.bin"], BOTH, ""),
    // include files, in the order of their groups
    (
        &[],
        INCLUDING,
        " input a.bin include b.inc include a.inc include b.inc",
    ),
    (&[], "ASMINC { FILE \"a.inc\"; }; ASMINC { };", ""),
];

#[test]
fn names_of_files(rt: HostRuntime) {
    for (words, info, want) in ROWS {
        let found = needed(&rt, words, info);
        assert_equal_at(&rt, &found.as_str(), want, info);
    }
}
