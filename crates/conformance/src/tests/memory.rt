// Worked rows through `run`, over memory that is counted and over memory that is refused.
ghost use Rattle.std.specs.Prelude.{IfOk};
ghost use Rattle.info65.specs.Words.{AreNames};

use crate::heap::Refusing;
use crate::tests::asserts::{
    assert_equal, assert_equal_at, assert_same, assert_that, assert_that_at,
};
use crate::tests::built::assert_one_allocation;
use crate::tests::command_lines::options_on;
use crate::tests::refusals::{MANY, Refusals};
use crate::tests::runs::Given;
use crate::tests::worked::{Row, rows_of};
use da65::{Options, RunFault, Status, Told};
use info65::{Inclusion, Info, InfoFault, NamePool, read_include, read_info};
use map65::read_image;
use std::alloc::{AllocGlobal, Global};
use std::collections::BTreeMap;
use std::process::Abort;

/// What a run gives: its result, the messages and the listing.
pub const ROWS: &str = r#"
= three_bytes: a.bin < A9 01 60
--
        lda     #$01
        rts
= target_inside_a_word: -S $1FFF a.bin < AD 03 20 34 12
RANGE { START $2002; END $2003; TYPE WORDTABLE; };
--
        lda     L2002+1
L2002:  .word   $1234
= target_inside_a_word, by a hexadecimal offset: -S $1FFF --hexoffs a.bin < AD 03 20 34 12
RANGE { START $2002; END $2003; TYPE WORDTABLE; };
--
        lda     L2002+$01
L2002:  .word   $1234
= bit_branch_by_cpu, 65C02: -S $1000 --cpu 65C02 a.bin < 0F 12 FD
-- 65C02
L1000:  bbr0    $12,L1000
= bit_branch_by_cpu, 6502: -S $1000 --cpu 6502 a.bin < 0F 12 FD
--
        .byte   $0F
        .byte   $12
        .byte   $FD
= sized_name_across_the_zero_page: a.bin < A5 FF AD 00 01
LABEL { ADDR $FE; NAME "buf"; SIZE 4; };
--
buf             := $00FE

        lda     buf+1
        lda     buf+2
= refused_information_files, ranges that overlap: a.bin < EA
RANGE { START $1000; END $10FF; TYPE CODE; };
RANGE { START $10FF; SIZE 2; TYPE SKIP; };
-- refused info:2: ranges overlap
= refused_information_files, a reserved letter: a.bin < EA
LABEL { ADDR $20; NAME "z"; };
-- refused info:1: reserved name
= refused_information_files, the name of another address: a.bin < EA
LABEL { ADDR $3000; NAME "L2000"; };
-- refused info:1: reserved name
= refused_information_files, a string to the end of the line: a.bin < EA
LABEL { ADDR $20; NAME "ab

-- refused info:1: string not closed
= include_names: -S $1000 a.bin < 20 D2 FF
ASMINC { FILE "k.inc"; IGNOREUNKNOWN on; };
k.inc:
CHROUT = $FFD2
BSOUT := $FFD2 ; same
.macro x

--
CHROUT          := $FFD2

        jsr     CHROUT
= include_names, with IGNOREUNKNOWN off: -S $1000 a.bin < 20 D2 FF
ASMINC { FILE "k.inc"; };
k.inc:
CHROUT = $FFD2
BSOUT := $FFD2 ; same
.macro x

-- refused include k.inc:3: bad include line
= an include file in two groups: -S $1000 a.bin < 20 D2 FF
ASMINC { FILE "k.inc"; }; ASMINC { FILE "k.inc"; };
k.inc:
CHROUT = $FFD2

--
CHROUT          := $FFD2

        jsr     CHROUT
= segment_entered_again: -S $1000 a.bin < EA EA EA
SEGMENT { START $1001; END $1001; NAME "DATA"; };
--
da65: warning: a segment is entered again
        nop
        .segment "DATA"
        nop
        .code
        nop
= tables and skipped bytes: -S $1000 a.bin < EA 01 02 03 FF 41 42
RANGE { START $1001; SIZE 3; TYPE WORDTABLE; }; RANGE { START $1004; SIZE 1; TYPE SKIP; };
RANGE { START $1005; END $1006; TYPE TEXTTABLE; };
--
da65: warning: skipped bytes, the listing does not assemble to the image
        nop
        .word   $0201
        .byte   $03
        .byte   "AB"
"#;

/// A run gives what the row says, with each allocation refused in turn until none is.
/// If one is refused, nothing is written.
fn assert_row(rt: &(impl AllocGlobal + Abort), row: &Row<'_>) {
    let text = row.text(rt);
    let mut refusals = Refusals::none();
    for granted in 0..MANY {
        let heap = Refusing::after(rt.alloc(), granted);
        let ran = row.given().run_in(rt, &heap);
        let failed = ran.result == Err(RunFault::Memory);
        refusals.count(rt, &heap, granted, failed);
        let found = ran.shown(rt);
        let want = if failed { "Err(Memory)\n" } else { &text };
        assert_same(rt, found.as_bytes(), want.as_bytes(), &row.name);
        if !failed {
            break;
        }
    }
    refusals.at_least(rt, 1, MANY);
}

#[test]
fn each_allocation_refused_in_turn(rt: HostRuntime) {
    for row in &rows_of(&rt, ROWS) {
        assert_row(&rt, row);
    }
}

/// Names are found by four bytes for each slot: there is a slot for two bytes of what gives the
/// names, and there are 16 to 1,048,576.
fn name_slots(bytes: usize) -> u64 {
    let slots = (bytes as u64 / 2).clamp(16, 1_048_576);
    slots.saturating_mul(4)
}

/// And they are found by four bytes for each of the 256 addresses of a page that has a name: no row has more than eight
/// such pages. The list of pages is granted less than 24 KiB.
const NAME_PAGES: u64 = 8 * 1_024 + 24_576;

/// What a name that is there before an include file counts for, beside the bytes of the file.
const BYTES_OF_A_NAME: usize = 16;

/// What else an information file of these rows is granted, at most.
const SMALL: u64 = 1_024;

/// Room for four names while they are looked up. No include file of these rows leaves more.
const LOOKED_UP: u64 = 4 * 48;

/// Room for four names where they stand in the end.
const KEPT: u64 = 4 * 32;

/// Room for the text of these names, at most.
const TEXT: u64 = 64;

/// How many bytes are granted for an image of this size, which is read 4,096 bytes
/// at a time into a vector that doubles.
fn image_bytes(count: usize) -> u64 {
    if count == 0 {
        return 0;
    }
    let count = count as u64;
    let mut room = count.clamp(8, 4_096);
    let mut granted = room;
    for _ in 0..64u8 {
        if room < count {
            room = room.saturating_mul(2);
            granted = granted.saturating_add(room);
        }
    }
    granted
}

/// Since it had granted `before` bytes, the heap granted so many, and at most `more`.
fn assert_granted(rt: &impl Abort, heap: &Refusing<Global>, before: u64, bytes: u64, more: u64) {
    let granted = heap.bytes().saturating_sub(before);
    let wanted = granted.max(bytes).min(bytes.saturating_add(more));
    assert_equal(rt, &granted, &wanted);
}

/// The names with those of the include files, each of which has these bytes. At most two files are included.
fn all_names<'h>(
    heap: &'h Refusing<Global>,
    info: &Info<&'h Refusing<Global>>,
    include: &[u8],
) -> Result<NamePool<&'h Refusing<Global>>, InfoFault>
    ensures { IfOk result (λ names. AreNames names) }
{
    let mut included = Inclusion::of(heap, info, include.len())?;
    for index in 0..2 {
        if index < included.includes().len() {
            included = included.with(index, include)?;
        }
    }
    included.names(heap)
}

/// Adds the names of the include files, each of which has these bytes: those of one by itself, and
/// of two over one index, as a run does.
fn include_all<'h>(
    heap: &'h Refusing<Global>,
    info: &mut Info<&'h Refusing<Global>>,
    include: &[u8],
) -> Result<(), InfoFault> {
    if info.includes().len() == 1 {
        return read_include(heap, info, 0, include);
    }
    let names = all_names(heap, info, include)?;
    info.set_names(names);
    Ok(())
}

/// A table of ranges or of segments has a byte for each address, from the first of them on.
fn address_table(is_empty: bool) -> u64 {
    if is_empty { 0 } else { 65_536 }
}

/// A run keeps the names of the segments that it enters. Those of these rows have room where the first one is put.
fn keep_a_name<'h>(heap: &'h Refusing<Global>, info: &Info<&'h Refusing<Global>>) {
    let mut names: BTreeMap<&[u8], (), &'h Refusing<Global>> = BTreeMap::new(heap);
    if !info.segments().is_empty() {
        let _ = names.insert(b"CODE".as_slice(), ());
    }
}

/// Calls the parts of a run one after the other, up to the first that refuses, and looks at what each is granted.
fn call_parts(rt: &impl Abort, heap: &Refusing<Global>, options: &Options, given: &Given<'_>) {
    let slots = name_slots(given.info.len());
    let Ok(mut info) = read_info(heap, options, given.info) else {
        let both = address_table(false).saturating_mul(2);
        assert_granted(rt, heap, 0, 0, both.saturating_add(SMALL));
        return;
    };
    let named = info.given_count() != 0;
    let slots = if named { slots } else { 0 };
    let pages = if named { NAME_PAGES } else { 0 };
    let marks = address_table(info.ranges().is_empty());
    let marks = marks.saturating_add(address_table(info.segments().is_empty()));
    assert_granted(
        rt,
        heap,
        0,
        marks.saturating_add(slots),
        pages.saturating_add(SMALL),
    );
    if let Some(file) = given.files.first()
        && !info.includes().is_empty()
    {
        let include = file.bytes;
        let before = heap.bytes();
        let names = info.given_count().saturating_mul(BYTES_OF_A_NAME);
        let found = name_slots(include.len().saturating_add(names)).saturating_add(LOOKED_UP);
        if include_all(heap, &mut info, include).is_err() {
            assert_granted(rt, heap, before, found, NAME_PAGES);
            return;
        }
        assert_granted(
            rt,
            heap,
            before,
            found.saturating_add(KEPT),
            TEXT + NAME_PAGES,
        );
    }
    let before = heap.bytes();
    let read = read_image(heap, &info, &mut Told::new(given.input));
    assert_granted(rt, heap, before, image_bytes(given.input.len()), 0);
    if let Ok(image) = read {
        assert_one_allocation(rt, heap, &info, &image);
        keep_a_name(heap, &info);
    }
}

/// A run allocates as often as its parts do by themselves, and as many bytes.
fn assert_as_its_parts(rt: &(impl AllocGlobal + Abort), given: &Given<'_>) {
    let options = options_on(rt, given.words).expect(rt, "options_on");
    let parts = Refusing::after(rt.alloc(), u64::MAX);
    call_parts(rt, &parts, &options, given);
    let whole = Refusing::after(rt.alloc(), u64::MAX);
    given.run_in(rt, &whole);
    let row = given.info.escape_ascii();
    assert_equal_at(rt, &whole.left(), &parts.left(), &row);
    assert_equal_at(rt, &whole.bytes(), &parts.bytes(), &row);
}

#[test]
fn run_allocates_as_its_parts(rt: HostRuntime) {
    for row in &rows_of(&rt, ROWS) {
        assert_as_its_parts(&rt, &row.given());
    }
}

/// No listing is held, of whatever size: a run allocates for what it reads and for its map.
#[test]
fn each_size_allocates_as_its_parts(rt: HostRuntime) {
    for count in [0, 1, 3, 4_096, 65_536, 65_537] {
        let image = vec![in rt.alloc(); 0u8; count].expect(&rt, "vec");
        assert_as_its_parts(&rt, &Given::named(&image));
    }
}

/// More allocations than a run without an information file makes.
const FEW: u64 = 20;

#[test]
fn each_allocation_of_a_large_image_refused_in_turn(rt: HostRuntime) {
    let image = vec![in rt.alloc(); 0u8; 65_536].expect(&rt, "vec");
    let mut refusals = Refusals::none();
    for granted in 0..FEW {
        let heap = Refusing::after(rt.alloc(), granted);
        let ran = Given::named(&image).run_in(&rt, &heap);
        let failed = ran.result == Err(RunFault::Memory);
        refusals.count(&rt, &heap, granted, failed);
        assert_that_at(&rt, failed || ran.result == Ok(Status::Done), &granted);
        assert_equal_at(&rt, &ran.listing.is_empty(), &failed, &granted);
        assert_that(&rt, ran.messages.is_empty());
    }
    refusals.at_least(&rt, 2, FEW);
}
