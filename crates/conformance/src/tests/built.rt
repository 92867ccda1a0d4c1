// The map of a run, built by the calls that a run makes.
use crate::heap::Refusing;
use crate::tests::asserts::{assert_equal, assert_that};
use crate::tests::command_lines::options_on;
use crate::tests::runs::Given;
use da65::{File, Told};
use info65::{IncludeSpec, Info, read_include, read_info};
use map65::{Image, Map, read_image};
use std::alloc::{AllocGlobal, Allocator, Global};
use std::process::Abort;

/// A map has two bytes for each address.
const CELLS: u64 = 131_072;

/// Building this map is one allocation.
pub fn assert_one_allocation<'a>(
    rt: &impl Abort,
    heap: &'a Refusing<Global>,
    info: &Info<&'a Refusing<Global>>,
    image: &Image<&'a Refusing<Global>>,
) {
    let allocations = heap.left();
    let before = heap.bytes();
    assert_that(rt, Map::build(heap, info, image).is_ok());
    assert_equal(rt, &allocations.wrapping_sub(heap.left()), &1);
    assert_equal(rt, &heap.bytes().saturating_sub(before), &CELLS);
}

/// The first of these files that an information file includes by its name.
fn file_of<'a, A: Allocator>(files: &[File<'a>], include: &IncludeSpec<A>) -> Option<File<'a>> {
    files
        .iter()
        .copied()
        .find(|file| file.name == include.file.as_str())
}

/// Reads an image and maps it. Returns its start and its bytes, or its fault.
fn mapped<'a>(
    rt: &(impl AllocGlobal + Abort),
    heap: &'a Refusing<Global>,
    info: &Info<&'a Refusing<Global>>,
    input: &[u8],
) -> String {
    let text = match read_image(heap, info, &mut Told::new(input)) {
        Ok(image) => {
            assert_one_allocation(rt, heap, info, &image);
            let bytes = image.bytes().escape_ascii();
            format!(in rt.alloc(); "{:04X} {bytes}", image.start())
        }
        Err(fault) => format!(in rt.alloc(); "{fault}"),
    };
    text.expect(rt, "format")
}

/// Adds the names of the include files. Returns the message of the first that is refused.
fn refused_include<'a>(
    rt: &(impl AllocGlobal + Abort),
    heap: &'a Refusing<Global>,
    info: &mut Info<&'a Refusing<Global>>,
    files: &[File<'_>],
) -> Option<String> {
    for index in 0..16 {
        if index < info.includes().len() {
            let Some(file) = file_of(files, &info.includes()[index]) else {
                let include = &info.includes()[index];
                let name = include.file.as_str();
                let text = format!(in rt.alloc(); "cannot read include {name}");
                return Some(text.expect(rt, "format"));
            };
            if let Err(fault) = read_include(heap, info, index, file.bytes) {
                let text = format!(in rt.alloc(); "include {}:{fault}", file.name);
                return Some(text.expect(rt, "format"));
            }
        }
    }
    None
}

/// Makes the calls of a run with ample memory, one after the other. Returns the message of the one that refuses, or the
/// start and the bytes of the image, of which one allocation builds the map.
pub fn parts_of(rt: &(impl AllocGlobal + Abort), given: &Given<'_>) -> String {
    let heap = Refusing::after(rt.alloc(), u64::MAX);
    let options = options_on(rt, given.words).expect(rt, "options_on");
    match read_info(&heap, &options, given.info) {
        Ok(mut info) => match refused_include(rt, &heap, &mut info, given.files) {
            Some(message) => message,
            None => mapped(rt, &heap, &info, given.input),
        },
        Err(fault) => format!(in rt.alloc(); "info:{fault}").expect(rt, "format"),
    }
}
