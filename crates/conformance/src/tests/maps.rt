//! A map: what it says of all addresses, as text. `tests/rows/da65.txt` has the listings of small images.

use crate::tests::asserts::assert_equal;
use crate::tests::inputs::info_of;
use map65::{Image, Map, NameBuf};
use std::alloc::AllocError;

/// Each address with a role or a name: its role, the length of the item that begins there, its
/// cell without private bits, and its name.
fn put_map(out: &mut String, map: &Map<'_>) -> Result<(), AllocError> {
    let mut buffer = NameBuf::new();
    for (address, cell) in (0..=u16::MAX).zip(map.cells()) {
        let role = map.role(address);
        let kind = map.name(address, &mut buffer);
        if role.is_some() || kind.is_some() {
            let len = map.item_len(address);
            write!(out, "{address:04X} {role:?} {len} {}", *cell % 256)?;
            if let Some(kind) = kind {
                let name = buffer.as_slice().escape_ascii();
                write!(out, " {:?} {name}+{}", kind.place, kind.offset)?;
            }
            out.push_str("\n")?;
        }
    }
    Ok(())
}

/// `jmp $2000`, a skipped byte, a word with a name, a character, a byte of each other table, and a name after the
/// image. A cell has the role, 16 times the length, and 128 for a name.
const SAID: &str = "1000 Some(Code) 3 49
1001 Some(Code) 0 1
1002 Some(Code) 0 1
1003 Some(Skip) 0 8
1004 Some(WordTable) 2 163 Label word+0
1005 Some(WordTable) 0 3
1006 Some(TextTable) 1 23
1007 Some(ByteTable) 1 18
1008 Some(DbyteTable) 1 20
1009 Some(AddrTable) 1 21
100A Some(RtsTable) 1 22
100B Some(DwordTable) 1 25
2000 None 0 128 Constant L2000+0
FFFE None 0 128 Constant last+0
FFFF None 0 128 Constant last+1
";

#[test]
fn a_small_image(rt: HostRuntime) {
    let info = info_of(
        &rt,
        b"RANGE { START $1003; SIZE 1; TYPE SKIP; }; RANGE { START $1004; SIZE 2; TYPE WORDTABLE; NAME \"word\"; };
        RANGE { START $1006; SIZE 1; TYPE TEXTTABLE; }; RANGE { START $1007; SIZE 1; TYPE BYTETABLE; };
        RANGE { START $1008; SIZE 1; TYPE DBYTETABLE; }; RANGE { START $1009; SIZE 1; TYPE ADDRTABLE; };
        RANGE { START $100A; SIZE 1; TYPE RTSTABLE; }; RANGE { START $100B; SIZE 1; TYPE DWORDTABLE; }; LABEL { ADDR $FFFE; NAME \"last\"; SIZE 2; };",
    );
    let bytes = Vec::from_slice(
        rt.alloc(),
        &[0x4C, 0, 0x20, 0xFF, 0x34, 0x12, 0x41, 1, 2, 3, 4, 5],
    );
    let bytes = bytes.expect(&rt, "from_slice");
    let image = Image::from_bytes(Some(0x1000), None, bytes).expect(&rt, "from_bytes");
    let map = Map::build(rt.alloc(), &info, &image).expect(&rt, "build");
    let mut out = String::new(rt.alloc());
    put_map(&mut out, &map).expect(&rt, "put_map");
    assert_equal(&rt, &out.as_str(), &SAID);
}
