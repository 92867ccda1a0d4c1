use crate::tests::asserts::assert_equal_at;
use map65::Marks;
use std::process::Abort;

/// These addresses are marked, and no others.
fn assert_marked(rt: &impl Abort, marks: &Marks, want: &[u16]) {
    for address in 0..=u16::MAX {
        let wanted = want.contains(&address);
        assert_equal_at(rt, &marks.get(address), &wanted, &address);
        assert_equal_at(rt, &marks.get_at(usize::from(address)), &wanted, &address);
    }
    for address in [0x1_0000, 0x1_003F, usize::MAX] {
        assert_equal_at(rt, &marks.get_at(address), &false, &address);
    }
}

#[test]
fn addresses_that_are_marked(rt: HostRuntime) {
    let mut marks = Marks::none(rt.alloc()).expect(&rt, "none");
    assert_marked(&rt, &marks, &[]);
    for address in [0, 0x10, 0x11, 0x51, 0xFFFF] {
        marks.set(address);
    }
    marks.clear(0x11);
    marks.clear(0x12);
    let copy = marks.copy(rt.alloc()).expect(&rt, "copy");
    marks.set_span(0x3F, 0x41);
    marks.set_span(0x50, 0x50);
    marks.set_span(0xFFFE, 0x1_0010);
    assert_marked(&rt, &marks, &[0, 0x10, 0x3F, 0x40, 0x51, 0xFFFE, 0xFFFF]);
    assert_marked(&rt, &copy, &[0, 0x10, 0x51, 0xFFFF]);
}
