//! Lines that no script of `tests/` prints: of the most moved elements that a number can be, and the sum of no values.
use dd_io::MemSink;
use dd_text::{print_moved, print_sum};
use std::test::Fail;

#[test]
fn prints_the_ends_of_what_lines_can_say(rt: HostRuntime) -> Result<(), Fail> {
    let mut room = Vec::new(rt.alloc());
    let mut out = MemSink::new(rt.alloc(), 256, 7, Vec::new(rt.alloc()))?;
    print_moved(&mut room, u64::MAX, &mut out)?;
    print_sum(&mut room, b"A", &[], &mut out)?;
    assert_eq!(rt;
        out.bytes(),
        b"moved 18446744073709551615\nsum A 0\n".as_slice()
    );
    Ok(())
}
