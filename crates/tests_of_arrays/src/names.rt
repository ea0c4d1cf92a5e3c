//! Names that own their bytes.
use dd_blocks::Name;
use std::test::Fail;

#[test]
fn names(rt: HostRuntime) -> Result<(), Fail> {
    let cases: [(&str, &[u8]); 4] = [
        ("none", b""),
        ("one byte", b"A"),
        ("a word", b"left_half2"),
        ("any bytes", &[0, 255, 10]),
    ];
    for (name, bytes) in cases {
        match Name::of(rt.alloc(), bytes) {
            Ok(found) => assert_eq!(rt; found.as_bytes(), bytes, "{name}"),
            Err(_) => assert!(rt; false, "{name}"),
        }
    }
    Ok(())
}
