use dd_store::{decode, encode};
use std::test::Fail;

// Each row: values, and their bytes.
#[test]
fn a_value_has_eight_bytes_the_highest_first(rt: HostRuntime) -> Result<(), Fail> {
    let cases: [(&[i64], &[u8]); 5] = [
        (&[], b""),
        (
            &[1, -1],
            b"\0\0\0\0\0\0\0\x01\xff\xff\xff\xff\xff\xff\xff\xff",
        ),
        (&[0x0102030405060708], b"\x01\x02\x03\x04\x05\x06\x07\x08"),
        (
            &[i64::MIN, i64::MAX],
            b"\x80\0\0\0\0\0\0\0\x7f\xff\xff\xff\xff\xff\xff\xff",
        ),
        (&[-256], b"\xff\xff\xff\xff\xff\xff\xff\0"),
    ];
    for (values, bytes) in cases {
        let mut got = Vec::new(rt.alloc());
        encode(values, &mut got)?;
        assert_eq!(rt; got.as_slice(), bytes);
        let mut back = vec![in rt.alloc(); 7; values.len()]?;
        assert!(rt; back.len() < 9 && bytes.len() == 8 * back.len());
        decode(bytes, &mut back);
        assert_eq!(rt; back.as_slice(), values);
    }
    Ok(())
}
