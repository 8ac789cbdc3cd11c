//! Published hashes of FNV-1a, and hashes that were computed apart from this program.

use super::*;
use crate::fnv::{START, feed_bytes};
use ooc_types::{Text, Value};
use std::test::Fail;

#[test]
fn a_hash_has_its_salt_and_radix(rt: HostRuntime) -> Result<(), Fail> {
    let hash = 0xabcd_1234_5678_9abc;
    assert_eq!(rt; salt(hash), 43_981);
    assert_eq!(rt; radix(hash, 3), 4);
    assert_eq!(rt; radix(hash, 24), 7_903_932);
    assert_eq!(rt; radix(hash, 0), 0);
    Ok(())
}

#[test]
fn keys_have_the_hash_of_their_canonical_bytes(rt: HostRuntime) -> Result<(), Fail> {
    let alloc = rt.alloc();
    assert_eq!(rt; feed_bytes(START, b"a"), 0xaf63_dc4c_8601_ec8c);
    assert_eq!(rt; feed_bytes(START, b"foobar"), 0x8594_4171_f739_67e8);
    assert_eq!(rt; hash_key(&[]), 0xefd0_1f60_ba99_2926);
    assert_eq!(rt; hash_key(&[Value::Null]), 0xb903_4ad3_7056_f5fb);
    assert_eq!(rt; hash_key(&[Value::Truth(true)]), 0x7eb5_69ab_7ec6_3d39);
    assert_eq!(rt; hash_key(&[Value::Day(-2)]), 0x6260_bc8e_a92b_94b2);
    let numbers = [
        (150, 2, 0x4177_31ed_0c8c_43c9),
        (15, 1, 0x4177_31ed_0c8c_43c9),
        (-7, 0, 0x9684_9ea6_486c_dc2e),
    ];
    for (digits, scale, hash) in numbers {
        assert_eq!(rt; hash_key(&[Value::Number { digits, scale }]), hash);
    }
    let text = Value::Text(Text::from_slice(alloc, b"ab")?);
    assert_eq!(rt; hash_key(&[text, Value::Null]), 0xfe4e_376a_5a5e_c52c);
    Ok(())
}
