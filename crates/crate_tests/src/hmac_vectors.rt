//! MACs: the test cases of RFC 4231 for HMAC-SHA-256, whole and in pieces.

use hmac::{Key, hmac, is_same};
use std::process::Abort;

/// A key, a text, and the bytes with which its MAC begins.
type Row = (&'static [u8], &'static [u8], &'static [u8]);

/// The test cases in their order. RFC 4231 gives 16 bytes of the fifth MAC, and all of the others.
const CASES: &[Row] = &[
    (
        &[0x0B; 20],
        b"Hi There",
        b"\xb0\x34\x4c\x61\xd8\xdb\x38\x53\x5c\xa8\xaf\xce\xaf\x0b\xf1\x2b\x88\x1d\xc2\x00\xc9\x83\x3d\xa7\x26\xe9\x37\x6c\x2e\x32\xcf\xf7",
    ),
    (
        b"Jefe",
        b"what do ya want for nothing?",
        b"\x5b\xdc\xc1\x46\xbf\x60\x75\x4e\x6a\x04\x24\x26\x08\x95\x75\xc7\x5a\x00\x3f\x08\x9d\x27\x39\x83\x9d\xec\x58\xb9\x64\xec\x38\x43",
    ),
    (
        &[0xAA; 20],
        &[0xDD; 50],
        b"\x77\x3e\xa9\x1e\x36\x80\x0e\x46\x85\x4d\xb8\xeb\xd0\x91\x81\xa7\x29\x59\x09\x8b\x3e\xf8\xc1\x22\xd9\x63\x55\x14\xce\xd5\x65\xfe",
    ),
    (
        b"\x01\x02\x03\x04\x05\x06\x07\x08\x09\x0a\x0b\x0c\x0d\x0e\x0f\x10\x11\x12\x13\x14\x15\x16\x17\x18\x19",
        &[0xCD; 50],
        b"\x82\x55\x8a\x38\x9a\x44\x3c\x0e\xa4\xcc\x81\x98\x99\xf2\x08\x3a\x85\xf0\xfa\xa3\xe5\x78\xf8\x07\x7a\x2e\x3f\xf4\x67\x29\x66\x5b",
    ),
    (
        &[0x0C; 20],
        b"Test With Truncation",
        b"\xa3\xb6\x16\x74\x73\x10\x0e\xe0\x6e\x0c\x79\x6c\x29\x55\x55\x2b",
    ),
    (
        &[0xAA; 131],
        b"Test Using Larger Than Block-Size Key - Hash Key First",
        b"\x60\xe4\x31\x59\x1e\xe0\xb6\x7f\x0d\x8a\x26\xaa\xcb\xf5\xb7\x7f\x8e\x0b\xc6\x21\x37\x28\xc5\x14\x05\x46\x04\x0f\x0e\xe3\x7f\x54",
    ),
    (
        &[0xAA; 131],
        b"This is a test using a larger than block-size key and a larger than block-size data. The key needs to be hashed before being used by the HMAC algorithm.",
        b"\x9b\x09\xff\xa7\x1b\x94\x2f\xcb\x27\x63\x5f\xbc\xd5\xb0\xe9\x44\xbf\xdc\x63\x64\x4f\x07\x13\x93\x8a\x7f\x51\x53\x5c\x3a\x35\xe2",
    ),
];

#[test]
fn each_case_has_the_mac_of_the_standard(rt: HostRuntime) {
    for (key, text, want) in CASES {
        assert!(&rt; hmac(*key, *text).as_slice().starts_with(*want));
    }
}

/// The MAC of a text that is fed in pieces of so many bytes.
fn in_pieces(key: &Key, text: &[u8], size: usize) -> [u8; 32] {
    let mut mac = key.begin();
    let mut rest = text;
    for _ in 0..text.len() {
        let (piece, later) = rest.split_at(size.min(rest.len()));
        mac.update(piece);
        rest = later;
    }
    mac.finish()
}

/// One key makes the MACs of a text that is cut in three ways.
fn is_the_same_in_pieces(rt: &impl Abort, bytes: &[u8], text: &[u8]) {
    let key = Key::new(bytes);
    let whole = hmac(bytes, text);
    for size in [1, 7, 64] {
        assert!(rt; is_same(&in_pieces(&key, text, size), &whole));
    }
    let mut other = whole;
    other[31] ^= 1;
    assert!(rt; !is_same(&other, &whole));
}

#[test]
fn texts_in_pieces_have_the_same_mac(rt: HostRuntime) {
    for (key, text, _) in CASES {
        is_the_same_in_pieces(&rt, *key, *text);
    }
}
