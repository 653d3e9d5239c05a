//! Links under a shared key: the tags of SipHash's authors, two sides that meet in memory, and records that are cut at each byte, changed
//! at each byte, repeated, reordered or reflected.

use sealed_links::{
    Handshake, Link, MOST_BYTES, OpenFault, Opener, Sealer, Session, SharedKey, Side, TagKey,
    Verdict, tag,
};
use std::alloc::Global;
use std::process::Abort;

/// The key of the authors' vectors: the bytes 0 to 15.
const KEY: TagKey = TagKey {
    k0: 0x0706_0504_0302_0100,
    k1: 0x0F0E_0D0C_0B0A_0908,
};

/// The tags of the texts 0, 1, 2, .. of so many bytes.
const TAGS: &[(usize, &[u8])] = &[
    (
        0,
        b"\xa3\x81\x7f\x04\xba\x25\xa8\xe6\x6d\xf6\x72\x14\xc7\x55\x02\x93",
    ),
    (
        1,
        b"\xda\x87\xc1\xd8\x6b\x99\xaf\x44\x34\x76\x59\x11\x9b\x22\xfc\x45",
    ),
    (
        2,
        b"\x81\x77\x22\x8d\xa4\xa4\x5d\xc7\xfc\xa3\x8b\xde\xf6\x0a\xff\xe4",
    ),
    (
        3,
        b"\x9c\x70\xb6\x0c\x52\x67\xa9\x4e\x5f\x33\xb6\xb0\x29\x85\xed\x51",
    ),
    (
        7,
        b"\xa1\xf1\xeb\xbe\xd8\xdb\xc1\x53\xc0\xb8\x4a\xa6\x1f\xf0\x82\x39",
    ),
    (
        8,
        b"\x3b\x62\xa9\xba\x62\x58\xf5\x61\x0f\x83\xe2\x64\xf3\x14\x97\xb4",
    ),
    (
        15,
        b"\x54\x93\xe9\x99\x33\xb0\xa8\x11\x7e\x08\xec\x0f\x97\xcf\xc3\xd9",
    ),
    (
        16,
        b"\x6e\xe2\xa4\xca\x67\xb0\x54\xbb\xfd\x33\x15\xbf\x85\x23\x05\x77",
    ),
    (
        63,
        b"\x51\x50\xd1\x77\x2f\x50\x83\x4a\x50\x3e\x06\x9a\x97\x3f\xbd\x7c",
    ),
];

#[test]
fn tags_are_those_of_the_authors(rt: HostRuntime) {
    let mut text = [0; 64];
    for i in 0..64u8 {
        text[i as usize] = i;
    }
    for (long, want) in TAGS {
        assert!(&rt;
            tag(&KEY, &text[..(*long).min(64)])
                .as_slice()
                .starts_with(*want)
        );
    }
}

/// A key of 32 equal bytes.
pub(crate) fn key_of(rt: &impl Abort, alloc: Global, byte: u8) -> SharedKey {
    let bytes = Vec::from_slice(alloc, &[byte; 32]).expect(rt, "memory");
    SharedKey::new(bytes).expect(rt, "32 bytes are a key")
}

/// A verdict in words.
fn words_of(verdict: &Verdict) -> &'static str {
    match verdict {
        Verdict::Unfinished => "unfinished",
        Verdict::OtherKey => "other key",
        Verdict::OtherFormula => "other formula",
        Verdict::Accepted(_) => "accepted",
    }
}

/// A side with the key 7 and the formula 5, after it has heard a peer of the other side with this key and formula.
fn after_peer(
    rt: &impl Abort,
    alloc: Global,
    own: Side,
    peers: Side,
    key: u8,
    formula: u8,
) -> Handshake {
    let mut here = Handshake::new(own, [1; 32], [5; 32]);
    let mut there = Handshake::new(peers, [2; 32], [formula; 32]);
    there.take(&here.hello());
    for byte in there.hello() {
        here.take(&[byte]);
    }
    let mac = there
        .reply(&key_of(rt, alloc, key))
        .expect(rt, "the first message has come");
    here.take(&mac);
    here
}

/// What a coordinator with the key 7 and the formula 5 says of a worker.
fn said_of(rt: &impl Abort, alloc: Global, key: u8, formula: u8) -> &'static str {
    let here = after_peer(rt, alloc, Side::Coordinator, Side::Worker, key, formula);
    words_of(&here.verdict(alloc, &key_of(rt, alloc, 7)))
}

#[test]
fn a_peer_is_accepted_with_key_and_formula_alone(rt: HostRuntime) {
    assert_eq!(&rt; said_of(&rt, rt.alloc(), 7, 5), "accepted");
    assert_eq!(&rt; said_of(&rt, rt.alloc(), 7, 6), "other formula");
    assert_eq!(&rt; said_of(&rt, rt.alloc(), 8, 5), "other key");
    assert_eq!(&rt; said_of(&rt, rt.alloc(), 8, 6), "other key");
}

#[test]
fn a_side_that_is_sent_its_own_mac_refuses(rt: HostRuntime) {
    let here = after_peer(&rt, rt.alloc(), Side::Worker, Side::Worker, 7, 5);
    assert_eq!(&rt;
        words_of(&here.verdict(rt.alloc(), &key_of(&rt, rt.alloc(), 7))),
        "other key"
    );
}

#[test]
fn garbage_is_refused_when_its_last_byte_comes(rt: HostRuntime) {
    let key = key_of(&rt, rt.alloc(), 7);
    let mut here = Handshake::new(Side::Coordinator, [1; 32], [5; 32]);
    assert_eq!(&rt; here.take(&[9; 95]), 95);
    assert_eq!(&rt; words_of(&here.verdict(rt.alloc(), &key)), "unfinished");
    assert_eq!(&rt; here.take(&[9; 95]), 1);
    assert_eq!(&rt; words_of(&here.verdict(rt.alloc(), &key)), "other key");
}

#[test]
fn a_short_key_is_none(rt: HostRuntime) {
    let bytes = Vec::from_slice(rt.alloc(), &[7; 31]).expect(&rt, "memory");
    assert!(&rt; SharedKey::new(bytes).is_none());
}

/// Appends a record.
fn append(rt: &impl Abort, sealer: &mut Sealer, payload: &[u8], wire: &mut Vec<u8>) {
    assert!(rt; payload.len() <= MOST_BYTES);
    sealer.seal(payload, wire).expect(rt, "memory");
}

/// The records of three payloads, 31, 28 and 33 bytes.
fn three(rt: &impl Abort, alloc: Global) -> Vec<u8> {
    let mut sealer = Sealer::new(KEY);
    let mut wire = Vec::new(alloc);
    append(rt, &mut sealer, b"one", &mut wire);
    append(rt, &mut sealer, b"", &mut wire);
    append(rt, &mut sealer, b"three", &mut wire);
    wire
}

/// What is handed on of these pieces, and the last answer.
fn opened(rt: &impl Abort, alloc: Global, pieces: &[&[u8]]) -> (Vec<u8>, Result<(), OpenFault>) {
    let mut opener = Opener::new(alloc, KEY);
    let mut out = Vec::new(alloc);
    let mut last = Ok(());
    for piece in pieces {
        last = opener.open(*piece, &mut out);
    }
    assert!(rt; last != Err(OpenFault::NoMemory));
    (out, last)
}

/// Records that are cut at a place hand on the same.
fn is_the_same_cut(rt: &impl Abort, alloc: Global, wire: &[u8], place: usize) {
    let (front, back) = wire.split_at(place.min(wire.len()));
    let (out, last) = opened(rt, alloc, &[front, back]);
    assert_eq!(rt; out.as_slice(), b"onethree".as_slice());
    assert_eq!(rt; last, Ok(()));
}

#[test]
fn records_cut_at_each_byte_hand_on_the_same(rt: HostRuntime) {
    let wire = three(&rt, rt.alloc());
    assert_eq!(&rt; wire.len(), 92);
    for place in 0..93 {
        is_the_same_cut(&rt, rt.alloc(), &wire, place);
    }
}

/// Of records with a changed byte those before it are handed on, and no more.
fn ends_at_the_change(rt: &impl Abort, alloc: Global, wire: &[u8], place: usize) {
    let mut spoilt = Vec::from_slice(alloc, wire).expect(rt, "memory");
    match spoilt.get_mut(place) {
        Some(byte) => *byte ^= 1,
        None => return,
    }
    let (out, _) = opened(rt, alloc, &[&spoilt]);
    let want: &[u8] = if place < 31 { b"" } else { b"one" };
    assert_eq!(rt; out.as_slice(), want);
}

#[test]
fn records_changed_at_each_byte_end_there(rt: HostRuntime) {
    let wire = three(&rt, rt.alloc());
    for place in 0..92 {
        ends_at_the_change(&rt, rt.alloc(), &wire, place);
    }
}

#[test]
fn a_record_is_taken_once_and_in_its_turn(rt: HostRuntime) {
    let wire = three(&rt, rt.alloc());
    let (first, later) = wire.split_at(31.min(wire.len()));
    let (second, third) = later.split_at(28.min(later.len()));
    let (out, last) = opened(&rt, rt.alloc(), &[first, first]);
    assert_eq!(&rt; out.as_slice(), b"one".as_slice());
    assert_eq!(&rt; last, Err(OpenFault::Wrong));
    let (out, last) = opened(&rt, rt.alloc(), &[first, third, second]);
    assert_eq!(&rt; out.as_slice(), b"one".as_slice());
    assert_eq!(&rt; last, Err(OpenFault::Ended));
}

/// The session of a side that accepts its peer.
fn session_of(rt: &impl Abort, alloc: Global, own: Side, peers: Side) -> Session {
    let here = after_peer(rt, alloc, own, peers, 7, 5);
    match here.verdict(alloc, &key_of(rt, alloc, 7)) {
        Verdict::Accepted(session) => session,
        _ => panic!(rt; "refused"),
    }
}

#[test]
fn a_reflected_record_is_wrong(rt: HostRuntime) {
    let mut session = session_of(&rt, rt.alloc(), Side::Worker, Side::Coordinator);
    let mut wire = Vec::new(rt.alloc());
    append(&rt, &mut session.sealer, b"one", &mut wire);
    let mut out = Vec::new(rt.alloc());
    assert_eq!(&rt; session.opener.open(&wire, &mut out), Err(OpenFault::Wrong));
    assert!(&rt; out.is_empty());
}

/// The fresh value of a side.
fn fresh_of(side: Side) -> [u8; 32] {
    match side {
        Side::Coordinator => [1; 32],
        Side::Worker => [2; 32],
    }
}

/// All that a side sends up to its first record, "one", to a peer of the other side: 127 bytes. Both have this key and the formula 5.
pub(crate) fn sent_by(rt: &impl Abort, alloc: Global, own: Side, peers: Side, key: u8) -> Vec<u8> {
    let key = key_of(rt, alloc, key);
    let mut here = Handshake::new(own, fresh_of(own), [5; 32]);
    let mut there = Handshake::new(peers, fresh_of(peers), [5; 32]);
    here.take(&there.hello());
    there.take(&here.hello());
    here.take(&there.reply(&key).expect(rt, "the first message has come"));
    let mut wire = Vec::from_slice(alloc, &here.hello()).expect(rt, "memory");
    let mac = here.reply(&key).expect(rt, "the first message has come");
    wire.extend_from_slice(&mac).expect(rt, "memory");
    match here.verdict(alloc, &key) {
        Verdict::Accepted(session) => {
            let mut sealer = session.sealer;
            append(rt, &mut sealer, b"one", &mut wire);
        }
        _ => panic!(rt; "refused"),
    }
    wire
}

/// A coordinator's end hands on the first record, wherever what the worker sends is cut.
fn is_handed_on(rt: &impl Abort, alloc: Global, wire: &[u8], place: usize) {
    let key = key_of(rt, alloc, 7);
    let (front, back) = wire.split_at(place.min(wire.len()));
    let mut out = Vec::new(alloc);
    let link = Link::Meeting(Handshake::new(Side::Coordinator, [1; 32], [5; 32]));
    let link = link
        .take(alloc, &key, front, &mut out)
        .expect(rt, "no fault");
    let link = link
        .take(alloc, &key, back, &mut out)
        .expect(rt, "no fault");
    assert!(rt; matches!(&link, Link::Open(_)));
    assert_eq!(rt; out.as_slice(), b"one".as_slice());
}

#[test]
fn an_end_hands_on_the_first_record_wherever_the_bytes_are_cut(rt: HostRuntime) {
    let wire = sent_by(&rt, rt.alloc(), Side::Worker, Side::Coordinator, 7);
    for place in [0, 1, 63, 64, 65, 95, 96, 97, 108, 126, 127] {
        is_handed_on(&rt, rt.alloc(), &wire, place);
    }
}
