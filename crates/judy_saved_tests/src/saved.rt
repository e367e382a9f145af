//! Rows of one array saved to bytes and loaded of them: the dump of the store that has it alone.

use judy_hs::{Eights, JudyHs};
use judy_pipe::{MemSource, SourceTrouble};
use judy_saved::{
    SaveError, dump_byte_strings, dump_map, dump_set, dump_strings, load_byte_strings, load_map,
    load_set, load_strings,
};
use judy_shelf::{Kind, LoadFault, MAX_LIMIT, Name, OneFault, Version, load};
use judy_sl::JudySl;
use judy_word::{Judy1, JudyL};
use std::alloc::Global;
use std::process::Abort;

// The set of 1 under the name `a`, the map from 5 to 9 under `l`, two strings that share a byte under `s`, in the
// second format, and two byte strings under `h`, with the greatest limit.
const SET: &[u8; 35] =
    b"JDY1\x00\x00\x00\x01\x01a\x01\x00\x00\x00\x00\xff\xff\xff\xff\x00\x00\x00\x00\x00\x00\x00\x01\x00\x00\x00\x00\x00\x00\x00\x01";

const MAP: &[u8; 43] =
    b"JDY1\x00\x00\x00\x01\x01l\x02\x00\x00\x00\x00\xff\xff\xff\xff\x00\x00\x00\x00\x00\x00\x00\x01\x00\x00\x00\x00\x00\x00\x00\x05\x00\x00\x00\x00\x00\x00\x00\x09";

const STRINGS: &[u8; 53] =
    b"JDY2\x00\x00\x00\x01\x01s\x03\x00\x00\x00\x00\xff\xff\xff\xff\x00\x00\x00\x00\x00\x00\x00\x02\x00\x00\x00\x01a\x00\x00\x00\x00\x00\x00\x00\x02\x00\x01\x00\x01b\x00\x00\x00\x00\x00\x00\x00\x03";

const BYTES: &[u8; 48] =
    b"JDY1\x00\x00\x00\x01\x01h\x04\x00\x00\x00\x00\xff\xff\xff\xff\x00\x00\x00\x00\x00\x00\x00\x02\x00\x00\x00\x00\x00\x00\x00\x00\x00\x09\x00\x01\x00\x00\x00\x00\x00\x00\x00\x00\x07";

// The first with a byte behind it.
const SET_AND_NINE: &[u8; 36] =
    b"JDY1\x00\x00\x00\x01\x01a\x01\x00\x00\x00\x00\xff\xff\xff\xff\x00\x00\x00\x00\x00\x00\x00\x01\x00\x00\x00\x00\x00\x00\x00\x01\x09";

// A store without arrays, and one that says two.
const NO_ARRAY: &[u8; 8] = b"JDY1\x00\x00\x00\x00";

const TWO_ARRAYS: &[u8; 8] = b"JDY1\x00\x00\x00\x02";

// More bytes than any dump here has.
const MOST: usize = 64;

// The name of these bytes.
fn named(rt: &impl Abort, bytes: &[u8]) -> Name {
    Name::new(bytes).expect(rt, "a name")
}

// The fault of bytes that are to be the dump of an array of a kind.
fn one_fault(alloc: Global, kind: Kind, bytes: &[u8]) -> Option<OneFault> {
    match kind {
        Kind::Judy1 => load_set(alloc, bytes, u64::MAX).err(),
        Kind::JudyL => load_map(alloc, bytes, u64::MAX).err(),
        Kind::JudySl => load_strings(alloc, bytes, MAX_LIMIT).err(),
        Kind::JudyHs => load_byte_strings(alloc, bytes, MAX_LIMIT, Eights).err(),
    }
}

// The fault is the one that a load of the store of these bytes has, but where they tell another array or number of
// arrays.
fn check_alike(rt: &impl Abort, alloc: Global, kind: Kind, bytes: &[u8]) {
    let mut source = MemSource::new(bytes, 64, SourceTrouble::Never);
    let whole = load(alloc, &mut source).err();
    match one_fault(alloc, kind, bytes) {
        None => assert!(rt; whole.is_none()),
        Some(OneFault::Load(fault)) => assert!(rt; whole == Some(fault)),
        Some(OneFault::NotOne) => {}
        Some(OneFault::OtherKind) => {}
    }
}

// Each front of a dump is cut off, and each change of a byte has the fault that the store's load has.
fn check_spoiled(rt: &impl Abort, alloc: Global, kind: Kind, bytes: &[u8]) {
    assert!(rt; bytes.len() <= MOST);
    let cut = Some(OneFault::Load(LoadFault::Truncated));
    for len in 0..bytes.len() {
        assert!(rt; one_fault(alloc, kind, &bytes[..len]) == cut);
    }
    assert!(rt; one_fault(alloc, kind, bytes).is_none());
    let mut changed = [0; MOST];
    changed[..bytes.len()].copy_from_slice(bytes);
    for at in 0..bytes.len() {
        for byte in 0..=255 {
            changed[at] = byte;
            check_alike(rt, alloc, kind, &changed[..bytes.len()]);
        }
        changed[at] = bytes[at];
    }
}

#[test]
fn spoiled_words(rt: HostRuntime) {
    check_spoiled(&rt, rt.alloc(), Kind::Judy1, SET);
    check_spoiled(&rt, rt.alloc(), Kind::JudyL, MAP);
}

#[test]
fn spoiled_strings(rt: HostRuntime) {
    check_spoiled(&rt, rt.alloc(), Kind::JudySl, STRINGS);
    check_spoiled(&rt, rt.alloc(), Kind::JudyHs, BYTES);
}

#[test]
fn other_arrays(rt: HostRuntime) {
    let kind = Kind::Judy1;
    assert!(&rt; one_fault(rt.alloc(), kind, MAP) == Some(OneFault::OtherKind));
    assert!(&rt; one_fault(rt.alloc(), kind, NO_ARRAY) == Some(OneFault::NotOne));
    assert!(&rt; one_fault(rt.alloc(), kind, TWO_ARRAYS) == Some(OneFault::NotOne));
}

// What doesn't fit isn't written, and its size is told; what fits is, and what stands behind it stays.
#[test]
fn saved_set(rt: HostRuntime) {
    let mut set = Judy1::new(rt.alloc(), 7);
    assert!(&rt; set.set(1).is_ok() && set.len() == 1);
    let name = named(&rt, b"a");
    let mut small = [9; 34];
    assert!(&rt; dump_set(Version::First, &name, &set, &mut small) == Ok(35));
    assert!(&rt; small == [9; 34]);
    assert!(&rt; dump_set(Version::First, &name, &set, &mut []) == Ok(35));
    let mut room = [9; 36];
    assert!(&rt; dump_set(Version::First, &name, &set, &mut room) == Ok(35));
    assert!(&rt; room == *SET_AND_NINE);
}

#[test]
fn saved_map(rt: HostRuntime) {
    let mut map = JudyL::new(rt.alloc(), 7);
    assert!(&rt; map.put(5, 9).is_ok() && map.len() == 1);
    let mut room = [0; 43];
    assert!(&rt; dump_map(Version::First, &named(&rt, b"l"), &map, &mut room) == Ok(43));
    assert!(&rt; room == *MAP);
}

#[test]
fn saved_strings(rt: HostRuntime) {
    let loaded = load_strings(rt.alloc(), STRINGS, 7);
    let Ok(strings) = loaded else {
        panic!(&rt; "a dump");
    };
    assert!(&rt; strings.limit() == 7 && strings.get(b"ab") == Some(3));
    let name = named(&rt, b"s");
    assert!(&rt; dump_strings(Version::First, &name, &strings, &mut []) == Ok(50));
    let mut room = [0; 53];
    assert!(&rt; dump_strings(Version::Second, &name, &strings, &mut room[..52]) == Ok(53));
    assert!(&rt; room == [0; 53]);
    assert!(&rt; dump_strings(Version::Second, &name, &strings, &mut room) == Ok(53));
    assert!(&rt; room == *STRINGS);
}

// A string of 1,025 bytes can't be dumped; without it the others are, one of 1,024 bytes too.
#[test]
fn saved_long_strings(rt: HostRuntime) {
    let loaded = load_strings(rt.alloc(), STRINGS, 7);
    let Ok(strings) = loaded else {
        panic!(&rt; "a dump");
    };
    let mut strings = strings.with_any_length();
    assert!(&rt; strings.ins(&[7; 1025]).is_ok());
    let name = named(&rt, b"s");
    let mut room = [9; 53];
    let long = dump_strings(Version::Second, &name, &strings, &mut room);
    assert!(&rt; long == Err(SaveError::LongKey) && room == [9; 53]);
    assert!(&rt; strings.del(&[7; 1025]) && strings.longest() == 1025);
    assert!(&rt; dump_strings(Version::Second, &name, &strings, &mut room) == Ok(53));
    assert!(&rt; room == *STRINGS);
    assert!(&rt; strings.ins(&[7; 1024]).is_ok());
    assert!(&rt; dump_strings(Version::Second, &name, &strings, &mut room) == Ok(1089));
}

#[test]
fn saved_byte_strings(rt: HostRuntime) {
    let loaded = load_byte_strings(rt.alloc(), BYTES, 7, Eights);
    let Ok(mut bytes) = loaded else {
        panic!(&rt; "a dump");
    };
    let name = named(&rt, b"h");
    let mut room = [0; 48];
    assert!(&rt; dump_byte_strings(Version::First, &name, &bytes, &mut room) == Ok(48));
    assert!(&rt; room == *BYTES);
    assert!(&rt; bytes.ins(&[7; 1025]).is_ok());
    let long = dump_byte_strings(Version::First, &name, &bytes, &mut room);
    assert!(&rt; long == Err(SaveError::LongKey) && room == *BYTES);
}
