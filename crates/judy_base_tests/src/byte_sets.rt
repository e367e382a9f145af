//! Sets of each size beside a limit of a form, against a plain list; growing and shrinking through the limits;
//! and each small tool once.

use judy_bits::{Bits256, ByteSet, Meter, SetForm, Skip, byte_of};
use judy_unmetered::UNMETERED;
use std::process::Abort;

// The numbers of members of the sets.
const COUNTS: [usize; 10] = [0, 1, 7, 8, 9, 127, 128, 129, 255, 256];

// The same numbers, and the form of each.
const FORMS: [(usize, SetForm); 10] = [
    (0, SetForm::Linear),
    (1, SetForm::Linear),
    (7, SetForm::Linear),
    (8, SetForm::Bitmap),
    (9, SetForm::Bitmap),
    (127, SetForm::Bitmap),
    (128, SetForm::Full),
    (129, SetForm::Full),
    (255, SetForm::Full),
    (256, SetForm::Full),
];

// In the place of a byte or a place, where there is none.
const NONE: usize = 256;

// So many of the 256 bytes, evenly spread: for each byte, whether it is one of them.
fn spread(count: usize) -> [bool; 256] {
    let mut plain = [false; 256];
    for byte in 0..=255u8 {
        let before = (byte as usize).wrapping_mul(count) / 256;
        let after = (byte as usize + 1).wrapping_mul(count) / 256;
        plain[byte as usize] = before != after;
    }
    plain
}

fn plain_rank(plain: &[bool; 256], byte: u8) -> usize {
    let mut below = 0usize;
    for at in 0..byte {
        below = below.wrapping_add(plain[at as usize] as usize);
    }
    below
}

fn plain_next(plain: &[bool; 256], byte: u8) -> usize {
    for at in byte..=255 {
        if plain[at as usize] {
            return at as usize;
        }
    }
    NONE
}

fn plain_prev(plain: &[bool; 256], byte: u8) -> usize {
    let mut last = NONE;
    for at in 0..=byte {
        if plain[at as usize] {
            last = at as usize;
        }
    }
    last
}

fn plain_nth(plain: &[bool; 256], place: usize) -> usize {
    let mut before = 0usize;
    for at in 0..=255u8 {
        if plain[at as usize] {
            if before == place {
                return at as usize;
            }
            before = before.wrapping_add(1);
        }
    }
    NONE
}

// Whether the byte is a member, how many are below it, its place, and the nearest members from it on and up to it.
fn plain_answers(plain: &[bool; 256], byte: u8) -> [usize; 5] {
    let is_member = plain[byte as usize];
    let rank = plain_rank(plain, byte);
    let place = if is_member { rank } else { NONE };
    [
        is_member as usize,
        rank,
        place,
        plain_next(plain, byte),
        plain_prev(plain, byte),
    ]
}

fn number(answer: Option<u8>) -> usize {
    match answer {
        Some(byte) => byte as usize,
        None => NONE,
    }
}

// A set of bytes, as the tests fill it and ask it.
trait Bytes {
    // Adds a byte.
    fn include(&mut self, byte: u8);

    // The same five as of the plain list.
    fn answers(&self, byte: u8) -> [usize; 5];

    // The member at a place.
    fn member_at(&self, place: usize) -> usize;
}

impl Bytes for Bits256 {
    fn include(&mut self, byte: u8) {
        self.add(byte);
    }

    fn answers(&self, byte: u8) -> [usize; 5] {
        let bits = self.by_ref();
        let place = bits.place(byte).unwrap_or(NONE);
        let (next, prev) = (number(bits.next_from(byte)), number(bits.prev_from(byte)));
        [bits.has(byte) as usize, bits.rank(byte), place, next, prev]
    }

    fn member_at(&self, place: usize) -> usize {
        number(self.by_ref().nth(place))
    }
}

impl Bytes for ByteSet {
    fn include(&mut self, byte: u8) {
        self.add(byte);
    }

    fn answers(&self, byte: u8) -> [usize; 5] {
        let has = self.place(byte).is_some() as usize;
        let place = self.place(byte).unwrap_or(NONE);
        let (next, prev) = (number(self.next_from(byte)), number(self.prev_from(byte)));
        [has, self.rank(byte), place, next, prev]
    }

    fn member_at(&self, place: usize) -> usize {
        number(self.nth(place))
    }
}

fn expect_answers(
    rt: &impl Abort,
    answers: [usize; 5],
    plain: &[bool; 256],
    byte: u8,
    count: usize,
) {
    assert_eq!(rt;
        answers,
        plain_answers(plain, byte),
        "byte {byte} of {count}"
    );
}

fn expect_nth(rt: &impl Abort, answer: usize, plain: &[bool; 256], place: usize, count: usize) {
    assert_eq!(rt; answer, plain_nth(plain, place), "place {place} of {count}");
}

// Adds the bytes of a plain list.
fn include_all<S: Bytes>(set: &mut S, plain: &[bool; 256]) {
    for byte in 0..=255u8 {
        if plain[byte as usize] {
            set.include(byte);
        }
    }
}

// Compares what a set answers of each byte.
fn expect_bytes<S: Bytes>(rt: &impl Abort, set: &S, plain: &[bool; 256], count: usize) {
    for byte in 0..=255u8 {
        expect_answers(rt, set.answers(byte), plain, byte, count);
    }
}

// Compares the members at all places, and that there is none behind them.
fn expect_places<S: Bytes>(rt: &impl Abort, set: &S, plain: &[bool; 256], count: usize) {
    for place in 0..257 {
        expect_nth(rt, set.member_at(place), plain, place, count);
    }
}

fn expect_len(rt: &impl Abort, len: usize, wanted: usize, count: usize) {
    assert_eq!(rt; len, wanted, "of {count}");
}

fn take(rt: &impl Abort, set: &mut Bits256, byte: u8, count: usize) {
    set.take(byte);
    assert!(rt; !set.by_ref().has(byte), "byte {byte} of {count}");
}

fn take_all(rt: &impl Abort, set: &mut Bits256, plain: &[bool; 256], count: usize) {
    for byte in 0..=255u8 {
        if plain[byte as usize] {
            take(rt, set, byte, count);
        }
    }
}

fn expect_bits_of(rt: &impl Abort, count: usize) {
    let plain = spread(count);
    let mut set = Bits256::new();
    include_all(&mut set, &plain);
    expect_len(rt, set.len(), count, count);
    expect_bytes(rt, &set, &plain, count);
    expect_places(rt, &set, &plain, count);
    take_all(rt, &mut set, &plain, count);
    expect_len(rt, set.len(), 0, count);
}

#[test]
fn bits_as_a_plain_list(rt: HostRuntime) {
    for &count in &COUNTS {
        expect_bits_of(&rt, count);
    }
}

fn expect_size(rt: &impl Abort, set: &ByteSet, count: usize, form: SetForm) {
    expect_len(rt, set.len(), count, count);
    assert_eq!(rt; set.form(), form, "of {count}");
}

#[test]
fn set_as_a_plain_list(rt: HostRuntime) {
    for &(count, form) in &FORMS {
        let plain = spread(count);
        let mut set = ByteSet::new();
        include_all(&mut set, &plain);
        expect_size(&rt, &set, count, form);
        expect_bytes(&rt, &set, &plain, count);
        expect_places(&rt, &set, &plain, count);
    }
}

// The size and the form of a set, and whether the byte is a member.
fn expect_member(rt: &impl Abort, set: &ByteSet, count: usize, byte: u8, is_member: bool) {
    expect_size(rt, set, count, form_for(count));
    assert_eq!(rt;
        set.place(byte).is_some(),
        is_member,
        "byte {byte} of {count}"
    );
}

// To take another byte, and to add a member, changes nothing.
fn grow(rt: &impl Abort, set: &mut ByteSet, count: usize, byte: u8) {
    expect_member(rt, set, count, byte, false);
    set.take(byte);
    expect_member(rt, set, count, byte, false);
    set.add(byte);
    set.add(byte);
    expect_member(rt, set, count.wrapping_add(1), byte, true);
}

fn shrink(rt: &impl Abort, set: &mut ByteSet, count: usize, byte: u8) {
    expect_member(rt, set, count.wrapping_add(1), byte, true);
    set.take(byte);
    expect_member(rt, set, count, byte, false);
}

fn grow_to_all(rt: &impl Abort, set: &mut ByteSet) {
    for count in 0..=255u8 {
        grow(rt, set, count as usize, count.wrapping_mul(37));
    }
}

fn shrink_to_none(rt: &impl Abort, set: &mut ByteSet) {
    for count in 0..=255u8 {
        shrink(rt, set, 255 - count as usize, count.wrapping_mul(91));
    }
}

// Each byte goes in and out again, in an order that jumps about; at each number of members the form is the
// one for that number, on the way up and on the way down.
#[test]
fn grows_and_shrinks(rt: HostRuntime) {
    let mut set = ByteSet::new();
    grow_to_all(&rt, &mut set);
    shrink_to_none(&rt, &mut set);
}

// The table of forms.
fn form_for(count: usize) -> SetForm {
    match count {
        0..=7 => SetForm::Linear,
        8..=127 => SetForm::Bitmap,
        _ => SetForm::Full,
    }
}

#[test]
fn bytes_of_a_word(rt: HostRuntime) {
    for i in 0..8u8 {
        assert_eq!(rt; byte_of(0x0102_0304_0506_0708, i as usize), i + 1);
    }
}

fn expect_skip(rt: &impl Abort, bytes: &[u8]) {
    assert!(rt; bytes.len() <= 7);
    assert_eq!(rt; Skip::new(bytes).bytes(), bytes);
}

#[test]
fn skips(rt: HostRuntime) {
    expect_skip(&rt, b"");
    expect_skip(&rt, b"a");
    expect_skip(&rt, b"\x00\xff");
    expect_skip(&rt, b"abcdefg");
}

#[test]
fn meter_counts_visits(rt: HostRuntime) {
    let mut meter = Meter::new(UNMETERED);
    for visits in 0..3 {
        assert_eq!(rt; meter.visits(), visits);
        meter.tick();
    }
    assert_eq!(rt; meter.visits(), 3);
}
