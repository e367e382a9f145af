//! Leaves and immediates of each width, filled and emptied beside a plain list that the test keeps sorted itself, and
//! leaves made of sorted pairs.

ghost use Rattle.std.specs.Prelude.{◌≡◌, ◌<◌, ◌≤◌, ◌^◌};

use crate::any_leaf::{AnyLeaf, Kind};
use crate::nodes::ascends;
use crate::plain::{note, same_answer};
use judy_leaf::{LeafOf, Spare, ValueWords, Words};
use std::alloc::{AllocError, Global};
use std::process::Abort;

// Where a key is taken out.
#[derive(Clone, Copy)]
enum End {
    Front,
    Middle,
    Back,
}

impl End {
    // The place of that key among so many.
    fn place(self, len: usize) -> usize {
        match self {
            End::Front => 0,
            End::Middle => len / 2,
            End::Back => len.wrapping_sub(1),
        }
    }
}

// In which order keys are put in, from the place `first` on in steps of `by`, and where they are taken out.
#[derive(Clone, Copy)]
struct Order {
    first: u64,
    by: u64,
    end: End,
}

impl Order {
    // The key of a step: one of the 256 of a bitmap leaf, or of 32 others.
    fn key<V: Words + Drop>(self, leaf: &AnyLeaf<V>, step: u64) -> u64 {
        let place = self.first.wrapping_add(step.wrapping_mul(self.by));
        match leaf {
            AnyLeaf::Bits(_) => place % 256,
            _ => key_of(place % 32, leaf.top()),
        }
    }
}

// The 32 keys by ascending place: neighbours in pairs from 0 on, and the largest key of the width as the last.
fn key_of(place: u64, top: u64) -> u64 {
    if place == 31 {
        top
    } else {
        let pair = (place / 2 * 2).wrapping_mul(top / 32);
        pair.wrapping_add(place % 2).min(top)
    }
}

// The greatest key of a width.
pub(crate) fn top_of(width: u8) -> u64
    requires some { 1 ≤ width }
    requires most { width ≤ 8 }
    ensures { result < 256 ^ width }
{
    match width {
        1 => 0xff,
        2 => 0xffff,
        3 => 0xff_ffff,
        4 => 0xffff_ffff,
        5 => 0xff_ffff_ffff,
        6 => 0xffff_ffff_ffff,
        7 => 0xff_ffff_ffff_ffff,
        _ => u64::MAX,
    }
}

// The value that a key has, which tells its bytes from the key's.
pub(crate) fn value_of<V: Words + Drop>(key: u64) -> u64
    ensures { V.WORDS ≡ 0 → result ≡ 0 }
{
    if V::WORDS == 0 { 0 } else { u64::MAX - key / 3 }
}

// Compares a leaf with the plain list; a bitmap leaf after every 32 changes.
fn check_step<V: Words + Drop>(rt: &impl Abort, leaf: &AnyLeaf<V>, plain: &[(u64, u64)]) {
    if leaf.room() < 256 || plain.len() % 32 == 0 {
        leaf.check(rt, plain);
    }
}

// Fills a leaf to its limit, with the plain list beside it.
fn fill<V: Words + Drop>(
    rt: &impl Abort,
    alloc: Global,
    leaf: AnyLeaf<V>,
    plain: &mut Vec<(u64, u64)>,
    order: Order,
) -> Result<AnyLeaf<V>, AllocError> {
    leaf.check(rt, plain);
    let mut leaf = leaf;
    for step in 0..leaf.room() as u64 {
        let key = order.key(&leaf, step);
        leaf = leaf.put(rt, alloc, key)?;
        note(rt, plain, key, value_of::<V>(key))?;
        check_step(rt, &leaf, plain);
    }
    Ok(leaf)
}

// Takes the keys of a full leaf out, one by one.
fn drain<V: Words + Drop>(
    rt: &impl Abort,
    leaf: &mut AnyLeaf<V>,
    plain: &mut Vec<(u64, u64)>,
    end: End,
) {
    for _ in 0..leaf.room() {
        leaf.take(rt, plain, end.place(plain.len()));
        check_step(rt, leaf, plain);
    }
}

// Fills a leaf in an order, takes it apart and puts it together again, and empties it.
fn check_order<V: Words + Drop>(
    rt: &impl Abort,
    alloc: Global,
    kind: Kind,
    width: u8,
    order: Order,
) -> Result<(), AllocError>
    requires words { V.WORDS ≤ 1 }
    requires some { 1 ≤ width }
    requires most { width ≤ 8 }
{
    let mut plain = Vec::new(alloc);
    let empty = AnyLeaf::<V>::empty(alloc, kind, width)?;
    let full = fill(rt, alloc, empty, &mut plain, order)?;
    same_answer(rt, full.width() == width, true);
    let mut leaf = full.put_together(rt);
    drain(rt, &mut leaf, &mut plain, order.end);
    Ok(())
}

// Leaves of a kind and a width in ascending, descending and mixed orders, emptied from each end and from the middle.
pub(crate) fn check_kind<V: Words + Drop>(
    rt: &impl Abort,
    alloc: Global,
    kind: Kind,
    width: u8,
) -> Result<(), AllocError>
    requires words { V.WORDS ≤ 1 }
    requires some { 1 ≤ width }
    requires most { width ≤ 8 }
{
    for (first, by) in [(0, 1), (255, 255), (5, 13), (5, 37)] {
        for end in [End::Front, End::Middle, End::Back] {
            check_order::<V>(rt, alloc, kind, width, Order { first, by, end })?;
        }
    }
    Ok(())
}

// Leaves of some kinds, of each width.
fn check_widths<V: Words + Drop>(
    rt: &impl Abort,
    alloc: Global,
    kinds: [Kind; 2],
) -> Result<(), AllocError>
    requires { V.WORDS ≤ 1 }
{
    for width in 1..=8 {
        for kind in kinds {
            check_kind::<V>(rt, alloc, kind, width)?;
        }
    }
    Ok(())
}

#[test]
fn leaves_and_immediates_of_sets(rt: HostRuntime) -> Result<(), AllocError> {
    check_widths::<ValueWords<0>>(&rt, rt.alloc(), [Kind::Plain, Kind::Immediate])
}

#[test]
fn leaves_and_immediates_of_maps(rt: HostRuntime) -> Result<(), AllocError> {
    check_widths::<ValueWords<1>>(&rt, rt.alloc(), [Kind::Plain, Kind::Immediate])
}

// A leaf of sorted pairs answers for them.
fn check_sorted<V: Words + Drop>(
    rt: &impl Abort,
    alloc: Global,
    width: u8,
    pairs: &[(u64, u64)],
) -> Result<(), AllocError>
    requires some { 1 ≤ width }
    requires most { width ≤ 8 }
{
    assert!(rt; V::WORDS <= 1 && pairs.len() <= 32);
    let ascending = ascends::<V>(pairs, width);
    assert!(rt; ascending);
    let leaf = LeafOf::<V>::from_sorted(alloc, width, pairs, Spare::Ample)?;
    assert_eq!(rt; leaf.reading().width(), width);
    AnyLeaf::Leaf(leaf).check(rt, pairs);
    Ok(())
}

#[test]
fn leaves_of_no_pairs_and_one(rt: HostRuntime) -> Result<(), AllocError> {
    check_sorted::<ValueWords<1>>(&rt, rt.alloc(), 8, &[])?;
    check_sorted::<ValueWords<0>>(&rt, rt.alloc(), 1, &[(0xff, 0)])?;
    check_sorted::<ValueWords<1>>(&rt, rt.alloc(), 3, &[(0xff_ffff, 7)])?;
    check_sorted::<ValueWords<1>>(&rt, rt.alloc(), 8, &[(u64::MAX, 7)])
}

// A key of one byte, a key of three bytes with its value, and a word with its value.
type Row = (u64, u64, u64, u64, u64);

// What stands at each place of a full leaf.
const FULL: [Row; 32] = [
    (0, 0, 100, 0, 131),
    (1, 1, 101, 1, 130),
    (0xe, 0xf_fffe, 102, 0xfff_ffff_ffff_fffe, 129),
    (0xf, 0xf_ffff, 103, 0xfff_ffff_ffff_ffff, 128),
    (0x1c, 0x1f_fffc, 104, 0x1fff_ffff_ffff_fffc, 127),
    (0x1d, 0x1f_fffd, 105, 0x1fff_ffff_ffff_fffd, 126),
    (0x2a, 0x2f_fffa, 106, 0x2fff_ffff_ffff_fffa, 125),
    (0x2b, 0x2f_fffb, 107, 0x2fff_ffff_ffff_fffb, 124),
    (0x38, 0x3f_fff8, 108, 0x3fff_ffff_ffff_fff8, 123),
    (0x39, 0x3f_fff9, 109, 0x3fff_ffff_ffff_fff9, 122),
    (0x46, 0x4f_fff6, 110, 0x4fff_ffff_ffff_fff6, 121),
    (0x47, 0x4f_fff7, 111, 0x4fff_ffff_ffff_fff7, 120),
    (0x54, 0x5f_fff4, 112, 0x5fff_ffff_ffff_fff4, 119),
    (0x55, 0x5f_fff5, 113, 0x5fff_ffff_ffff_fff5, 118),
    (0x62, 0x6f_fff2, 114, 0x6fff_ffff_ffff_fff2, 117),
    (0x63, 0x6f_fff3, 115, 0x6fff_ffff_ffff_fff3, 116),
    (0x70, 0x7f_fff0, 116, 0x7fff_ffff_ffff_fff0, 115),
    (0x71, 0x7f_fff1, 117, 0x7fff_ffff_ffff_fff1, 114),
    (0x7e, 0x8f_ffee, 118, 0x8fff_ffff_ffff_ffee, 113),
    (0x7f, 0x8f_ffef, 119, 0x8fff_ffff_ffff_ffef, 112),
    (0x8c, 0x9f_ffec, 120, 0x9fff_ffff_ffff_ffec, 111),
    (0x8d, 0x9f_ffed, 121, 0x9fff_ffff_ffff_ffed, 110),
    (0x9a, 0xaf_ffea, 122, 0xafff_ffff_ffff_ffea, 109),
    (0x9b, 0xaf_ffeb, 123, 0xafff_ffff_ffff_ffeb, 108),
    (0xa8, 0xbf_ffe8, 124, 0xbfff_ffff_ffff_ffe8, 107),
    (0xa9, 0xbf_ffe9, 125, 0xbfff_ffff_ffff_ffe9, 106),
    (0xb6, 0xcf_ffe6, 126, 0xcfff_ffff_ffff_ffe6, 105),
    (0xb7, 0xcf_ffe7, 127, 0xcfff_ffff_ffff_ffe7, 104),
    (0xc4, 0xdf_ffe4, 128, 0xdfff_ffff_ffff_ffe4, 103),
    (0xc5, 0xdf_ffe5, 129, 0xdfff_ffff_ffff_ffe5, 102),
    (0xd2, 0xef_ffe2, 130, 0xefff_ffff_ffff_ffe2, 101),
    (0xff, 0xff_ffff, 131, 0xffff_ffff_ffff_ffff, 100),
];

// A full leaf of the pairs of some columns.
fn check_full<V: Words + Drop, F: Fn(Row) -> (u64, u64)>(
    rt: &impl Abort,
    alloc: Global,
    width: u8,
    columns: F,
) -> Result<(), AllocError>
    requires columns { F.IsAlwaysCallable columns }
    requires some { 1 ≤ width }
    requires most { width ≤ 8 }
{
    let mut pairs = [(0, 0); 32];
    for place in 0..32 {
        pairs[place] = columns(FULL[place]);
    }
    check_sorted::<V>(rt, alloc, width, &pairs)
}

#[test]
fn a_full_set_of_sorted_bytes(rt: HostRuntime) -> Result<(), AllocError> {
    check_full::<ValueWords<0>, _>(&rt, rt.alloc(), 1, |row| (row.0, 0))
}

#[test]
fn a_full_map_of_sorted_keys_of_three_bytes(rt: HostRuntime) -> Result<(), AllocError> {
    check_full::<ValueWords<1>, _>(&rt, rt.alloc(), 3, |row| (row.1, row.2))
}

#[test]
fn a_full_map_of_sorted_words(rt: HostRuntime) -> Result<(), AllocError> {
    check_full::<ValueWords<1>, _>(&rt, rt.alloc(), 8, |row| (row.3, row.4))
}
