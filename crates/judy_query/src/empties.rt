//! The nearest words that are no keys of a tree.

ghost use Rattle.std.specs.Prelude.{◌≡◌, ◌+◌, ◌-◌, ◌^◌, ◌<◌, ◌≤◌, MatchOption, Some, length};
ghost use Rattle.judy_node.specs.Trees.{IsMap, IsChild};
ghost use Rattle.judy_query.specs.Maps.{map_of};
ghost use Rattle.judy_query.specs.Rooms.{IsAbsent, IsRoom, IsNearestRoom, IsFirstRoom, IsPassed, ArePassed, low_of, high_of, nearest_empty};
ghost use Rattle.judy_query.specs.Visits.{most_visits_down, most_visits_near};

use crate::rooms::{Room, is_full};
use crate::sides::Side;
use crate::sparing::{Inner, Sparing, Top};
use crate::turns::Turn;
use judy_bits::Meter;
use judy_leaf::Words;
use judy_node::{ChildOf, NodeOf, Step, ViewOf};

/// The nearest word from a key on, to one side, that is no key of the tree; `None` where all of these are keys. At most
/// 15 visits; the meter stands at most at `u64::MAX - 16`.
// Compiled where it is asked for, since the side is known there.
#[inline(always)]
pub fn nearest_empty<V: Words + Drop>(
    side: Side,
    tree: &NodeOf<V>,
    key: u64,
    meter: &mut Meter,
) -> Option<u64>
    requires { meter.old ≤ 2 ^ 64 - 17 }
    ensures word { result ≡ nearest_empty side (map_of tree.now.pairs) key }
    ensures no_fewer { meter.old ≤ meter.new }
    ensures visits { meter.new ≤ meter.old + most_visits_near }
{
    empty_beside(side, tree, key, meter)
}

// The same, by a meter that spares full children.
#[inline(always)]
pub(crate) fn empty_beside<V: Words + Drop, M: Sparing>(
    side: Side,
    tree: &NodeOf<V>,
    key: u64,
    meter: &mut M,
) -> Option<u64>
    requires { M.visits meter.old ≤ 2 ^ 64 - 17 }
    ensures word { result ≡ nearest_empty side (map_of tree.now.pairs) key }
    ensures spared { M.full meter.new ≡ M.full meter.old }
    ensures no_fewer { M.visits meter.old ≤ M.visits meter.new }
    ensures visits { M.visits meter.new ≤ M.visits meter.old + most_visits_near }
{
    tree.law();
    match seek(side, tree, key, meter) {
        Room::Nowhere => None,
        Room::At(word) => Some(word),
        Room::In(child, width, start) => Some(start + nearest_in(side, child, width, meter)),
    }
}

// Goes down the way of a key as far as nodes aren't full. Mostly the word is met where the way ends, so what is beside
// the way is looked for only where it ends in a run of keys, and beside the branch above only where the last one has no
// room. But of a third branch on, what is beside the first is looked for as it is passed, so that no list is kept.
#[inline(always)]
fn seek<'a, V: Words + Drop, M: Sparing>(
    side: Side,
    tree: &'a NodeOf<V>,
    key: u64,
    meter: &mut M,
) -> Room<'a, V>
    requires { M.visits meter.old ≤ 2 ^ 64 - 17 }
    ensures room { IsRoom side V.WORDS tree.now.pairs (low_of side key)
        (high_of side key (2 ^ 64)) result }
    ensures spared { M.full meter.new ≡ M.full meter.old }
    ensures no_fewer { M.visits meter.old ≤ M.visits meter.new }
    ensures visits { M.visits meter.new ≤ M.visits meter.old + most_visits_down }
{
    tree.law();
    let mut at = match meter.enter_root(Top(tree)) {
        ViewOf::Branch(top) => (top, key),
        view => return Room::of(side.absent(&view, 8, key)),
    };
    let mut above = None;
    let mut beside = Room::Nowhere;
    'down: loop {
        let (branch, left) = at;
        let Step::Child(byte, place, rest) = branch.step(left) else {
            return Room::At(key);
        };
        let passed = Turn {
            branch,
            place,
            base: key - left,
            edge: u64::from(byte),
        };
        let child = &branch.children[place];
        if is_full(child, branch.width) {
            return room_beside(side, passed, above, beside);
        }
        match meter.enter(Inner(child), branch.width) {
            ViewOf::Branch(below) => {
                beside = nearest_room(side, above, beside);
                above = Some(passed);
                at = (below, rest);
            }
            view => {
                let Some(word) = side.absent(&view, branch.width, rest) else {
                    return room_beside(side, passed, above, beside);
                };
                return Room::At(key - rest + word);
            }
        }
    }
}

// The nearest room past a child, and where its branch has none there, past the child that was passed above it.
// Within its caller, but a function: what the call is given and answers through memory is written there only where it
// is made.
#[inline(always)]
fn room_beside<'a, V: Words + Drop>(
    side: Side,
    passed: Turn<'a, V>,
    above: Option<Turn<'a, V>>,
    beside: Room<'a, V>,
) -> Room<'a, V>
    requires { ArePassed V.WORDS passed above }
    ensures { IsFirstRoom side V.WORDS passed.entry above.entry beside.entry result }
{
    first_room(side, passed, above, beside)
}

// The same by a call, which is rare.
#[cold]
#[inline(never)]
fn first_room<'a, V: Words + Drop>(
    side: Side,
    passed: Turn<'a, V>,
    above: Option<Turn<'a, V>>,
    beside: Room<'a, V>,
) -> Room<'a, V>
    requires { ArePassed V.WORDS passed above }
    ensures { IsFirstRoom side V.WORDS passed.entry above.entry beside.entry result }
{
    match side.room_past(passed) {
        Room::Nowhere => nearest_room(side, above, beside),
        room => room,
    }
}

// The nearest room past a child, where one was passed, or else the one that is known beside its branch.
#[inline(always)]
fn nearest_room<'a, V: Words + Drop>(
    side: Side,
    passed: Option<Turn<'a, V>>,
    beside: Room<'a, V>,
) -> Room<'a, V>
    requires { MatchOption passed Unit (IsPassed V.WORDS) }
    ensures { IsNearestRoom side V.WORDS passed.entry beside.entry result }
{
    match passed {
        Some(passed) => room_past(side, passed, beside),
        None => beside,
    }
}

// The same where a child was passed, which is rare.
#[inline(never)]
fn room_past<'a, V: Words + Drop>(
    side: Side,
    passed: Turn<'a, V>,
    beside: Room<'a, V>,
) -> Room<'a, V>
    requires { IsPassed V.WORDS passed }
    ensures { IsNearestRoom side V.WORDS (Some passed.entry) beside.entry result }
{
    side.room_past(passed).or(beside)
}

// The word that is met first in a child that isn't full, and is no key of it.
#[inline(always)]
fn nearest_in<V: Words + Drop, M: Sparing>(
    side: Side,
    child: &ChildOf<V>,
    width: u8,
    meter: &mut M,
) -> u64
    requires below { M.visits meter.old ≤ 2 ^ 64 - 9 }
    requires child { IsChild V.WORDS width child.now }
    requires narrow { width ≤ 7 }
    requires room { length child.now.pairs < 256 ^ width }
    ensures word { IsAbsent side child.now.pairs 0 (256 ^ width) (Some result) }
    ensures spared { M.full meter.new ≡ M.full meter.old }
    ensures no_fewer { M.visits meter.old ≤ M.visits meter.new }
    ensures visits { M.visits meter.new ≤ M.visits meter.old + width }
{
    let mut view = meter.enter(Inner(child), width);
    let mut wide = width;
    let mut start = 0;
    'down: while let ViewOf::Branch(branch) = view {
        match side.room_of(branch, wide, start) {
            Room::At(word) => return word,
            Room::In(inner, width, from) => {
                wide = width;
                start = from;
                view = meter.enter(Inner(inner), width);
            }
            Room::Nowhere => unreachable!(),
        }
    }
    match side.absent(&view, wide, side.end(wide)) {
        Some(word) => start + word,
        None => unreachable!(),
    }
}
