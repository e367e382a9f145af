//! Where the search for a neighbour turns off the way of its key: to the nearest child beside the way, on the
//! neighbour's side.

ghost use Rattle.std.specs.Prelude.{◌≡◌, ◌+◌, ◌-◌, ◌*◌, ◌^◌, ◌<◌, ◌≤◌, length, drop, slice_get, Some};
ghost use Rattle.std.specs.Option.{option_or};
ghost use Rattle.judy_model.specs.WordBytes.{number_of};
ghost use Rattle.judy_bits.specs.ByteSets as set;
ghost use Rattle.judy_leaf.specs.KeyLists.{shift};
ghost use Rattle.judy_node.specs.Trees.{join};
ghost use Rattle.judy_node.specs.Branches.{IsWholeBranch};
ghost use Rattle.judy_query.specs.Parts.{passed, reached, byte_behind, IsStart};
ghost use Rattle.judy_query.specs.Turns.{turn_pairs, IsTurn, IsLater, IsEarlier, later_pair, earlier_pair, IsStepEdge, IsPlaceBeside, IsTurnTo, edge_of, pairs_beside, nearest_pair, turn_pair};
ghost use Rattle.judy_query.specs.Visits.{most_visits_below};

use crate::Entry;
use crate::branches::{byte_behind, byte_passed, passed, reached, start_below, start_from};
use crate::places::entry_below;
use crate::sides::Side;
use judy_bits::Meter;
use judy_leaf::Words;
use judy_node::{BranchOf, Step};

/// A child beside the way: its branch, its place there, and where the keys of the branch begin. Its own byte is found
/// without a count, from its edge: the byte from which on it is the first child, for what is behind the way, or below
/// which it is the last, for what is in front. The search for a word that is no key turns off at a child of its way,
/// whose edge is its own byte.
#[derive(Drop)]
pub(crate) struct Turn<'a, V: Words + Drop> {
    pub(crate) branch: &'a BranchOf<V>,
    pub(crate) place: usize,
    pub(crate) base: u64,
    pub(crate) edge: u64,
}

/// The turn to the nearest child beside a key, on one side, in a branch whose keys begin at `base`, by the key's step
/// there; where there is none, the one before.
// The side is known where this is asked for.
#[inline(always)]
pub(crate) fn turn_to<'a, V: Words + Drop>(
    side: Side,
    branch: &'a BranchOf<V>,
    step: Step,
    base: u64,
    before: Option<Turn<'a, V>>,
) -> Option<Turn<'a, V>>
    requires branch { IsWholeBranch V.WORDS branch.now }
    requires inside { passed (length branch.now.children.items) step
        ≤ length branch.now.children.items }
    requires step { IsStepEdge side branch.now step }
    requires fits { base + 256 ^ (length branch.now.skip + 1 + branch.now.width) ≤ 256 ^ 8 }
    requires before { IsTurnTo side V.WORDS before }
    ensures turn { IsTurnTo side V.WORDS result }
    ensures pair { turn_pair side result
        ≡ option_or (nearest_pair side (pairs_beside side branch.now step base))
        (turn_pair side before.entry) }
{
    match side.place_beside(branch, step) {
        Some(place) => Some(Turn {
            branch,
            place,
            base,
            edge: side.edge(step),
        }),
        None => before,
    }
}

impl Side {
    // The place of the nearest child beside a key, on this side, by the key's step; none where there is none.
    #[inline(always)]
    fn place_beside<V: Words + Drop>(self, branch: &BranchOf<V>, step: Step) -> Option<usize>
        requires { passed (length branch.now.children.items) step
            ≤ length branch.now.children.items }
        ensures { IsPlaceBeside self (length branch.now.children.items) step result }
    {
        match self {
            Side::Up => {
                let place = reached(branch, step);
                if place < branch.children.len() {
                    Some(place)
                } else {
                    None
                }
            }
            Side::Down => {
                let before = passed(branch, step);
                if before > 0 { Some(before - 1) } else { None }
            }
        }
    }

    // The edge of the turn there.
    #[inline(always)]
    fn edge(self, step: Step) -> u64
        ensures { result ≡ edge_of self step }
    {
        match self {
            Side::Up => byte_behind(step),
            Side::Down => byte_passed(step),
        }
    }
}

/// The first pair of the child that a turn leads to; none where there is no turn. At most 7 visits.
// Inside the search that asks for it a turn needn't be put together in memory.
#[inline(always)]
pub(crate) fn least<V: Words + Drop>(turn: Option<Turn<'_, V>>, meter: &mut Meter) -> Option<Entry>
    requires turn { IsLater V.WORDS turn }
    requires room { meter.old ≤ 2 ^ 64 - 9 }
    ensures entry { result ≡ later_pair turn.entry }
    ensures no_fewer { meter.old ≤ meter.new }
    ensures visits { meter.new ≤ meter.old + most_visits_below }
{
    let turn = turn?;
    let start = start_from(turn.branch, turn.place, turn.edge);
    Some(turn.entry_at(start, 0, meter))
}

/// The first pair behind a key in a branch whose keys begin at `base`, by the key's step there; where there is none,
/// that of the turn before.
// Mostly there is one, and then the turn before needn't be read.
#[inline(always)]
pub(crate) fn pair_behind<V: Words + Drop>(
    branch: &BranchOf<V>,
    step: Step,
    base: u64,
    before: Option<Turn<'_, V>>,
    meter: &mut Meter,
) -> Option<Entry>
    requires branch { IsWholeBranch V.WORDS branch.now }
    requires inside { passed (length branch.now.children.items) step
        ≤ length branch.now.children.items }
    requires step { reached (length branch.now.children.items) step
        ≡ set.rank branch.now.bytes (byte_behind step) }
    requires fits { base + 256 ^ (length branch.now.skip + 1 + branch.now.width) ≤ 256 ^ 8 }
    requires before { IsLater V.WORDS before }
    requires room { meter.old ≤ 2 ^ 64 - 9 }
    ensures entry { result
        ≡ option_or (slice_get
        (shift base (join (256 ^ branch.now.width) (number_of branch.now.skip * 256)
        (drop (reached (length branch.now.children.items) step) branch.now.bytes)
        (drop (reached (length branch.now.children.items) step) branch.now.children.items)))
        0) (later_pair before.entry) }
    ensures no_fewer { meter.old ≤ meter.new }
    ensures visits { meter.new ≤ meter.old + most_visits_below }
{
    let place = reached(branch, step);
    if place < branch.children.len() {
        let turn = Turn {
            branch,
            place,
            base,
            edge: byte_behind(step),
        };
        least(Some(turn), meter)
    } else {
        pair_further_up(before, meter)
    }
}

// The pair of a turn further up, which is rare.
// Within its caller, but a function: what the call is given and answers through memory is written there only where it
// is made.
#[inline(always)]
fn pair_further_up<V: Words + Drop>(turn: Option<Turn<'_, V>>, meter: &mut Meter) -> Option<Entry>
    requires turn { IsLater V.WORDS turn }
    requires room { meter.old ≤ 2 ^ 64 - 9 }
    ensures entry { result ≡ later_pair turn.entry }
    ensures no_fewer { meter.old ≤ meter.new }
    ensures visits { meter.new ≤ meter.old + most_visits_below }
{
    least_before(turn, meter)
}

// As `least`, by a call.
#[cold]
#[inline(never)]
fn least_before<V: Words + Drop>(turn: Option<Turn<'_, V>>, meter: &mut Meter) -> Option<Entry>
    requires turn { IsLater V.WORDS turn }
    requires room { meter.old ≤ 2 ^ 64 - 9 }
    ensures entry { result ≡ later_pair turn.entry }
    ensures no_fewer { meter.old ≤ meter.new }
    ensures visits { meter.new ≤ meter.old + most_visits_below }
{
    least(turn, meter)
}

/// The last pair of the child that a turn leads to; none where there is no turn. At most 7 visits.
#[inline(always)]
pub(crate) fn greatest<V: Words + Drop>(
    turn: Option<Turn<'_, V>>,
    meter: &mut Meter,
) -> Option<Entry>
    requires turn { IsEarlier V.WORDS turn }
    requires room { meter.old ≤ 2 ^ 64 - 9 }
    ensures entry { result ≡ earlier_pair turn.entry }
    ensures no_fewer { meter.old ≤ meter.new }
    ensures visits { meter.new ≤ meter.old + most_visits_below }
{
    let turn = turn?;
    let start = start_below(turn.branch, turn.place, turn.edge);
    Some(turn.entry_at(start, turn.len() - 1, meter))
}

impl<'a, V: Words + Drop> Turn<'a, V> {
    // How many pairs the child has.
    fn len(&self) -> u64
        requires { IsTurn V.WORDS self.now }
        ensures count { result ≡ length (turn_pairs self.now) }
        ensures some { 1 ≤ result }
    {
        self.branch.children[self.place].pop()
    }

    // One of its pairs, by its place among them. The keys of the child begin at `start` in its branch.
    #[inline(always)]
    fn entry_at(&self, start: u64, place: u64, meter: &mut Meter) -> Entry
        requires turn { IsTurn V.WORDS self.now }
        requires start { IsStart (256 ^ self.now.branch.now.width)
            (number_of self.now.branch.now.skip * 256) self.now.branch.now.bytes self.now.place
            start }
        requires inside { place < length (turn_pairs self.now) }
        requires room { meter.old ≤ 2 ^ 64 - 9 }
        ensures entry { slice_get (turn_pairs self.now) place ≡ Some result }
        ensures no_fewer { meter.old ≤ meter.new }
        ensures visits { meter.new ≤ meter.old + most_visits_below }
    {
        let view = self.branch.children[self.place].enter(self.branch.width, meter);
        let base = self.base + start;
        let (key, value) = entry_below(view, place, meter);
        (base + key, value)
    }
}
