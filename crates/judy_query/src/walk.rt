//! A walk through the pairs of a tree by ascending key, which remembers its way.

ghost use Rattle.std.specs.Prelude.{◌≡◌, ◌+◌, ◌-◌, ◌^◌, ◌<◌, ◌≤◌, [], ◌++◌, ◌*◌, length, drop, min};
ghost use Rattle.std.specs.Iterator.{YieldsFirst};
ghost use Rattle.judy_bits.specs.ByteSets as set;
ghost use Rattle.judy_leaf.specs.KeyLists.{shift, keys_of};
ghost use Rattle.judy_node.specs.Views.{view_pairs};
ghost use Rattle.judy_query.specs.Givings.{AreGiven};
ghost use Rattle.judy_query.specs.Parts.{IsShown, width_of};
ghost use Rattle.judy_query.specs.Turns.{IsTurn, IsFirst};
ghost use Rattle.judy_query.specs.Walks.{rest_of_turn, waiting, AreTurns};
ghost use Rattle.judy_query.specs.Visits.{most_visits_below, most_visits_down};

use crate::branches::{byte_behind, byte_from, reached, start_at};
use crate::ends::{only_pair, rank_in};
use crate::givings::give_whole;
use crate::stretch::Stretch;
use crate::turns::Turn;
use crate::waiting::{Turns, keep, take};
use arrayvec::ArrayVec;
use judy_bits::Meter;
use judy_leaf::{FromPair, Words};
use judy_node::{NodeOf, Step, ViewOf};
use std::marker::Model;

/// The pairs of a tree that are still to come, by ascending key: each is a key with its value, 0 where keys have no
/// values. A step inside a node enters none, and a step to another one enters the nodes between the branch that both
/// are below and that node. To its callers it is the list of those pairs.
#[derive(Drop)]
pub struct Walk<'a, V: Words + Drop> {
    stretch: Stretch<'a, V>,
    turns: Turns<'a, V>,
}

impl<'a, V: Words + Drop> Model for Walk<'a, V> {
    ghost use Rattle.std.specs.Prelude.{ℕ, List, ◌++◌};
    ghost use Rattle.judy_query.specs.Walks.{waiting, AreTurns};

    ghost Value = { List (ℕ × ℕ) };

    ghost view = { λ a. a.stretch ++ waiting a.turns.items };

    ghost invariant = { λ a. AreTurns V.WORDS 0 a.turns.items };
}

impl<'a, V: Words + Drop> Walk<'a, V> {
    /// The pairs of a tree whose keys aren't below a word. At most 8 visits; the meter stands at most at
    /// `u64::MAX - 16`. No memory is asked for.
    pub fn from_key(tree: &'a NodeOf<V>, key: u64, meter: &mut Meter) -> Walk<'a, V>
        requires { meter.old ≤ 2 ^ 64 - 17 }
        ensures pairs { result ≡ drop (set.rank (keys_of tree.now.pairs) key) tree.now.pairs }
        ensures no_fewer { meter.old ≤ meter.new }
        ensures visits { meter.new ≤ meter.old + most_visits_down }
    {
        let mut turns = ArrayVec::new();
        let stretch = seek(tree, key, &mut turns, meter);
        Walk { stretch, turns }
    }

    /// Lets the walk be [`Walk::from_key`] of a tree, whatever it was: it has the room of eight branches, which is made
    /// and moved once so for many trees. Visits and meter as there.
    pub fn restart(&mut self, tree: &'a NodeOf<V>, key: u64, meter: &mut Meter)
        requires { meter.old ≤ 2 ^ 64 - 17 }
        ensures pairs { self.new ≡ drop (set.rank (keys_of tree.now.pairs) key) tree.now.pairs }
        ensures no_fewer { meter.old ≤ meter.new }
        ensures visits { meter.new ≤ meter.old + most_visits_down }
    {
        self.turns.clear();
        self.stretch = seek(tree, key, &mut self.turns, meter);
    }

    /// The next pair; `None` where none is left. At most 7 visits; the meter stands at most at `u64::MAX - 16`.
    // Within the call that makes the meter, which mostly isn't used.
    #[inline(always)]
    pub fn next(&mut self, meter: &mut Meter) -> Option<(u64, u64)>
        requires { meter.old ≤ 2 ^ 64 - 17 }
        ensures pair { YieldsFirst (λ pairs. pairs) self.old result self.new }
        ensures no_fewer { meter.old ≤ meter.new }
        ensures visits { meter.new ≤ meter.old + most_visits_below }
    {
        let pair = self.stretch.next();
        if pair.is_some() {
            return pair;
        }
        let turn = take(&mut self.turns)?;
        let (view, start) = enter_child(turn, &mut self.turns, meter);
        let only = only_pair(&view, start);
        if only.is_some() {
            return only;
        }
        self.stretch = first_of(view, start, &mut self.turns, meter);
        self.stretch.next()
    }

    /// Writes what stands for the next pairs to the front of a slice, as many as there are and it has places for, and
    /// answers how many these are: fewer than there are places for are the last ones. The nodes below one branch are
    /// written one after another. At most 7 visits a pair; the meter has room for those of all places.
    pub fn fill<E: FromPair>(&mut self, out: &mut [E], meter: &mut Meter) -> usize
        requires { meter.old + most_visits_below * length out.old ≤ 2 ^ 64 - 17 }
        ensures given { AreGiven E.made self.old self.new out.old out.new result }
        ensures most { result ≡ min (length out.old) (length self.old) }
        ensures no_fewer { meter.old ≤ meter.new }
        ensures visits { meter.new ≤ meter.old + most_visits_below * result }
    {
        let mut count = self.stretch.fill(out);
        while count < out.len() {
            let Some(turn) = take(&mut self.turns) else {
                break;
            };
            let (stretch, more) = give_from(turn, &mut self.turns, &mut out[count..], meter);
            self.stretch = stretch;
            count += more;
        }
        count
    }
}

// The pairs of a tree whose keys aren't below a word: those of one node, the others are kept; no turns are so far.
fn seek<'a, V: Words + Drop>(
    tree: &'a NodeOf<V>,
    key: u64,
    turns: &mut Turns<'a, V>,
    meter: &mut Meter,
) -> Stretch<'a, V>
    requires none { turns.old.items ≡ [] }
    requires below { meter.old ≤ 2 ^ 64 - 17 }
    ensures turns { AreTurns V.WORDS 0 turns.new.items }
    ensures pairs { result ++ waiting turns.new.items
        ≡ drop (set.rank (keys_of tree.now.pairs) key) tree.now.pairs }
    ensures no_fewer { meter.old ≤ meter.new }
    ensures visits { meter.new ≤ meter.old + most_visits_down }
{
    tree.law();
    let mut view = tree.enter(meter);
    let mut left = key;
    'down: while let ViewOf::Branch(branch) = view {
        let step = branch.step(left);
        keep(
            branch,
            reached(branch, step),
            byte_behind(step),
            key - left,
            turns,
        );
        let Step::Child(_, place, rest) = step else {
            return Stretch::new(ViewOf::Null, 0, 0);
        };
        left = rest;
        view = branch.children[place].enter(branch.width, meter);
    }
    let at = rank_in(&view, left);
    Stretch::new(view, key - left, at)
}

// The child that a turn leads to, entered, and where its keys begin; those behind it in its branch are kept.
#[inline(always)]
fn enter_child<'a, V: Words + Drop>(
    turn: Turn<'a, V>,
    turns: &mut Turns<'a, V>,
    meter: &mut Meter,
) -> (ViewOf<'a, V>, u64)
    requires turn { IsTurn V.WORDS turn }
    requires first { IsFirst turn }
    requires turns { AreTurns V.WORDS 0 turns.old.items }
    requires room { length turns.old.items + 1 + turn.branch.now.width ≤ 8 }
    requires below { meter.old ≤ 2 ^ 64 - 17 }
    ensures shown { IsShown V.WORDS result.0 }
    ensures fits { result.1 + 256 ^ width_of result.0 ≤ 256 ^ 8 }
    ensures some { 0 < length (view_pairs result.0) }
    ensures turns { AreTurns V.WORDS 0 turns.new.items }
    ensures room { length turns.new.items + width_of result.0 ≤ 8 }
    ensures low { width_of result.0 ≤ most_visits_below }
    ensures pairs { shift result.1 (view_pairs result.0) ++ waiting turns.new.items
        ≡ rest_of_turn turn.entry ++ waiting turns.old.items }
    ensures visits { meter.new ≡ meter.old + 1 }
{
    let Turn {
        branch,
        place,
        base,
        edge,
    } = turn;
    let byte = byte_from(branch, place, edge);
    keep(branch, place + 1, u64::from(byte) + 1, base, turns);
    let view = branch.children[place].enter(branch.width, meter);
    (view, base + start_at(branch, byte))
}

// Writes what stands for the pairs that a turn leads to, and those behind it in its branch, to the front of a slice
// that has a place, as many as fit: whole nodes while they fit and have no children, and then the first pairs below the
// next node, whose others are left.
fn give_from<'a, V: Words + Drop, E: FromPair>(
    turn: Turn<'a, V>,
    turns: &mut Turns<'a, V>,
    out: &mut [E],
    meter: &mut Meter,
) -> (Stretch<'a, V>, usize)
    requires turn { IsTurn V.WORDS turn }
    requires first { IsFirst turn }
    requires turns { AreTurns V.WORDS 0 turns.old.items }
    requires room { length turns.old.items + 1 + turn.branch.now.width ≤ 8 }
    requires place { 0 < length out.old }
    requires below { meter.old + most_visits_below * length out.old ≤ 2 ^ 64 - 17 }
    ensures turns { AreTurns V.WORDS 0 turns.new.items }
    ensures given { AreGiven E.made (rest_of_turn turn.entry ++ waiting turns.old.items)
        (result.0 ++ waiting turns.new.items) out.old out.new result.1 }
    ensures some { 0 < result.1 }
    ensures most { result.1 < length out.old → length result.0 ≡ 0 }
    ensures no_fewer { meter.old ≤ meter.new }
    ensures visits { meter.new ≤ meter.old + most_visits_below * result.1 }
{
    let Turn {
        branch,
        mut place,
        base,
        mut edge,
    } = turn;
    let mut count = 0;
    while count < out.len() && place < branch.children.len() {
        let byte = byte_from(branch, place, edge);
        let start = base + start_at(branch, byte);
        let view = branch.children[place].enter(branch.width, meter);
        place += 1;
        edge = u64::from(byte) + 1;
        let Some(whole) = give_whole(&view, start, &mut out[count..]) else {
            keep(branch, place, edge, base, turns);
            let mut stretch = first_of(view, start, turns, meter);
            let more = stretch.fill(&mut out[count..]);
            return (stretch, count + more);
        };
        count += whole;
    }
    keep(branch, place, edge, base, turns);
    (Stretch::new(ViewOf::Null, 0, 0), count)
}

// The pairs of the first node without children below a node that was entered; the others are kept.
fn first_of<'a, V: Words + Drop>(
    top: ViewOf<'a, V>,
    start: u64,
    turns: &mut Turns<'a, V>,
    meter: &mut Meter,
) -> Stretch<'a, V>
    requires shown { IsShown V.WORDS top }
    requires fits { start + 256 ^ width_of top ≤ 256 ^ 8 }
    requires some { 0 < length (view_pairs top) }
    requires turns { AreTurns V.WORDS 0 turns.old.items }
    requires room { length turns.old.items + width_of top ≤ 8 }
    requires below { meter.old ≤ 2 ^ 64 - 16 }
    ensures turns { AreTurns V.WORDS 0 turns.new.items }
    ensures pairs { result ++ waiting turns.new.items
        ≡ shift start (view_pairs top.entry) ++ waiting turns.old.items }
    ensures some { 0 < length result }
    ensures no_fewer { meter.old ≤ meter.new }
    ensures visits { meter.new + 1 ≤ meter.old + width_of top.entry }
{
    let mut view = top;
    let mut base = start;
    'down: while let ViewOf::Branch(branch) = view {
        let byte = byte_from(branch, 0, 0);
        keep(branch, 1, u64::from(byte) + 1, base, turns);
        base += start_at(branch, byte);
        view = branch.children[0].enter(branch.width, meter);
    }
    Stretch::new(view, base, 0)
}
