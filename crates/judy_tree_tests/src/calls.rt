//! The calls that ask a tree, as the tests name them: what a tree answers, and what a plain list does.

ghost use Rattle.std.specs.Prelude.{◌+◌, ◌-◌, ◌^◌, ◌≤◌};
ghost use Rattle.judy_query.specs.Visits.{most_visits_down, most_visits_near};

use crate::plain::{absent_from, absent_up_to, pair_from, pair_up_to, rank as rank_in};
use judy_bits::Meter;
use judy_leaf::Words;
use judy_node::NodeOf;
use judy_query::laws::most_visits;
use judy_query::{
    Side, Start, Walk, around, entry_at_or_after, entry_at_or_before, entry_nth, lookup,
    lookup_further, lookup_many, lookup_start, nearest_empty, rank,
};
use judy_unmetered::UNMETERED;
use std::process::Abort;

// A call that asks a tree about a word, or about a place among its keys; or some that together do.
#[derive(Clone, Copy, PartialEq, Eq, Debug)]
pub(crate) enum Call {
    Lookup,
    // Begun at the root, and gone on with from there.
    Further,
    // Of one key.
    Many,
    Rank,
    Nth,
    AtOrAfter,
    AtOrBefore,
    // What is above the word.
    Around,
    EmptyAtOrAfter,
    EmptyAtOrBefore,
    // A walk from the word, and its first step.
    Step,
    // The same, and its first pair written.
    Fill,
}

use Call::{
    Around, AtOrAfter, AtOrBefore, EmptyAtOrAfter, EmptyAtOrBefore, Fill, Further, Lookup, Many,
    Nth, Rank, Step,
};

// All of them, with how many nodes each enters at most.
pub(crate) const CALLS: [(Call, u64); 12] = [
    (Lookup, 8),
    (Further, 8),
    (Many, 8),
    (Rank, 8),
    (Nth, 8),
    (AtOrAfter, 15),
    (AtOrBefore, 15),
    (Around, 15),
    (EmptyAtOrAfter, 15),
    (EmptyAtOrBefore, 15),
    (Step, 15),
    (Fill, 15),
];

impl Call {
    // What a tree answers; and how many nodes are entered at most, as the clauses of the calls say.
    pub(crate) fn ask<V: Words + Drop>(
        self,
        tree: &NodeOf<V>,
        word: u64,
        meter: &mut Meter,
    ) -> (Option<u64>, u64)
        requires { meter.old ≤ 2 ^ 64 - 257 }
        ensures visits { meter.new ≤ meter.old + result.1 }
    {
        let (down, below, near) = most_visits();
        match self {
            Lookup => (lookup(tree, word, meter), down),
            Further => (look_further(tree, word, meter), 1 + below),
            Many => (look_up_one(tree, word, meter), down),
            Rank => (Some(rank(tree, word, meter)), down),
            Nth => (key_of(entry_nth(tree, word, meter)), down),
            AtOrAfter => (key_of(entry_at_or_after(tree, word, meter)), near),
            AtOrBefore => (key_of(entry_at_or_before(tree, word, meter)), near),
            Around => (key_of(around(tree, word, meter).1), near),
            EmptyAtOrAfter => (nearest_empty(Side::Up, tree, word, meter), near),
            EmptyAtOrBefore => (nearest_empty(Side::Down, tree, word, meter), near),
            Step => (step_from(tree, word, meter), down + below),
            Fill => (fill_one(tree, word, meter), down + below),
        }
    }

    // What the plain list of its pairs answers.
    pub(crate) fn by_list(self, plain: &[(u64, u64)], word: u64) -> Option<u64> {
        match self {
            Lookup | Further | Many => {
                plain.iter().find(|pair| pair.0 == word).map(|pair| pair.1)
            }
            Rank => Some(rank_in(plain, word) as u64),
            Nth => plain.get(word as usize).map(|pair| pair.0),
            AtOrAfter | Step | Fill => pair_from(plain, word).map(|pair| pair.0),
            AtOrBefore => pair_up_to(plain, word).map(|pair| pair.0),
            Around => pair_from(plain, word.checked_add(1)?).map(|pair| pair.0),
            EmptyAtOrAfter => absent_from(plain, word, u64::MAX),
            EmptyAtOrBefore => absent_up_to(plain, word, u64::MAX),
        }
    }
}

// The key of a pair.
fn key_of(pair: Option<(u64, u64)>) -> Option<u64> {
    pair.map(|pair| pair.0)
}

// The value of a key by a look-up that begins at the root, and goes on where that is a branch.
fn look_further<V: Words + Drop>(tree: &NodeOf<V>, key: u64, meter: &mut Meter) -> Option<u64>
    requires { meter.old ≤ 2 ^ 64 - 257 }
    ensures visits { meter.new ≤ meter.old + most_visits_down }
{
    match lookup_start(tree, key, meter) {
        Start::Found(value) => value,
        Start::Further(branch) => lookup_further(branch, key, meter),
        Start::Other => only_pair_of(tree, key),
    }
}

// The same of a root that is neither a leaf nor a branch, by a meter of its own.
fn only_pair_of<V: Words + Drop>(tree: &NodeOf<V>, key: u64) -> Option<u64> {
    lookup(tree, key, &mut Meter::new(UNMETERED))
}

// The value of a key, as one of many.
fn look_up_one<V: Words + Drop>(tree: &NodeOf<V>, key: u64, meter: &mut Meter) -> Option<u64>
    requires { meter.old ≤ 2 ^ 64 - 257 }
    ensures visits { meter.new ≤ meter.old + most_visits_down }
{
    let mut values = [None];
    lookup_many(tree, &[key], &mut values, meter);
    values[0]
}

// The first key from a word on, by the first step of a walk.
fn step_from<V: Words + Drop>(tree: &NodeOf<V>, word: u64, meter: &mut Meter) -> Option<u64>
    requires { meter.old ≤ 2 ^ 64 - 257 }
    ensures visits { meter.new ≤ meter.old + most_visits_near }
{
    let mut walk = Walk::from_key(tree, word, meter);
    key_of(walk.next(meter))
}

// The same, written by a walk.
fn fill_one<V: Words + Drop>(tree: &NodeOf<V>, word: u64, meter: &mut Meter) -> Option<u64>
    requires { meter.old ≤ 2 ^ 64 - 257 }
    ensures visits { meter.new ≤ meter.old + most_visits_near }
{
    let mut keys = [0];
    let count = Walk::from_key(tree, word, meter).fill(&mut keys, meter);
    if count == 1 { Some(keys[0]) } else { None }
}

// Asks a tree about a word, compares the answer, and how many nodes the call enters at most. It tells how many they
// are, and how many the call's clause allows.
pub(crate) fn check_call<V: Words + Drop>(
    rt: &impl Abort,
    tree: &NodeOf<V>,
    call: Call,
    word: u64,
    wanted: Option<u64>,
    most: u64,
) -> (u64, u64) {
    let mut meter = Meter::new(UNMETERED);
    let (found, bound) = call.ask(tree, word, &mut meter);
    same_answer(rt, call, word, found, wanted);
    at_most(rt, call, word, meter.visits(), most);
    (meter.visits(), bound)
}

// Compares the answer to a call about a word.
fn same_answer(rt: &impl Abort, call: Call, word: u64, found: Option<u64>, wanted: Option<u64>) {
    assert_eq!(rt; found, wanted, "{call:?} {word}");
}

// Compares how many nodes a call about a word enters with how many it may.
fn at_most(rt: &impl Abort, call: Call, word: u64, visits: u64, most: u64) {
    assert!(rt; visits <= most, "{call:?} {word}");
}
