//! The calls of C that look many keys up at once.

ghost use Rattle.std.specs.Prelude.{◌≡◌, ◌≤◌, ℕ, length, map as mapped};
ghost use Rattle.judy_c.specs.Looks.{found_in, found_of, there_in};
ghost use Rattle.judy_c.specs.Maps.{map_of, set_of};
ghost use Rattle.judy_c.specs.Walks.{IsFilled};

use crate::handles::Handle;
use crate::map::Map;
use crate::set::Set;
use judy_word::{Judy1, JudyL};
use std::alloc::Global;

/// What C is told of a key: its value, 0 where it isn't there, and whether it is there, 1 or 0.
#[repr(C)]
#[derive(Clone, Copy)]
pub struct Found {
    pub value: u64,
    pub there: u64,
}

// How many keys are handed to the array at a time.
const GROUP: usize = 64;

/// Looks up the keys of a list, as many as the other has room for, and tells of each at its place what
/// `sellumaq_judyl_get` answers; answers how many these are. The ways of up to 16 keys go down the map side by side.
#[unsafe(no_mangle)]
pub extern "C" fn sellumaq_judyl_get_many(
    alloc: Global,
    handle: &mut Map,
    keys: &[u64],
    found: &mut [Found],
) -> usize
    ensures filled { IsFilled (found_in (map_of handle.old) keys.now) found.old result found.new }
    ensures same { handle.new ≡ handle.old }
{
    match handle.array() {
        Some(array) => tell_fitting(array, keys, found),
        None => tell_fitting(&JudyL::unbounded(alloc), keys, found),
    }
}

/// Looks up the keys of a list, as many as the other has room for, and tells of each at its place whether it is there,
/// 1 or 0; answers how many these are. The ways of up to 16 keys go down the set side by side.
#[unsafe(no_mangle)]
pub extern "C" fn sellumaq_judy1_test_many(
    alloc: Global,
    handle: &mut Set,
    keys: &[u64],
    there: &mut [u8],
) -> usize
    ensures filled { IsFilled (there_in (set_of handle.old) keys.now) there.old result there.new }
    ensures same { handle.new ≡ handle.old }
{
    match handle.array() {
        Some(array) => tell_fitting(array, keys, there),
        None => tell_fitting(&Judy1::unbounded(alloc), keys, there),
    }
}

// Tells of the keys of a list, as many as there is room for, and answers how many these are.
fn tell_fitting<A: AsksMany>(array: &A, keys: &[u64], told: &mut [A::Told]) -> usize
    ensures { IsFilled (mapped (A.told_of array.now) keys.now) told.old result told.new }
{
    let fit = keys.len().min(told.len());
    tell_keys(array, &keys[..fit], &mut told[..fit]);
    fit
}

// Tells of the keys of a list, a group at a time.
#[tactic(auto, using(judy_word::proofs::Groups::group_more))]
fn tell_keys<A: AsksMany>(array: &A, keys: &[u64], told: &mut [A::Told])
    requires { length told.old ≡ length keys.now }
    ensures { told.new ≡ mapped (A.told_of array.now) keys.now }
{
    let mut at = 0;
    'groups: while at < keys.len() {
        let end = at + (keys.len() - at).min(GROUP);
        array.tell_group(&keys[at..end], &mut told[at..end]);
        at = end;
    }
}

// An array of which C asks many keys at once.
trait AsksMany {
    // What C is told of a key.
    type Told;

    ghost told_of: { Self → ℕ → Self.Told };

    // Tells of a few keys.
    fn tell_group(&self, keys: &[u64], told: &mut [Self::Told])
        requires few { length keys.now ≤ 64 }
        requires room { length told.old ≡ length keys.now }
        ensures { told.new ≡ mapped (told_of self.now) keys.now };
}

// Asks an array of a few keys at once, and tells of each what stands for its answer.
macro_rules! tell_each {
    ($array:ident.$ask:ident($keys:ident), $told:ident, $answers:ident, $none:expr, $of:path) => {
        let mut $answers = [$none; GROUP];
        $array.$ask($keys, &mut $answers[..$keys.len()]);
        'told: for at in 0..$keys.len() {
            $told[at] = $of($answers[at]);
        }
    };
}

impl AsksMany for JudyL {
    ghost use Rattle.judy_c.specs.Looks.{found_at};

    type Told = Found;

    ghost told_of = { λ array. found_at array.map };

    fn tell_group(&self, keys: &[u64], told: &mut [Found]) {
        tell_each!(self.get_many(keys), told, values, None, found_of);
    }
}

// What stood in the caller's room may be any bytes, and these needn't be `bool`s.
impl AsksMany for Judy1 {
    ghost use Rattle.judy_c.specs.Looks.{there_at};

    type Told = u8;

    ghost told_of = { λ set. there_at set.map };

    fn tell_group(&self, keys: &[u64], told: &mut [u8]) {
        tell_each!(self.test_many(keys), told, there, false, u8::from);
    }
}

// What is told of a key.
fn found_of(value: Option<u64>) -> Found
    ensures { result ≡ found_of value }
{
    match value {
        Some(value) => Found { value, there: 1 },
        None => Found { value: 0, there: 0 },
    }
}
