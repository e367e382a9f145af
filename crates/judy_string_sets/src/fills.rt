//! Arrays that are filled with the keys of others.

ghost use Rattle.std.specs.Prelude.{◌≡◌, ◌<◌, ◌≤◌, ◌↔◌, if◌then◌else◌, OnOk, IsTrue, length};
ghost use Rattle.std.specs.FinMap as map;
ghost use Rattle.judy_model.specs.Arrays.{with_map};
ghost use Rattle.judy_model.specs.TwoMaps as two;
ghost use Rattle.judy_sl.specs.Arenas.{AreWithin};
ghost use Rattle.judy_string_sets.specs.Walks.{picked, rest_of, kept};

use crate::counts::kept_count;
use crate::keys::{Keys, next_of};
use crate::room::room;
use crate::which::Which;
use judy_model::keys::LONGEST_KEY;
use judy_sl::{KeyLength, SlError, StringsOf};
use std::alloc::Global;

// Puts the keys of the one in that are meant beside the other, each with its value, by a buffer that each fits.
fn put_by<L: KeyLength>(
    made: &mut StringsOf<L>,
    which: Which,
    one: &StringsOf<L>,
    other: &StringsOf<L>,
    buffer: &mut [u8],
) -> Result<(), SlError>
    requires { AreWithin (length buffer.old) one.now.map }
    ensures { OnOk result (made.new
        ≡ with_map made.old (two.union (picked which one.now.map other.now.map) made.old.map)) }
{
    let mut keys = Keys::of(one);
    'keys: while let Some(value) = next_of(&mut keys, which, other) {
        keys.put_in(made, value, buffer)?;
    }
    Ok(())
}

// The same with a buffer of its own. Memory for it is asked for where a key may have more than 1,024 bytes.
fn put_all<L: KeyLength>(
    alloc: Global,
    made: &mut StringsOf<L>,
    which: Which,
    one: &StringsOf<L>,
    other: &StringsOf<L>,
) -> Result<(), SlError>
    ensures { OnOk result (made.new
        ≡ with_map made.old (two.union (picked which one.now.map other.now.map) made.old.map)) }
{
    let longest = one.longest();
    if longest <= LONGEST_KEY {
        let mut buffer = [0; LONGEST_KEY];
        return put_by(made, which, one, other, &mut buffer);
    }
    let mut buffer = room(alloc, longest)?;
    put_by(made, which, one, other, buffer.as_mut_slice())
}

// Puts in those that the other has alone, where they are wanted.
fn put_rest<L: KeyLength>(
    alloc: Global,
    made: &mut StringsOf<L>,
    rest: bool,
    one: &StringsOf<L>,
    other: &StringsOf<L>,
) -> Result<(), SlError>
    ensures { OnOk result (made.new
        ≡ with_map made.old (two.union (rest_of rest one.now.map other.now.map) made.old.map)) }
{
    if !rest {
        return Ok(());
    }
    put_all(alloc, made, Which::Alone, other, one)
}

// Puts in those that the other has alone, where they are wanted, and the keys of the one that are meant.
pub fn fill<L: KeyLength>(
    alloc: Global,
    made: &mut StringsOf<L>,
    which: Which,
    rest: bool,
    one: &StringsOf<L>,
    other: &StringsOf<L>,
) -> Result<(), SlError>
    ensures { OnOk result (made.new ≡ with_map made.old
        (two.union (picked which one.now.map other.now.map)
        (two.union (rest_of rest one.now.map other.now.map) made.old.map))) }
{
    put_rest(alloc, made, rest, one, other)?;
    put_all(alloc, made, which, one, other)
}

// So many, if they are wanted.
fn share(wanted: bool, count: u64) -> u64
    ensures { result ≡ (if wanted then count else 0) }
{
    if wanted { count } else { 0 }
}

// Whether these are more than a limit. They are counted only where they could be.
pub fn exceeds<L: KeyLength>(
    limit: u64,
    which: Which,
    rest: bool,
    one: &StringsOf<L>,
    other: &StringsOf<L>,
) -> bool
    requires { limit ≤ 4294967295 }
    ensures { IsTrue result ↔ (limit < map.len (kept which rest one.now.map other.now.map)) }
{
    let ours = one.len();
    let theirs = other.len();
    if ours <= limit && share(rest, theirs) <= limit - ours {
        return false;
    }
    kept_count(which, rest, one, other) > limit
}
