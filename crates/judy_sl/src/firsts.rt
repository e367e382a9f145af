//! How many keys begin with each first piece, kept in a list of sums: of each piece that number less one. So a word of
//! the first level that one key alone begins with has no place in the list.

ghost use Rattle.std.specs.Prelude.{◌≡◌, ◌<◌, ◌≤◌, ◌+◌, ◌*◌, ℕ, List, None, [], length, IsSome, IsNone, IfOk, OnOk, OnErr};
ghost use Rattle.std.specs.FinMap as map;
ghost use Rattle.judy_sl.specs.Pieces.{pieces};
ghost use Rattle.judy_sl.specs.World.{lookup};
ghost use Rattle.judy_sl.specs.Arenas.{world_of, map_of};
ghost use Rattle.judy_sl.specs.Ways.{levels_passed, IsWay, IsNew};
ghost use Rattle.judy_sl.specs.Noted.{AreNoted};
ghost use Rattle.judy_sl.specs.Grown.{IsAdded, IsSame};
ghost use Rattle.judy_sl.specs.Shrunk.{IsShrunk};
ghost use Rattle.judy_sl.specs.Counted.{AreCounted};
ghost use Rattle.judy_sl.specs.Firsts.{AreFirsts};
ghost use Rattle.judy_sl.specs.Listed.{AreListed, AreLeft, StaysLed};
ghost use Rattle.judy_sl.specs.Settled.{IsKept, IsSettled};
ghost use Rattle.judy_sl.specs.Strings.{IsString};

use crate::arena::{Arena, Place, Way};
use crate::passed::{
    FEW_PIECES, LevelNotes, MOST_PIECES, Noted, Number, Passed, are_few, are_listed,
};
use crate::pieces::first_piece;
use judy_sums::{LevelSums, Sums};
use std::alloc::AllocError;

// Adds a key that isn't there, with the value 0, and counts it but in the lists of levels below the first. What may be
// refused in the list comes first; where the key itself is refused, the list is as it was. What is noted are the levels
// that the way passes. An insert calls it for each kind of notes, so it is told to be inlined: else the way goes
// through memory.
#[inline(always)]
fn insert_first(
    arena: &mut Arena,
    firsts: &mut Sums,
    key: &[u8],
    way: Way,
    passed: Noted<'_>,
) -> Result<Place, AllocError>
    requires kept { IsKept arena.old }
    requires is_key { IsString key.now }
    requires way { IsWay arena.old key.now way }
    requires new { IsNew way }
    requires passed { AreNoted passed (levels_passed (world_of arena.old) key.now) }
    requires few { map.len (map_of arena.old) < 4294967295 }
    requires firsts { AreFirsts (map_of arena.old) firsts.old }
    ensures added { IfOk result (λ made. IsAdded arena.old arena.new key.now made) }
    ensures counted { AreCounted arena.new }
    ensures stays { OnOk result (StaysLed arena.old arena.new) }
    ensures refused { OnErr result (IsSame arena.old arena.new) }
    ensures firsts { AreFirsts (map_of arena.new) firsts.new }
{
    if way.ends_first() {
        return arena.add_counted(key, way, passed);
    }
    let piece = first_piece(key);
    firsts.raise(piece)?;
    match arena.add_counted(key, way, passed) {
        Ok(place) => Ok(place),
        Err(error) => {
            firsts.lower(piece);
            Err(error)
        }
    }
}

// The same, and counts it in those lists.
#[inline(always)]
fn insert_counted(
    arena: &mut Arena,
    firsts: &mut Sums,
    lists: &mut LevelSums,
    key: &[u8],
    way: Way,
    passed: Noted<'_>,
) -> Result<Place, AllocError>
    requires kept { IsKept arena.old }
    requires is_key { IsString key.now }
    requires way { IsWay arena.old key.now way }
    requires new { IsNew way }
    requires passed { AreNoted passed (levels_passed (world_of arena.old) key.now) }
    requires few { map.len (map_of arena.old) < 4294967295 }
    requires firsts { AreFirsts (map_of arena.old) firsts.old }
    requires listed { AreListed (world_of arena.old) lists.old }
    ensures added { IfOk result (λ made. IsAdded arena.old arena.new key.now made) }
    ensures counted { AreCounted arena.new }
    ensures refused { OnErr result (IsSame arena.old arena.new) }
    ensures firsts { AreFirsts (map_of arena.new) firsts.new }
    ensures listed { AreListed (world_of arena.new) lists.new }
{
    let made = insert_first(arena, firsts, key, way, passed)?;
    arena.list_noted(lists, passed, key, true, way.clashes());
    Ok(made)
}

// Adds a key for which memory was refused, where tails go together (`settle_again`), so that some comes back. It is no
// part of its caller.
#[cold]
#[inline(never)]
fn insert_again(
    arena: &mut Arena,
    firsts: &mut Sums,
    lists: &mut LevelSums,
    key: &[u8],
    count: u64,
    gone: &mut u64,
) -> Result<Place, AllocError>
    requires kept { IsKept arena.old }
    requires is_key { IsString key.now }
    requires absent { map.get (map_of arena.old) key.now ≡ None }
    requires few { map.len (map_of arena.old) < 4294967295 }
    requires firsts { AreFirsts (map_of arena.old) firsts.old }
    requires listed { AreListed (world_of arena.old) lists.old }
    ensures added { IfOk result (λ made. IsAdded arena.old arena.new key.now made) }
    ensures counted { AreCounted arena.new }
    ensures refused { OnErr result (IsSettled arena.old arena.new) }
    ensures firsts { AreFirsts (map_of arena.new) firsts.new }
    ensures listed { AreListed (world_of arena.new) lists.new }
{
    if !arena.settle_again(count, gone) {
        return Err(AllocError);
    }
    let mut passed = Number::none();
    let way = arena.walk(key, &mut passed);
    insert_counted(arena, firsts, lists, key, way, passed.noted())
}

// Adds a key that isn't there, with the value 0, and counts it everywhere. Where memory is refused it is asked for once
// more, if tails go together then; and where it is refused again, tails may stand elsewhere. It is told how many keys
// there are, and how many went since tails last went together.
#[inline(always)]
pub fn insert(
    arena: &mut Arena,
    firsts: &mut Sums,
    lists: &mut LevelSums,
    key: &[u8],
    way: Way,
    passed: Noted<'_>,
    count: u64,
    gone: &mut u64,
) -> Result<Place, AllocError>
    requires kept { IsKept arena.old }
    requires is_key { IsString key.now }
    requires way { IsWay arena.old key.now way }
    requires new { IsNew way }
    requires passed { AreNoted passed (levels_passed (world_of arena.old) key.now) }
    requires few { map.len (map_of arena.old) < 4294967295 }
    requires firsts { AreFirsts (map_of arena.old) firsts.old }
    requires listed { AreListed (world_of arena.old) lists.old }
    ensures added { IfOk result (λ made. IsAdded arena.old arena.new key.now made) }
    ensures counted { AreCounted arena.new }
    ensures refused { OnErr result (IsSettled arena.old arena.new) }
    ensures firsts { AreFirsts (map_of arena.new) firsts.new }
    ensures listed { AreListed (world_of arena.new) lists.new }
{
    match insert_counted(arena, firsts, lists, key, way, passed) {
        Ok(made) => Ok(made),
        Err(_) => insert_again(arena, firsts, lists, key, count, gone),
    }
}

// Takes a key out, and counts it no more but in the lists of levels below the first; answers its value, where it was
// there. The levels that its way passed and that stay are noted.
fn remove_first<N: LevelNotes>(
    arena: &mut Arena,
    firsts: &mut Sums,
    key: &[u8],
    passed: &mut N,
) -> Option<u64>
    requires few { length key.now < 8 * N.most + 8 }
    requires begins { N.has passed.old [] }
    requires kept { IsKept arena.old }
    requires is_key { IsString key.now }
    requires firsts { AreFirsts (map_of arena.old) firsts.old }
    ensures answer { result ≡ lookup (world_of arena.old) 0 (pieces key.now) }
    ensures shrunk { IsShrunk arena.old arena.new key.now }
    ensures counted { AreCounted arena.new }
    ensures firsts { AreFirsts (map_of arena.new) firsts.new }
    ensures left { IsSome result → (places : List ℕ) × N.has passed.new places
        × AreLeft arena.old arena.new key.now places }
    ensures unchanged { IsNone result → arena.new ≡ arena.old }
{
    let removed = arena.remove(key, passed)?;
    if removed.beside {
        firsts.lower(first_piece(key));
    }
    Some(removed.value)
}

// The same, and counts it no more in those lists, by notes that are for as many levels as its way may pass.
fn remove_noted<N: LevelNotes + Drop>(
    arena: &mut Arena,
    firsts: &mut Sums,
    lists: &mut LevelSums,
    key: &[u8],
) -> Option<u64>
    requires few { length key.now < 8 * N.most + 8 }
    requires kept { IsKept arena.old }
    requires is_key { IsString key.now }
    requires firsts { AreFirsts (map_of arena.old) firsts.old }
    requires listed { AreListed (world_of arena.old) lists.old }
    ensures answer { result ≡ lookup (world_of arena.old) 0 (pieces key.now) }
    ensures shrunk { IsShrunk arena.old arena.new key.now }
    ensures counted { AreCounted arena.new }
    ensures firsts { AreFirsts (map_of arena.new) firsts.new }
    ensures listed { AreListed (world_of arena.new) lists.new }
{
    let mut passed = N::none();
    let value = remove_first(arena, firsts, key, &mut passed)?;
    arena.list_noted(lists, passed.noted(), key, false, false);
    Some(value)
}

// Takes a key out, and counts it no more; answers its value, where it was there.
pub fn remove(
    arena: &mut Arena,
    firsts: &mut Sums,
    lists: &mut LevelSums,
    key: &[u8],
) -> Option<u64>
    requires kept { IsKept arena.old }
    requires is_key { IsString key.now }
    requires firsts { AreFirsts (map_of arena.old) firsts.old }
    requires listed { AreListed (world_of arena.old) lists.old }
    ensures answer { result ≡ lookup (world_of arena.old) 0 (pieces key.now) }
    ensures shrunk { IsShrunk arena.old arena.new key.now }
    ensures counted { AreCounted arena.new }
    ensures firsts { AreFirsts (map_of arena.new) firsts.new }
    ensures listed { AreListed (world_of arena.new) lists.new }
{
    if are_few(key) {
        remove_noted::<Passed<FEW_PIECES>>(arena, firsts, lists, key)
    } else if are_listed(key) {
        remove_noted::<Passed<MOST_PIECES>>(arena, firsts, lists, key)
    } else {
        remove_noted::<Number>(arena, firsts, lists, key)
    }
}
