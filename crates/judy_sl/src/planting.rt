//! The first keys of an array that is made at once. Of those that begin with the same whole piece the first one comes
//! in here: its tail is put in, and its entry of the first level goes to a list. When all are in, that level is made of
//! the list at once.

ghost use Rattle.std.specs.Prelude.{◌≡◌, ◌≤◌, ◌++◌, ◌∷◌, ℕ, [], All, IfOk, OnOk, length};
ghost use Rattle.std.specs.FinMap as map;
ghost use Rattle.judy_model.specs.Arrays.{empty_array, with_map};
ghost use Rattle.judy_sl.specs.Arenas.{map_of, AreWithin};
ghost use Rattle.judy_sl.specs.Pieces.{piece_of};
ghost use Rattle.judy_sl.specs.Planted.{opens, openers, planted, AreBelow, IsPlanted};
ghost use Rattle.judy_sl.specs.Sorted.{pairs_in, with_pairs};
ghost use Rattle.judy_sl.specs.Strings.{IsString};

use crate::arena::{Arena, Place};
use crate::judysl::StringsOf;
use crate::keys::KeyLength;
use crate::pieces::first_piece;
use judy_word::WordMap;
use std::alloc::{AllocError, Global};

// Whether a string has eight bytes or more, and its first piece is above a word.
pub fn opens(low: u64, key: &[u8]) -> bool
    ensures { result ≡ opens low key.now }
{
    key.len() >= 8 && low < first_piece(key)
}

// Puts in the tail of a key with its value, and the entry that leads to it behind the others.
fn plant(
    arena: &mut Arena,
    entries: &mut Vec<(u64, u64)>,
    key: &[u8],
    value: u64,
) -> Result<(), AllocError>
    requires is_key { IsString key.now }
    requires long { 8 ≤ length key.now }
    requires planted { IsPlanted arena.old entries.old.items }
    requires above { AreBelow (piece_of key.now) entries.old.items }
    ensures planted { OnOk result (IsPlanted arena.new entries.new.items) }
    ensures map { OnOk result (map_of (planted arena.new entries.new.items)
        ≡ map.insert (map_of (planted arena.old entries.old.items)) key.now value) }
    ensures entry { OnOk result ((at : ℕ)
        × (entries.new.items ≡ entries.old.items ++ (piece_of key.now, at) ∷ [])) }
{
    let at = arena.put_tail(&key[8..], 0)?;
    *arena.lend(Place::Below(at, 0)) = value;
    entries.push((first_piece(key), at))?;
    Ok(())
}

// Does so with the first of all keys that begin with the same whole piece, and answers the entries, and a length that
// none of these keys exceeds.
fn plant_all<L: KeyLength>(
    arena: &mut Arena,
    pairs: &[(&[u8], u64)],
) -> Result<(Vec<(u64, u64)>, usize), AllocError>
    requires planted { IsPlanted arena.old [] }
    requires empty { map_of (planted arena.old []) ≡ map.empty }
    requires keys { All (λ pair. L.IsKey pair.0.now) pairs.now }
    ensures planted { IfOk result (λ made. IsPlanted arena.new made.0.items) }
    ensures map { IfOk result (λ made. map_of (planted arena.new made.0.items)
        ≡ with_pairs map.empty (openers 0 (pairs_in pairs.now))) }
    ensures few { IfOk result (λ made. length made.0.items ≤ length pairs.now) }
    ensures within { IfOk result
        (λ made. AreWithin made.1 (map_of (planted arena.new made.0.items))) }
    ensures most { IfOk result (λ made. made.1 ≤ L.LONGEST) }
{
    let mut entries = Vec::new(arena.alloc);
    let mut longest: usize = 0;
    let mut low = 0;
    'pairs: for pair in pairs {
        if opens(low, pair.0) {
            low = first_piece(pair.0);
            longest = longest.max(pair.0.len());
            plant(arena, &mut entries, pair.0, pair.1)?;
        }
    }
    Ok((entries, longest))
}

impl<L: KeyLength> StringsOf<L> {
    // The array with a limit that has the first of all keys that begin with the same whole piece, of strings that
    // ascend.
    pub(crate) fn of_openers(
        alloc: Global,
        limit: u64,
        pairs: &[(&[u8], u64)],
    ) -> Result<StringsOf<L>, AllocError>
        requires some { 1 ≤ limit }
        requires most { limit ≤ 4294967295 }
        requires few { length pairs.now ≤ limit }
        requires keys { All (λ pair. L.IsKey pair.0.now) pairs.now }
        ensures { IfOk result (λ array. array ≡ with_map (empty_array limit)
            (with_pairs map.empty (openers 0 (pairs_in pairs.now)))) }
    {
        let mut arena = Arena::new(alloc);
        let (entries, longest) = plant_all::<L>(&mut arena, pairs)?;
        let Ok(root) = WordMap::from_sorted(alloc, &entries) else {
            return Err(AllocError);
        };
        arena.root = root;
        Ok(StringsOf::of(longest, limit, entries.len() as u64, arena))
    }
}
