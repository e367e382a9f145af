//! What all arrays with values have, whatever their keys are: a value is looked up, put in, overwritten and
//! deleted.

ghost use Rattle.std.specs.Prelude.{◌≡◌, ℕ, List, Ok, IfOk, IfErr, OnOk, OnErr, IsTrue, IsFalse};
ghost use Rattle.std.specs.declared.cmp.Ordering.{Ordering};
ghost use Rattle.std.specs.Borrow.{sem, LendsIf, u64};
ghost use Rattle.std.specs.Option.{option_copied_mut, unwrap_or};
ghost use Rattle.std.specs.Cmp.{IsTotalOrder, nat_cmp_total};
ghost use Rattle.std.specs.FinMap as finite;
ghost use Rattle.std.specs.FinMap.{IsAntisymmetric, nat_cmp-IsAntisymmetric, slice_cmp-IsAntisymmetric};
ghost use Rattle.std.proofs.lemmas.Cmp.{nat_list_cmp_total};
ghost use Rattle.judy_model.specs.Arrays as array;
ghost use Rattle.judy_model.specs.Arrays.{ArrayOf, ArrayValue};
ghost use Rattle.judy_model.specs.Commands as model;
ghost use Rattle.judy_command.specs.CommandsOf.{key_command_of, pair_command_of};
ghost use Rattle.judy_command.specs.Replies.{reply_of, answer_of, checked};
ghost use Rattle.judy_command.specs.Follows.{Follows};
ghost use Rattle.judy_command.specs.Slots.{with_value, said, IsInsertRefusal};

use crate::command::{KeyCommand, PairCommand};
use crate::reply::{Answer, Refusal, Reply};
use crate::words::{number_or_nothing, word};
use judy_hs::{Fnv1a, JudyHs};
use judy_sl::JudySl;
use judy_word::JudyL;
use std::mem::replace;

/// An array that maps keys to values and lends their slots; a call is given a key as a `K`.
pub(crate) trait ValueMap<K> {
    // The keys, their order, and the array, as the definitions see them.
    ghost Key: { Type 0 };

    ghost order: { Key → Key → Ordering };

    ghost key_of: { K → Key };

    ghost IsKey: { Key → Type 0 };

    ghost array_of: { Self → ArrayOf order };

    ghost kind_of: { ArrayOf order → ArrayValue };

    // The array with a value written at a key that is there.
    ghost written: { Self → K → ℕ → Self };

    /// Gives the key a value, and answers the value that it had, 0 where it was absent. `Full` or `NoMemory`, only
    /// where it is absent, and then the array is as it was.
    fn insert(&mut self, key: K, value: u64) -> Result<u64, Refusal>
        requires { IsKey (key_of key) }
        ensures was { IfOk result
            (λ was. was ≡ unwrap_or (finite.get (array_of self.old).map (key_of key)) 0) }
        ensures put { OnOk result
            (array_of self.new ≡ with_value (array_of self.old) (key_of key) value) }
        ensures accepted { OnOk result (IsFalse (array.is_full (array_of self.old) (key_of key))) }
        ensures refused { IfErr result (IsInsertRefusal (array_of self.old) (key_of key)) }
        ensures unchanged { OnErr result (array_of self.new ≡ array_of self.old) };

    /// The slot of the key, where it is there.
    fn slot(&mut self, key: K) -> Option<&mut u64>
        ensures* writes_back { sem 𝓛
            (LendsIf Self.row u64 self.entry result (written self.entry.now key) self.entry.now) }
        ensures value { option_copied_mut result
            ≡ finite.get (array_of self.old).map (key_of key) };

    /// The value of the key.
    fn get(&self, key: K) -> Option<u64>
        ensures { result ≡ finite.get (array_of self.now).map (key_of key) };

    /// Takes the key out, and answers whether it was there.
    fn del(&mut self, key: K) -> bool
        ensures answer { result ≡ finite.contains_key (array_of self.old).map (key_of key) }
        ensures deleted { array_of self.new
            ≡ array.with_map (array_of self.old) (array.del (array_of self.old).map (key_of key)) };

    // Laws: the order is one, and a write changes the value of its key and nothing else.
    ghost is_total: { IsTotalOrder order };

    ghost is_antisymmetric: { IsAntisymmetric order };

    ghost writes: { (array : Self) (key : K) (value : ℕ) →
        array_of (written array key value) ≡ with_value (array_of array) (key_of key) value };
}

impl ValueMap<u64> for JudyL {
    ghost use Rattle.std.specs.Prelude.{refl};
    ghost use Rattle.judy_model.specs.Keys.{IsWord, word_order};
    ghost use Rattle.judy_model.specs.Arrays.{judyl};
    ghost use Rattle.judy_word.specs.WordArrays as words;

    ghost Key = { ℕ };

    ghost order = { word_order };

    ghost key_of = { λ key. key };

    ghost IsKey = { IsWord };

    ghost array_of = { words.array_of };

    ghost kind_of = { judyl };

    ghost written = { words.with_value };

    // One way down the map tells the old value and leaves the new one.
    #[inline(always)]
    fn insert(&mut self, key: u64, value: u64) -> Result<u64, Refusal> {
        Ok(JudyL::insert(self, key, value)?.unwrap_or(0))
    }

    fn slot(&mut self, key: u64) -> Option<&mut u64> {
        JudyL::slot(self, key)
    }

    fn get(&self, key: u64) -> Option<u64> {
        JudyL::get(self, key)
    }

    fn del(&mut self, key: u64) -> bool {
        JudyL::del(self, key)
    }

    ghost is_total = { nat_cmp_total };

    ghost is_antisymmetric = { nat_cmp-IsAntisymmetric };

    ghost writes = { λ array key value. refl };
}

impl<'b> ValueMap<&'b [u8]> for JudySl {
    ghost use Rattle.std.specs.Prelude.{refl};
    ghost use Rattle.judy_model.specs.Keys.{IsStringKey, byte_order};
    ghost use Rattle.judy_model.specs.Arrays.{judysl};

    ghost Key = { List ℕ };

    ghost order = { byte_order };

    ghost key_of = { λ key. key.now };

    ghost IsKey = { IsStringKey };

    ghost array_of = { λ array. array };

    ghost kind_of = { judysl };

    ghost written = { λ array key value. with_value array key.now value };

    fn insert(&mut self, key: &'b [u8], value: u64) -> Result<u64, Refusal> {
        let slot = JudySl::ins(self, key)?;
        Ok(replace(slot, value))
    }

    fn slot(&mut self, key: &'b [u8]) -> Option<&mut u64> {
        JudySl::slot(self, key)
    }

    fn get(&self, key: &'b [u8]) -> Option<u64> {
        JudySl::get(self, key)
    }

    fn del(&mut self, key: &'b [u8]) -> bool {
        JudySl::del(self, key)
    }

    ghost is_total = { nat_list_cmp_total };

    ghost is_antisymmetric = { slice_cmp-IsAntisymmetric nat_cmp-IsAntisymmetric };

    ghost writes = { λ array key value. refl };
}

impl<'b> ValueMap<&'b [u8]> for JudyHs<Fnv1a> {
    ghost use Rattle.std.specs.Prelude.{refl};
    ghost use Rattle.judy_model.specs.Keys.{IsBytesKey, byte_order};
    ghost use Rattle.judy_model.specs.Arrays.{judyhs};

    ghost Key = { List ℕ };

    ghost order = { byte_order };

    ghost key_of = { λ key. key.now };

    ghost IsKey = { IsBytesKey };

    ghost array_of = { λ array. array };

    ghost kind_of = { judyhs };

    ghost written = { λ array key value. with_value array key.now value };

    fn insert(&mut self, key: &'b [u8], value: u64) -> Result<u64, Refusal> {
        let slot = JudyHs::<Fnv1a>::ins(self, key)?;
        Ok(replace(slot, value))
    }

    fn slot(&mut self, key: &'b [u8]) -> Option<&mut u64> {
        JudyHs::<Fnv1a>::slot(self, key)
    }

    fn get(&self, key: &'b [u8]) -> Option<u64> {
        JudyHs::<Fnv1a>::get(self, key)
    }

    fn del(&mut self, key: &'b [u8]) -> bool {
        JudyHs::<Fnv1a>::del(self, key)
    }

    ghost is_total = { nat_list_cmp_total };

    ghost is_antisymmetric = { slice_cmp-IsAntisymmetric nat_cmp-IsAntisymmetric };

    ghost writes = { λ array key value. refl };
}

/// What a command of one key does to the array. The key is what a token said, or why it was refused.
#[inline(always)]
pub(crate) fn map_on_key<K: Drop, M: ValueMap<K>>(
    map: &mut M,
    command: KeyCommand,
    key: Result<K, Refusal>,
) -> Reply<'static>
    ensures { Follows (M.kind_of (M.array_of map.old))
        (model.map_on_key M.kind_of (key_command_of command) (M.array_of map.old)
        (said M.key_of key)) (reply_of result) (M.kind_of (M.array_of map.new)) }
{
    match command {
        KeyCommand::Get => Ok(number_or_nothing(map.get(key?))),
        KeyCommand::Del => Ok(Answer::Flag(map.del(key?))),
        _ => Err(Refusal::WrongKind),
    }
}

/// What a command of a key and a value does to the array.
#[inline(always)]
pub(crate) fn map_on_pair<K: Drop, M: ValueMap<K>>(
    map: &mut M,
    command: PairCommand,
    key: Result<K, Refusal>,
    value: &[u8],
) -> Reply<'static>
    requires { IfOk key (λ key. M.IsKey (M.key_of key)) }
    ensures { Follows (M.kind_of (M.array_of map.old))
        (model.map_on_pair M.kind_of (pair_command_of command) (M.array_of map.old)
        (said M.key_of key) value.now) (reply_of result) (M.kind_of (M.array_of map.new)) }
{
    match command {
        PairCommand::Ins => insert(map, key?, word(value)?),
        PairCommand::Put => Ok(overwrite(map, key?, word(value)?)),
        PairCommand::Count => Err(Refusal::WrongKind),
    }
}

// Gives the key, which is new or not, the value, and answers the one that it had.
#[inline(always)]
fn insert<K, M: ValueMap<K>>(map: &mut M, key: K, value: u64) -> Reply<'static>
    requires { M.IsKey (M.key_of key) }
    ensures { Follows (M.kind_of (M.array_of map.old))
        (model.inserted M.kind_of (M.array_of map.old) (M.key_of key) value) (reply_of result)
        (M.kind_of (M.array_of map.new)) }
{
    Ok(Answer::Was(map.insert(key, value)?))
}

// Writes the value through the slot of the key, where it is there.
fn overwrite<K, M: ValueMap<K>>(map: &mut M, key: K, value: u64) -> Answer<'static>
    ensures { Follows (M.kind_of (M.array_of map.old))
        (Ok (model.overwritten M.kind_of (M.array_of map.old) (M.key_of key) value
        (finite.get (M.array_of map.old).map (M.key_of key)))) (Ok (answer_of result))
        (M.kind_of (M.array_of map.new)) }
{
    match map.slot(key) {
        Some(slot) => Answer::Was(replace(slot, value)),
        None => Answer::Nothing,
    }
}
