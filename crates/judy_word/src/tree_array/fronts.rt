//! The first of sorted pairs put in, as many at once as make one new node.

ghost use Rattle.std.specs.Prelude.{◌≡◌, ◌+◌, ◌^◌, ◌<◌, ◌≤◌, None, length, take, IfOk, OnOk, OnErr, IfErr, IfSome};
ghost use Rattle.std.specs.FinMap as map;
ghost use Rattle.judy_model.specs.Arrays as arrays;
ghost use Rattle.judy_node.specs.Trees.{IsMap};
ghost use Rattle.judy_word.specs.Held.{map_in, array_in, with_all};
ghost use Rattle.judy_word.specs.Refusals.{IsRefusalOfAll};

use crate::error::InsertError;
use crate::tree_array::TreeArray;
use judy_change::append;
use judy_leaf::Words;

// Puts sorted pairs in; a key that is there keeps its value. At an error some of them are put in: `Full` where there
// are more keys with all of them than the limit, else `NoMemory`.
pub(crate) fn set_all<V: Words + Drop>(
    array: &mut TreeArray<V>,
    pairs: &[(u64, u64)],
) -> Result<(), InsertError>
    requires one { V.WORDS ≤ 1 }
    requires map { IsMap V.WORDS 0 (256 ^ 8) pairs.now }
    ensures set { OnOk result
        (array_in array.new ≡ arrays.with_map (array_in array.old)
        (with_all (map_in array.old) pairs.now)) }
    ensures refused { IfErr result
        (IsRefusalOfAll
        (arrays.with_map (array_in array.old) (with_all (map_in array.old) pairs.now))) }
    ensures same { OnErr result
        (arrays.with_map (array_in array.new) (with_all (map_in array.new) pairs.now)
        ≡ arrays.with_map (array_in array.old) (with_all (map_in array.old) pairs.now)) }
    ensures loose { array.new.loose ≡ array.old.loose }
{
    let mut done = 0;
    'fronts: while done < pairs.len() {
        let Ok(count) = array.set_front(&pairs[done..]) else {
            return Err(array.refusal_of(pairs));
        };
        done += count;
    }
    Ok(())
}

impl<V: Words + Drop> TreeArray<V> {
    // How many more keys it may hold beside its own and those of sorted pairs; `None` where these are too many.
    pub(crate) fn room_beside(&self, pairs: &[(u64, u64)]) -> Option<u64>
        requires { IsMap V.WORDS 0 (256 ^ 8) pairs.now }
        ensures room { IfSome result
            (λ room. room + map.len (with_all (map_in self.now) pairs.now) ≡ self.now.limit) }
        ensures none { result ≡ None
            → self.now.limit < map.len (with_all (map_in self.now) pairs.now) }
    {
        let mut room = self.limit - self.len();
        'pairs: for (key, _) in pairs {
            if self.has(*key) {
                continue;
            }
            if room == 0 {
                return None;
            }
            room -= 1;
        }
        Some(room)
    }

    // Why sorted pairs can't all be put in: they are too many, or memory is wanting.
    fn refusal_of(&self, pairs: &[(u64, u64)]) -> InsertError
        requires { IsMap V.WORDS 0 (256 ^ 8) pairs.now }
        ensures { IsRefusalOfAll
            (arrays.with_map (array_in self.now) (with_all (map_in self.now) pairs.now)) result }
    {
        match self.room_beside(pairs) {
            Some(_) => InsertError::NoMemory,
            None => InsertError::Full,
        }
    }

    // Puts the first of sorted pairs in, at least one of them, and answers how many: as many as make one new node
    // behind all others, if there is memory for it, else one as `set_with` does. Refused as that is, and then the keys
    // and values stay.
    fn set_front(&mut self, pairs: &[(u64, u64)]) -> Result<usize, InsertError>
        requires one { V.WORDS ≤ 1 }
        requires some { 0 < length pairs.now }
        requires map { IsMap V.WORDS 0 (256 ^ 8) pairs.now }
        ensures some { IfOk result (λ count. 1 ≤ count) }
        ensures within { IfOk result (λ count. count ≤ length pairs.now) }
        ensures set { IfOk result
            (λ count. array_in self.new
            ≡ arrays.with_map (array_in self.old)
            (with_all (map_in self.old) (take count pairs.now))) }
        ensures unchanged { OnErr result (array_in self.new ≡ array_in self.old) }
        ensures loose { self.new.loose ≡ self.old.loose }
    {
        let count = self.append(pairs);
        if count > 0 {
            return Ok(count);
        }
        let (key, value) = pairs[0];
        self.set_with(key, value)?;
        Ok(1)
    }

    // Puts the first of sorted pairs behind all others, as many as make one new node, and answers how many, perhaps
    // none. They are none too where there is no memory for the node, or no room for all of the pairs.
    fn append(&mut self, pairs: &[(u64, u64)]) -> usize
        requires one { V.WORDS ≤ 1 }
        requires some { 0 < length pairs.now }
        requires map { IsMap V.WORDS 0 (256 ^ 8) pairs.now }
        ensures within { result ≤ length pairs.now }
        ensures set { array_in self.new
            ≡ arrays.with_map (array_in self.old)
            (with_all (map_in self.old) (take result pairs.now)) }
        ensures loose { self.new.loose ≡ self.old.loose }
    {
        self.root.law();
        if pairs.len() as u64 > self.limit - self.root.pop() {
            return 0;
        }
        let count = append(self.alloc, &mut self.root, pairs);
        self.root.law();
        count
    }
}
