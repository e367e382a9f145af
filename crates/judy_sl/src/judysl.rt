//! The array that maps keys without zero bytes to words.

ghost use Rattle.std.specs.Prelude.{◌≡◌, ◌≢◌, ◌||◌, ◌+◌, ◌*◌, ◌<◌, ◌≤◌, ◌↔◌, max, length, Some, IfOk, OnOk, IfErr, IsTrue, IsFalse};
ghost use Rattle.std.specs.Borrow.{sem};
ghost use Rattle.std.specs.FinMap as map;
ghost use Rattle.std.specs.Option.{option_copied_mut};
ghost use Rattle.judy_model.specs.Arrays as array;
ghost use Rattle.judy_sl.specs.Pieces.{EndsWell};
ghost use Rattle.judy_sl.specs.Refusals.{IsUnfit};

use crate::arena::{Arena, Way};
use crate::error::SlError;
use crate::firsts;
use crate::keys::{AnyLength, KeyLength, StoreKeys, is_key_of};
use crate::passed::{FEW_PIECES, LevelNotes, MOST_PIECES, Number, Passed, are_few, are_listed};
use crate::pieces::ends_in_zero;
use judy_sums::{LevelSums, Sums};
use std::alloc::Global;
use std::marker::{Model, PhantomData};

/// An array that maps keys, strings of bytes without zeros, to words. A key has at most `L::LONGEST` bytes, and the
/// array holds at most as many keys as its limit (both limits are this project's own).
#[derive(Drop)]
pub struct StringsOf<L: KeyLength> {
    keys: PhantomData<L>,
    limit: u64,
    count: u64,
    // No key has more bytes.
    longest: usize,
    // How many keys went since tails last went together.
    pub(crate) gone: u64,
    pub(crate) arena: Arena,
    // How many keys begin with each first piece, less one.
    pub(crate) firsts: Sums,
    // The same of each next piece behind wide levels below the first.
    pub(crate) lists: LevelSums,
    // Whether one of the last two inserts put a key in whose first piece led nowhere. The next one is then tried as
    // such a one, which finds its place and puts it in by one way down the first level.
    expects_new: bool,
    // Whether the last one did.
    added: bool,
}

/// An array as a store has them: its keys have at most 1,024 bytes.
pub type JudySl = StringsOf<StoreKeys>;

/// An array whose keys have any length: at most 9,223,372,036,854,775,807 bytes, as many as memory that is lent may
/// have.
pub type LongStrings = StringsOf<AnyLength>;

impl<L: KeyLength> Model for StringsOf<L> {
    ghost use Rattle.std.specs.Coded.{coded_list, coded_ℕ};
    ghost use Rattle.judy_model.specs.Keys.{byte_order};
    ghost use Rattle.judy_model.specs.Arrays.{ArrayOf, array_code};

    ghost Value = { ArrayOf byte_order };

    ghost coded = { array_code (coded_list coded_ℕ) };

    ghost use Rattle.judy_sl.specs.Arenas.{array_of, map_of, world_of, IsStrings};
    ghost use Rattle.judy_sl.specs.Counted.{AreCounted};
    ghost use Rattle.judy_sl.specs.Firsts.{AreFirsts};
    ghost use Rattle.judy_sl.specs.Listed.{AreListed};

    ghost view = { λ a. array_of a.limit a.arena };

    ghost invariant = { λ a. IsStrings L.LONGEST a.longest a.limit a.count a.arena
        × AreCounted a.arena × AreFirsts (map_of a.arena) a.firsts
        × AreListed (world_of a.arena) a.lists };
}

// Raises a length to that of a key, if it is longer. Few keys are, so the test is nearly never true.
#[inline(always)]
fn lengthen(longest: &mut usize, len: usize)
    ensures { longest.new ≡ max longest.old len }
{
    if len > *longest {
        *longest = len;
    }
}

// Takes note of an insert: whether it put a key in whose first piece led nowhere. The next one is then expected to be
// such a one, and so it is where the insert before was one.
#[inline(always)]
fn remember(expects_new: &mut bool, added: &mut bool, first: bool)
    ensures expects_new { expects_new.new ≡ (first || added.old) }
    ensures added { added.new ≡ first }
{
    *expects_new = first | *added;
    *added = first;
}

// Whether bytes that aren't there may become a key of an array with so many keys: `BadKey` where they are no key, and
// else `Full` where it has as many as its limit.
// Within its callers, of which there is one for each kind of notes.
#[inline(always)]
fn accept<L: KeyLength>(key: &[u8], count: u64, limit: u64) -> Result<(), SlError>
    ensures accepted { OnOk result (L.IsKey key.now × (count ≢ limit)) }
    ensures refused { IfErr result (IsUnfit L.IsKey count limit key.now) }
{
    if !is_key_of::<L>(key) {
        return Err(SlError::BadKey);
    }
    if count == limit {
        return Err(SlError::Full);
    }
    Ok(())
}

impl<L: KeyLength> StringsOf<L> {
    ghost use Rattle.judy_sl.specs.Lends.{LendsSlot, LendsIns};
    ghost use Rattle.judy_sl.specs.Refusals.{IsRefusal};
    ghost use Rattle.judy_sl.specs.Arenas.{array_of, map_of, AreWithin, IsStrings};
    ghost use Rattle.judy_sl.specs.Counted.{AreCounted};
    ghost use Rattle.judy_sl.specs.Firsts.{AreFirsts};

    /// The empty array that holds at most `limit` keys, from 1 to 4,294,967,295 (limit: this project's own).
    /// It asks for no memory before the first insert.
    pub fn new(alloc: Global, limit: u64) -> StringsOf<L>
        requires some { 1 ≤ limit }
        requires most { limit ≤ 4294967295 }
        ensures { result ≡ array.empty_array limit }
    {
        StringsOf {
            keys: PhantomData,
            limit,
            count: 0,
            longest: 0,
            gone: 0,
            arena: Arena::new(alloc),
            firsts: Sums::new(alloc),
            lists: LevelSums::new(alloc),
            expects_new: true,
            added: true,
        }
    }

    // The array of an arena in which no two keys begin with the same piece, and none has more than so many bytes.
    pub(crate) fn of(longest: usize, limit: u64, count: u64, arena: Arena) -> StringsOf<L>
        requires strings { IsStrings L.LONGEST longest limit count arena }
        requires counted { AreCounted arena }
        requires firsts { AreFirsts (map_of arena) map.empty }
        ensures { result ≡ array_of limit arena }
    {
        let firsts = Sums::new(arena.alloc);
        let lists = LevelSums::new(arena.alloc);
        StringsOf {
            keys: PhantomData,
            limit,
            count,
            longest,
            gone: 0,
            arena,
            firsts,
            lists,
            expects_new: true,
            added: true,
        }
    }

    /// The slot of the key, which is put in with the value 0 where it is absent; a key that is there keeps its value,
    /// and is never refused. What the caller leaves in the slot is then the key's value. (Manual: JSLI, JudySLIns.)
    ///
    /// `BadKey` where the bytes are no key. `Full` where they are an absent one and the array holds as many keys as its
    /// limit (both limits are this project's own). `NoMemory` only where they are an absent one and the array isn't
    /// full.
    /// Each leaves the array as it was.
    ///
    /// Where memory is refused, what is left of keys moves together as by `shrink`, if at least one key went since the
    /// last time for each 32 keys and levels that are there. Where something moved, the insert is tried again. (This
    /// project's own.)
    pub fn ins(&mut self, key: &[u8]) -> Result<&mut u64, SlError>
        ensures* writes_back { sem 𝓛 (LendsIns L.row L.KeyLength self.entry key.now result) }
        ensures value { IfOk result
            (λ slot. Some slot.now ≡ map.get (array.ins self.old.map key.now) key.now) }
        ensures accepted { OnOk result
            (L.IsKey key.now × IsFalse (array.is_full self.old key.now)) }
        ensures refused { IfErr result (IsRefusal L.IsKey self.old key.now) }
    {
        if ends_in_zero(key) {
            return Err(SlError::BadKey);
        }
        if are_few(key) {
            self.ins_noted::<Passed<FEW_PIECES>>(key)
        } else if are_listed(key) {
            self.ins_noted::<Passed<MOST_PIECES>>(key)
        } else {
            self.ins_noted::<Number>(key)
        }
    }

    // The same for bytes of which the last isn't zero, by notes that are for as many levels as a key's way may pass.
    fn ins_noted<N: LevelNotes + Drop>(&mut self, key: &[u8]) -> Result<&mut u64, SlError>
        requires ends { EndsWell key.now }
        requires few { L.IsKey key.now → length key.now < 8 * N.most + 8 }
        ensures* writes_back { sem 𝓛 (LendsIns L.row L.KeyLength self.entry key.now result) }
        ensures value { IfOk result
            (λ slot. Some slot.now ≡ map.get (array.ins self.old.map key.now) key.now) }
        ensures accepted { OnOk result
            (L.IsKey key.now × IsFalse (array.is_full self.old key.now)) }
        ensures refused { IfErr result (IsRefusal L.IsKey self.old key.now) }
    {
        let tries = self.expects_new & (self.count != self.limit);
        if let Some(place) = self
            .arena
            .try_first::<L>(key, tries, self.count, &mut self.gone)?
        {
            self.count += 1;
            lengthen(&mut self.longest, key.len());
            self.added = true;
            return Ok(self.arena.lend(place));
        }
        let mut passed = N::none();
        match self.arena.walk(key, &mut passed) {
            Way::At(place) => {
                remember(&mut self.expects_new, &mut self.added, false);
                Ok(self.arena.lend(place))
            }
            way => {
                accept::<L>(key, self.count, self.limit)?;
                let passed = passed.noted();
                let made = firsts::insert(
                    &mut self.arena,
                    &mut self.firsts,
                    &mut self.lists,
                    key,
                    way,
                    passed,
                    self.count,
                    &mut self.gone,
                )?;
                self.count += 1;
                lengthen(&mut self.longest, key.len());
                remember(&mut self.expects_new, &mut self.added, way.ends_first());
                Ok(self.arena.lend(made))
            }
        }
    }

    /// The value of the key, and `None` where it is absent; bytes that are no key answer as an absent one.
    /// (Manual: JSLG, JudySLGet.)
    pub fn get(&self, key: &[u8]) -> Option<u64>
        ensures { result ≡ map.get self.now.map key.now }
    {
        let arena = &self.arena;
        if ends_in_zero(key) {
            return None;
        }
        arena.get(key)
    }

    /// The slot of the key, and `None` where it is absent; bytes that are no key answer as an absent one. What the
    /// caller leaves in the slot is then the key's value. (Manual: JSLG, JudySLGet, whose answer is this slot.)
    pub fn slot(&mut self, key: &[u8]) -> Option<&mut u64>
        ensures* writes_back { sem 𝓛 (LendsSlot L.row L.KeyLength self.entry key.now result) }
        ensures value { option_copied_mut result ≡ map.get self.old.map key.now }
    {
        let arena = &self.arena;
        if ends_in_zero(key) {
            return None;
        }
        match arena.walk(key, &mut ()) {
            Way::At(place) => self.arena.slot(place),
            Way::Gap(_, _) => None,
            Way::Clash(_, _, _) => None,
        }
    }

    /// Takes the key out, and answers the value that it had; `None` where it was absent, as bytes that are no key are,
    /// and then nothing changes. It takes one way down the array. It can't fail and asks for no memory of its own. With
    /// the last key goes all the memory. (This project's own: a map's removal that tells the old value.)
    ///
    ///     prices.remove(b"apple")        // Some(30) where that was its price, and then None
    pub fn remove(&mut self, key: &[u8]) -> Option<u64>
        ensures answer { result ≡ map.get self.old.map key.now }
        ensures deleted { self.new ≡ array.with_map self.old (array.del self.old.map key.now) }
    {
        let arena = &self.arena;
        if !is_key_of::<L>(key) {
            return None;
        }
        let removed = firsts::remove(&mut self.arena, &mut self.firsts, &mut self.lists, key);
        if removed.is_some() {
            self.count -= 1;
            self.gone = self.gone.wrapping_add(1);
            self.give_back();
        }
        removed
    }

    /// Takes the key out, and answers whether it was there; bytes that are no key answer as an absent one. It can't
    /// fail and asks for no memory of its own. With the last key goes all the memory. (Manual: JSLD, JudySLDel.)
    pub fn del(&mut self, key: &[u8]) -> bool
        ensures answer { result ≡ map.contains_key self.old.map key.now }
        ensures deleted { self.new ≡ array.with_map self.old (array.del self.old.map key.now) }
    {
        self.remove(key).is_some()
    }

    // Gives back what is left of an array that holds no key: the lists of its levels and of its tails.
    fn give_back(&mut self)
        ensures { self.new ≡ self.old }
    {
        if self.is_empty() {
            self.free_array();
        }
    }

    /// How many keys the array holds: at most its limit, so at most 4,294,967,295. (This project's own.)
    pub fn len(&self) -> u64
        ensures count { result ≡ map.len self.now.map }
        ensures within { result ≤ self.now.limit }
        ensures most { result ≤ 4294967295 }
    {
        self.count
    }

    /// Whether the array holds no key.
    pub fn is_empty(&self) -> bool
        ensures { IsTrue result ↔ (self.now.map ≡ map.empty) }
    {
        self.count == 0
    }

    /// A length that no key exceeds, and so room for what each search finds: a walk asks for it once. It is the length
    /// of the longest key that came in since the array was last empty, also where that key has gone. (This project's
    /// own.)
    ///
    ///     let mut buffer = Vec::from_elem(alloc, 0, names.longest())?;
    ///     let mut len = 0;
    ///     let least = names.neighbour_in(Look::inclusive(Side::Above), &mut buffer, &mut len);
    pub fn longest(&self) -> usize
        ensures within { AreWithin result self.now.map }
        ensures most { result ≤ L.LONGEST }
    {
        self.longest
    }

    /// Whether the bytes are a key of such an array: at most `L::LONGEST`, none of them zero. (No zero byte: the
    /// manual's C strings; the limit is this project's own.)
    pub fn is_key(bytes: &[u8]) -> bool
        ensures { IsTrue result ↔ L.IsKey bytes.now }
    {
        is_key_of::<L>(bytes)
    }

    /// How many keys the array may hold: from 1 to 4,294,967,295 (limit: this project's own).
    pub fn limit(&self) -> u64
        ensures value { result ≡ self.now.limit }
        ensures some { 1 ≤ result }
        ensures most { result ≤ 4294967295 }
    {
        self.limit
    }

    /// Takes every key out, gives their memory back, and answers how many they were. The array keeps its limit and
    /// may be used again. (Manual: JSLFA, JudySLFreeArray, which answers the bytes freed.)
    pub fn free_array(&mut self) -> u64
        ensures freed { result ≡ map.len self.old.map }
        ensures emptied { self.new ≡ array.empty_array self.old.limit }
    {
        let freed = self.count;
        let alloc = self.arena.alloc;
        self.arena = Arena::new(alloc);
        self.firsts = Sums::new(alloc);
        self.lists = LevelSums::new(alloc);
        self.count = 0;
        self.longest = 0;
        self.gone = 0;
        freed
    }
}

impl JudySl {
    /// The same array as one whose keys may have any length. It moves no key. (This project's own.)
    pub fn with_any_length(self) -> LongStrings
        ensures { result ≡ self }
    {
        let StringsOf {
            keys: _,
            limit,
            count,
            longest,
            gone,
            arena,
            firsts,
            lists,
            expects_new,
            added,
        } = self;
        StringsOf {
            keys: PhantomData,
            limit,
            count,
            longest,
            gone,
            arena,
            firsts,
            lists,
            expects_new,
            added,
        }
    }
}
