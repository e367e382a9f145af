//! How an arena takes a new key. What is new is built beside the array, and room for its levels is reserved; a tail is
//! put in its place, to which nothing leads yet; then comes at most one insert into a level of the array, the last step
//! that can be refused, and where it is, the tail is taken out again. Only where a key is tried as a new one does that
//! insert come first.

ghost use Rattle.std.specs.Prelude.{ℕ, List, [], ◌≡◌, ◌+◌, ◌<◌, ◌≤◌, None, IfOk, IsOk, OnOk, IfErr, OnErr, IfSome, IsSome, IsTrue, length, take};
ghost use Rattle.std.specs.FinMap as map;
ghost use Rattle.judy_word.specs.Writes.{with_value};
ghost use Rattle.judy_tails.specs.Tails.{next_place, HasFree};
ghost use Rattle.judy_sl.specs.Pieces.{piece_of, IsText};
ghost use Rattle.judy_sl.specs.Children.{Tail, Level as LevelChild, IsTaken};
ghost use Rattle.judy_sl.specs.Arenas.{world_of, child_at, map_of, IsArena, HasRoom};
ghost use Rattle.judy_sl.specs.Places.{place_value, place_with};
ghost use Rattle.judy_sl.specs.Branches.{AreSingle};
ghost use Rattle.judy_sl.specs.Ways.{levels_passed, IsGap, IsClash, IsWay, IsNew};
ghost use Rattle.judy_sl.specs.WorldInvariants.{AllLed};
ghost use Rattle.judy_sl.specs.Counted.{AreCounted, AreCountedBut};
ghost use Rattle.judy_sl.specs.Firsts.{beginning};
ghost use Rattle.judy_sl.specs.Listed.{StaysLed};
ghost use Rattle.judy_sl.specs.Settled.{IsSettled};
ghost use Rattle.judy_sl.specs.Grown.{IsPut, IfShown, IsHung, AreHung, HasTwig, IsTwigText, IsSound, IsGraft, IsGrafted, IsAdded, IsSame};
ghost use Rattle.judy_model.specs.declared.keys.TheConstants.{LONGEST_STRING};
ghost use Rattle.judy_sl.specs.Strings.{IsString};

use crate::arena::{Arena, Place, Way};
use crate::branches::{Branch, Twig, branch_of};
use crate::child::{ChildRef, LEVEL};
use crate::keys::{KeyLength, is_key_of};
use crate::pieces::first_piece;
use judy_model::keys::LONGEST_KEY;
use judy_tails::{KeyFront, KeyHolder};
use judy_word::WordMap;
use std::alloc::AllocError;

// The most levels, so that each place is a word.
pub const MOST: usize = 36_028_797_018_963_968;

// Lets an entry of a level lead to the child at a place.
fn link(level: &mut WordMap, piece: u64, place: u64)
    requires { IsTrue (map.contains_key level.old.map piece) }
    ensures { level.new ≡ with_value level.old piece place }
{
    match level.slot(piece) {
        Some(slot) => *slot = place,
        None => unreachable!(),
    }
}

impl Arena {
    // Makes room for so many more levels. Those for which places are free need none.
    fn make_room(&mut self, more: usize) -> Result<(), AllocError>
        ensures same { IsSame self.old self.new }
        ensures tails { self.new.tails ≡ self.old.tails }
        ensures room { OnOk result (HasRoom self.new more) }
        ensures unasked { HasRoom self.old more → (self.new ≡ self.old) × IsOk result }
    {
        self.levels.reserve(more)?;
        if self.levels.capacity() > MOST {
            return Err(AllocError);
        }
        Ok(())
    }

    // Puts a level in, for which there is room, and answers its place. It tells two keys: that of the tail in whose
    // place it comes, and the one that comes in.
    fn put_level(&mut self, words: WordMap) -> u64
        requires room { HasRoom self.old 1 }
        ensures put { IsPut self.old self.new (LevelChild 2 words) result }
        ensures room { (more : ℕ) → HasRoom self.old (more + 1) → HasRoom self.new more }
    {
        let index = self.levels.put(words, 2);
        index as u64 * 256 + LEVEL
    }

    // Puts a tail in at the next place for its length, and answers that place. Where one of that length is free, no
    // memory is asked for.
    pub fn put_tail(&mut self, rest: &[u8], value: u64) -> Result<u64, AllocError>
        requires text { IsText rest.now }
        ensures place { IfOk result (λ at. at ≡ next_place self.old.tails (length rest.now)) }
        ensures put { IfOk result (λ at. IsPut self.old self.new (Tail ((rest.now, value))) at) }
        ensures unasked { HasFree self.old.tails (length rest.now) → IsOk result }
        ensures levels { self.new.levels ≡ self.old.levels }
        ensures refused { OnErr result (IsSame self.old self.new) }
    {
        self.tails.put(rest, value)
    }

    // The same at the place that the caller has asked for: so an insert of a key that is tried looks for the list of
    // its length once.
    #[inline(always)]
    fn put_tail_next(&mut self, at: u64, rest: &[u8], value: u64) -> Result<u64, AllocError>
        requires text { IsText rest.now }
        requires next { at ≡ next_place self.old.tails (length rest.now) }
        ensures place { IfOk result (λ place. place ≡ at) }
        ensures put { OnOk result (IsPut self.old self.new (Tail ((rest.now, value))) at) }
        ensures refused { OnErr result (IsSame self.old self.new) }
    {
        self.tails.put_next(at, rest, value)
    }

    // Tries a key of fewer than eight bytes as an absent one, and puts it in with the value 0 if so, by one way down
    // the first level. Answers as `try_add`.
    fn try_short<L: KeyLength>(&mut self, key: &[u8]) -> Result<Option<Place>, AllocError>
        requires is_arena { IsArena self.old }
        requires counted { AreCounted self.old }
        requires led { AllLed (world_of self.old) }
        requires short { length key.now < 8 }
        ensures counted { AreCounted self.new }
        ensures key { IfShown result (L.IsKey key.now) }
        ensures absent { IfShown result (map.get (map_of self.old) key.now ≡ None) }
        ensures added { IfOk result
            (λ found. IfSome found (λ place. IsAdded self.old self.new key.now place)) }
        ensures first { IfOk result
            (λ found. IfSome found (λ place. beginning (map_of self.old) (piece_of key.now) ≡ 0)) }
        ensures stays { IfOk result (λ found. IsSome found → StaysLed self.old self.new) }
        ensures open { IfOk result (λ found. found ≡ None → self.new ≡ self.old) }
        ensures refused { OnErr result (IsSame self.old self.new) }
    {
        if !is_key_of::<L>(key) {
            return Ok(None);
        }
        let piece = first_piece(key);
        let added = self.root.put_if_absent(piece, 0)?;
        if added {
            Ok(Some(Place::Root(piece)))
        } else {
            Ok(None)
        }
    }

    // Tries a key as one whose first piece leads nowhere, and puts it in with the value 0 if so: one way down the first
    // level shows that and puts the piece in. Only then is more memory asked for, so that none is for a key that is
    // there; where it is refused, the piece goes again. Answers where the key stands, and `None` where it isn't to be
    // tried or its piece leads somewhere: then it is to be looked up.
    // Both lengths of lists that an insert may want call it, so it is told to be inlined: it is the whole of most
    // inserts of new keys.
    #[inline(always)]
    pub fn try_add<L: KeyLength>(
        &mut self,
        key: &[u8],
        tries: bool,
    ) -> Result<Option<Place>, AllocError>
        requires is_arena { IsArena self.old }
        requires counted { AreCounted self.old }
        requires led { AllLed (world_of self.old) }
        ensures tried { IfShown result (IsTrue tries) }
        ensures counted { AreCounted self.new }
        ensures key { IfShown result (L.IsKey key.now) }
        ensures absent { IfShown result (map.get (map_of self.old) key.now ≡ None) }
        ensures added { IfOk result
            (λ found. IfSome found (λ place. IsAdded self.old self.new key.now place)) }
        ensures first { IfOk result
            (λ found. IfSome found (λ place. beginning (map_of self.old) (piece_of key.now) ≡ 0)) }
        ensures stays { IfOk result (λ found. IsSome found → StaysLed self.old self.new) }
        ensures open { IfOk result (λ found. found ≡ None → self.new ≡ self.old) }
        ensures refused { OnErr result (IsSame self.old self.new) }
    {
        if !tries {
            return Ok(None);
        }
        if key.len() < 8 {
            return self.try_short::<L>(key);
        }
        if !is_key_of::<L>(key) {
            return Ok(None);
        }
        let next = self.tails.next_place(key.len() - 8);
        let piece = first_piece(key);
        let added = self.root.put_if_absent(piece, next)?;
        if !added {
            return Ok(None);
        }
        match self.put_tail_next(next, &key[8..], 0) {
            Ok(_) => Ok(Some(Place::Below(next, 0))),
            Err(error) => {
                self.root.del(piece);
                Err(error)
            }
        }
    }

    // The same; but where memory is refused and tails go together (`settle_again`), so that some comes back, it answers
    // that the key is to be looked up. It is told how many keys there are, and how many went since that was last done.
    #[inline(always)]
    pub fn try_first<L: KeyLength>(
        &mut self,
        key: &[u8],
        tries: bool,
        count: u64,
        gone: &mut u64,
    ) -> Result<Option<Place>, AllocError>
        requires is_arena { IsArena self.old }
        requires counted { AreCounted self.old }
        requires led { AllLed (world_of self.old) }
        ensures tried { IfShown result (IsTrue tries) }
        ensures counted { AreCounted self.new }
        ensures key { IfShown result (L.IsKey key.now) }
        ensures absent { IfShown result (map.get (map_of self.old) key.now ≡ None) }
        ensures added { IfOk result
            (λ found. IfSome found (λ place. IsAdded self.old self.new key.now place)) }
        ensures first { IfOk result
            (λ found. IfSome found (λ place. beginning (map_of self.old) (piece_of key.now) ≡ 0)) }
        ensures stays { IfOk result (λ found. IsSome found → StaysLed self.old self.new) }
        ensures open { IfOk result (λ found. found ≡ None → IsSettled self.old self.new) }
        ensures refused { OnErr result (IsSettled self.old self.new) }
    {
        match self.try_add::<L>(key, tries) {
            Ok(found) => Ok(found),
            Err(error) => {
                if self.settle_again(count, gone) {
                    Ok(None)
                } else {
                    Err(error)
                }
            }
        }
    }

    // Adds a key whose way ends at a place without an entry.
    fn fill(&mut self, key: &[u8], place: Place, left: usize) -> Result<Place, AllocError>
        requires is_arena { IsArena self.old }
        requires is_key { IsString key.now }
        requires gap { IsGap (world_of self.old) key.now place left }
        requires counted { AreCounted self.old }
        requires led { AllLed (world_of self.old) }
        ensures added { IfOk result (λ made. IsAdded self.old self.new key.now made) }
        ensures counted { IfOk result
            (λ made. AreCountedBut self.new (levels_passed (world_of self.old) key.now)) }
        ensures stays { OnOk result (StaysLed self.old self.new) }
        ensures refused { OnErr result (IsSame self.old self.new) }
    {
        if left < 8 {
            self.enter(place, 0)?;
            return Ok(place);
        }
        let at = self.put_tail(&key[key.len() - left + 8..], 0)?;
        match self.enter(place, at) {
            Ok(()) => Ok(Place::Below(at, 0)),
            Err(error) => {
                self.vacate(at);
                Err(error)
            }
        }
    }

    // Puts the tail in to which an entry of a level that stands beside the array is to lead, where one is to be, and
    // answers its place.
    fn hang(&mut self, level: &mut WordMap, twig: Option<Twig>) -> Result<Option<u64>, AllocError>
        requires there { HasTwig level.old twig }
        requires text { IsTwigText twig }
        ensures hung { IfOk result
            (λ at. IsHung self.old self.new level.old level.new twig.entry at) }
        ensures levels { self.new.levels ≡ self.old.levels }
        ensures refused { OnErr result (IsSame self.old self.new) }
    {
        let Some(Twig { piece, rest, value }) = twig else {
            return Ok(None);
        };
        let place = self.put_tail(rest, value)?;
        link(level, piece, place);
        Ok(Some(place))
    }

    // Hangs up both tails of a branch, or neither of them.
    fn hang_both(&mut self, branch: &mut Branch) -> Result<(), AllocError>
        requires { IsSound branch.now }
        ensures hung { OnOk result (AreHung self.old self.new branch.entry.now branch.exit.now) }
        ensures levels { OnOk result (self.new.levels ≡ self.old.levels) }
        ensures refused { OnErr result (IsSame self.old self.new) }
    {
        let old = self.hang(&mut branch.fork, branch.old)?;
        match self.hang(&mut branch.fork, branch.new) {
            Ok(_) => Ok(()),
            Err(error) => {
                if let Some(place) = old {
                    self.vacate(place);
                }
                Err(error)
            }
        }
    }

    // Lets the entry at a place lead elsewhere.
    pub fn lead(&mut self, from: Place, to: u64)
        requires { IsSome (place_value self.old from) }
        ensures { self.new ≡ place_with self.old from to }
    {
        *self.lend(from) = to;
    }

    // Puts the levels of a branch in whose tails are hung up, leads the entry at a place to the top one, and gives back
    // the tail to which it led.
    // None of this asks for memory. Answers where the top one stands.
    fn graft(&mut self, from: Place, at: u64, branch: Branch) -> u64
        requires room { HasRoom self.old (length branch.upper.items + 1) }
        requires taken { IsTaken (child_at self.old at) }
        requires entry { IsSome (place_value self.old from) }
        requires singles { AreSingle branch.upper.items }
        ensures { (before : Arena) (key : List ℕ) (left : ℕ) (made : Branch)
            → IsGraft before key from at left made → AreHung before self.old made branch.entry
            → IsGrafted before self.new key left result }
    {
        let mut upper = branch.upper;
        let mut level = branch.fork;
        while let Some((piece, above)) = upper.pop() {
            let place = self.put_level(level);
            level = above;
            link(&mut level, piece, place);
        }
        let place = self.put_level(level);
        self.lead(from, place);
        self.vacate(at);
        place
    }

    // Writes the bytes of the tail at a place to the front of a buffer where they find room, and answers its value and
    // how many bytes they are.
    pub fn read_tail(&self, at: u64, buffer: &mut [u8]) -> (u64, usize)
        requires tail { (rest : List ℕ × ℕ) × (child_at self.now at ≡ Tail rest)
            × (length rest.0 ≤ LONGEST_STRING) }
        ensures tail { (bytes : List ℕ) × (child_at self.now at ≡ Tail ((bytes, result.0)))
            × (result.1 ≡ length bytes)
            × (length bytes ≤ length buffer.old → take result.1 buffer.new ≡ bytes) }
        ensures room { length buffer.new ≡ length buffer.old }
    {
        match self.child(at) {
            ChildRef::Tail(tail) => {
                let mut key = KeyFront::new(buffer, 0);
                tail.push_to(&mut key);
                (tail.value(), key.len())
            }
            ChildRef::Level(_) => unreachable!(),
        }
    }

    // Adds a key whose way comes to another's tail. It has a buffer, which no other insert is to make room for; a tail
    // that is longer is copied before anything changes.
    #[inline(never)]
    fn split(&mut self, key: &[u8], from: Place, at: u64, left: usize) -> Result<Place, AllocError>
        requires is_arena { IsArena self.old }
        requires is_key { IsString key.now }
        requires clash { IsClash (world_of self.old) key.now from at left }
        requires counted { AreCounted self.old }
        requires led { AllLed (world_of self.old) }
        ensures added { IfOk result (λ made. IsAdded self.old self.new key.now made) }
        ensures counted { IfOk result
            (λ made. AreCountedBut self.new (levels_passed (world_of self.old) key.now)) }
        ensures stays { OnOk result (StaysLed self.old self.new) }
        ensures refused { OnErr result (IsSame self.old self.new) }
    {
        let mut buffer = [0; LONGEST_KEY];
        let (value, len) = self.read_tail(at, &mut buffer);
        if len <= LONGEST_KEY {
            return self.split_held(key, from, at, left, &buffer[..len], value);
        }
        let mut copy = Vec::from_elem(self.alloc, 0, len)?;
        self.read_tail(at, &mut copy);
        self.split_held(key, from, at, left, &copy, value)
    }

    // The same where the other's bytes are known, and its value.
    fn split_held(
        &mut self,
        key: &[u8],
        from: Place,
        at: u64,
        left: usize,
        held: &[u8],
        value: u64,
    ) -> Result<Place, AllocError>
        requires is_arena { IsArena self.old }
        requires is_key { IsString key.now }
        requires clash { IsClash (world_of self.old) key.now from at left }
        requires held { child_at self.old at ≡ Tail ((held.now, value)) }
        requires counted { AreCounted self.old }
        requires led { AllLed (world_of self.old) }
        ensures added { IfOk result (λ made. IsAdded self.old self.new key.now made) }
        ensures counted { IfOk result
            (λ made. AreCountedBut self.new (levels_passed (world_of self.old) key.now)) }
        ensures stays { OnOk result (StaysLed self.old self.new) }
        ensures refused { OnErr result (IsSame self.old self.new) }
    {
        let rest = &key[key.len() - left..];
        let mut made = branch_of(self.alloc, held, value, rest)?;
        self.make_room(made.upper.len() + 1)?;
        self.hang_both(&mut made)?;
        let top = self.graft(from, at, made);
        let level = match self.child(top) {
            ChildRef::Level(level) => level,
            ChildRef::Tail(_) => unreachable!(),
        };
        match self.walk_on(key, level, Some(top), left, &mut ()) {
            Way::At(place) => Ok(place),
            Way::Gap(_, _) => unreachable!(),
            Way::Clash(_, _, _) => unreachable!(),
        }
    }

    // Adds a key that isn't there, with the value 0.
    pub fn add(&mut self, key: &[u8], way: Way) -> Result<Place, AllocError>
        requires is_arena { IsArena self.old }
        requires counted { AreCounted self.old }
        requires led { AllLed (world_of self.old) }
        requires is_key { IsString key.now }
        requires way { IsWay self.old key.now way }
        requires new { IsNew way }
        ensures added { IfOk result (λ made. IsAdded self.old self.new key.now made) }
        ensures counted { IfOk result
            (λ made. AreCountedBut self.new (levels_passed (world_of self.old) key.now)) }
        ensures stays { OnOk result (StaysLed self.old self.new) }
        ensures refused { OnErr result (IsSame self.old self.new) }
    {
        match way {
            Way::At(_) => unreachable!(),
            Way::Gap(place, left) => self.fill(key, place, left),
            Way::Clash(from, at, left) => self.split(key, from, at, left),
        }
    }
}
