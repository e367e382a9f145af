//! How levels come to tell how many keys stand behind them: the way of an insert or a delete notes those that it
//! passes. Once a key is in, it is counted there, and before one goes, it is counted no more. Where the places aren't
//! noted but how many there are, another way down passes the same levels.

ghost use Rattle.std.specs.Prelude.{◌≡◌, ◌<◌, ◌≤◌, ℕ, List, Some, IsSome, IfOk, OnOk, OnErr, length, take};
ghost use Rattle.std.specs.FinMap as map;
ghost use Rattle.judy_sl.specs.WorldInvariants.{AllLed};
ghost use Rattle.judy_sl.specs.Arenas.{world_of, child_at, map_of, IsArena};
ghost use Rattle.judy_sl.specs.Children.{IsLevelChild};
ghost use Rattle.judy_sl.specs.Places.{with_child};
ghost use Rattle.judy_sl.specs.Pieces.{piece_of};
ghost use Rattle.judy_sl.specs.Stepped.{child_stepped, ChildCanStep, entry_under};
ghost use Rattle.judy_sl.specs.Ways.{seat_in, levels_passed, IsWay, IsNew};
ghost use Rattle.judy_sl.specs.Noted.{AreNoted, AreFirstPassed};
ghost use Rattle.judy_sl.specs.Grown.{IsAdded, IsSame};
ghost use Rattle.judy_sl.specs.Listed.{StaysLed};
ghost use Rattle.judy_sl.specs.Counted.{AreCounted, AreOnce, CanStepAt, AreStepped};
ghost use Rattle.judy_sl.specs.Strings.{IsString};

use crate::arena::{Arena, Place, Way};
use crate::passed::Noted;
use crate::pieces::first_piece;
use std::alloc::AllocError;

impl Arena {
    // Counts a key in behind the level at a place, or out.
    fn count_at(&mut self, at: u64, comes: bool)
        requires inside { IsLevelChild (child_at self.old at) }
        requires can { ChildCanStep comes (child_at self.old at) }
        ensures { self.new ≡ with_child self.old at (child_stepped comes (child_at self.old at)) }
    {
        let index = (at / 256) as usize;
        let keys = self.levels.keys(index);
        self.levels
            .set_keys(index, if comes { keys + 1 } else { keys - 1 });
    }

    // Counts a key in behind each of some levels, or out.
    fn count_places(&mut self, places: &[u64], comes: bool)
        requires is_arena { IsArena self.old }
        requires once { AreOnce places.now }
        requires can { CanStepAt comes self.old places.now }
        ensures { AreStepped comes self.old self.new places.now }
    {
        for at in places {
            self.count_at(*at, comes);
        }
    }

    // The place of the level to which the next piece of a key leads, from the first level or that of a child.
    pub fn level_under(&self, child: Option<u64>, rest: &[u8]) -> u64
        requires { IsSome (entry_under (world_of self.now (seat_in child)) (piece_of rest.now)) }
        ensures { entry_under (world_of self.now (seat_in child)) (piece_of rest.now)
            ≡ Some result }
    {
        match self.entries_of(child).get(first_piece(rest)) {
            Some(at) => at,
            None => unreachable!(),
        }
    }

    // Counts a key in behind each of so many levels, the first ones on its way, or out.
    #[inline(never)]
    fn count_way(&mut self, key: &[u8], count: usize, comes: bool)
        requires is_arena { IsArena self.old }
        requires is_key { IsString key.now }
        requires deep { count ≤ length (levels_passed (world_of self.old) key.now) }
        requires can { CanStepAt comes self.old
            (take count (levels_passed (world_of self.old) key.now)) }
        ensures { AreStepped comes self.old self.new
            (take count (levels_passed (world_of self.old) key.now)) }
    {
        let mut child = None;
        let mut rest = key;
        let mut left = count;
        'levels: while left > 0 {
            left -= 1;
            let at = self.level_under(child, rest);
            rest = &rest[8..];
            self.count_at(at, comes);
            child = Some(at);
        }
    }

    // Counts a key in behind each of the levels that are noted, or out: the first ones on its way.
    #[inline(always)]
    pub fn count_noted(&mut self, noted: Noted<'_>, key: &[u8], comes: bool)
        requires is_arena { IsArena self.old }
        requires is_key { IsString key.now }
        requires noted { (places : List ℕ) × AreNoted noted places
            × AreFirstPassed (world_of self.old) key.now places
            × CanStepAt comes self.old places }
        ensures { (places : List ℕ) → AreNoted noted.entry places
            → AreFirstPassed (world_of self.old) key.now places
            → AreStepped comes self.old self.new places }
    {
        match noted {
            Noted::Places(places) => self.count_places(places, comes),
            Noted::Count(count) => self.count_way(key, count, comes),
        }
    }

    // Adds a key that isn't there, with the value 0, and counts it at the levels that its way passes.
    #[inline(always)]
    pub fn add_counted(
        &mut self,
        key: &[u8],
        way: Way,
        passed: Noted<'_>,
    ) -> Result<Place, AllocError>
        requires is_arena { IsArena self.old }
        requires counted { AreCounted self.old }
        requires led { AllLed (world_of self.old) }
        requires is_key { IsString key.now }
        requires way { IsWay self.old key.now way }
        requires new { IsNew way }
        requires passed { AreNoted passed (levels_passed (world_of self.old) key.now) }
        requires few { map.len (map_of self.old) < 4294967295 }
        ensures added { IfOk result (λ made. IsAdded self.old self.new key.now made) }
        ensures counted { AreCounted self.new }
        ensures stays { OnOk result (StaysLed self.old self.new) }
        ensures refused { OnErr result (IsSame self.old self.new) }
    {
        let made = self.add(key, way)?;
        self.count_noted(passed, key, true);
        Ok(made)
    }
}
