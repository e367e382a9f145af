//! What is asked of a key, how many keys stand where, and which key is the n-th.

ghost use Rattle.std.specs.Prelude.{◌≡◌, ◌+◌, ◌≤◌, length, map as mapped};
ghost use Rattle.std.specs.FinMap as map;
ghost use Rattle.judy_model.specs.Counts as counts;
ghost use Rattle.judy_node.specs.Trees.{branch_pairs};
ghost use Rattle.judy_node.specs.declared.view.ViewOf.TheVariants.{Branch};
ghost use Rattle.judy_query.specs.Maps.{map_of};
ghost use Rattle.judy_query.specs.Parts.{IsShown};
ghost use Rattle.judy_word.specs.Held.{map_in};

use crate::tree_array::TreeArray;
use judy_bits::Meter;
use judy_leaf::Words;
use judy_node::BranchOf;
use judy_query::{
    MOST_WAYS, Start, lookup, lookup_further, lookup_many, lookup_one, lookup_start, rank,
};
use judy_unmetered::UNMETERED;

impl<V: Words + Drop> TreeArray<V> {
    /// The value of a key, 0 where keys have no value; `None` where it is absent.
    // A key of a small array, whose root is a leaf, is found in the caller; any other by a call.
    #[inline(always)]
    pub fn get(&self, key: u64) -> Option<u64>
        ensures { result ≡ map.get (map_in self.now) key }
    {
        match lookup_start(&self.root, key, &mut Meter::new(UNMETERED)) {
            Start::Found(value) => value,
            Start::Further(branch) => get_further(branch, key),
            Start::Other => self.get_other(key),
        }
    }

    // The same, where the root is no leaf and no branch. Since it is told to be rare, a leaf and a branch are asked for
    // first. It does no more than compare the only pair: for anything else it would save registers first.
    #[cold]
    #[inline(never)]
    fn get_other(&self, key: u64) -> Option<u64>
        ensures { result ≡ map.get (map_in self.now) key }
    {
        match lookup_one(&self.root, key, &mut Meter::new(UNMETERED)) {
            Start::Found(value) => value,
            _ => self.get_in_any(key),
        }
    }

    // The same, whatever the root is.
    #[inline(never)]
    fn get_in_any(&self, key: u64) -> Option<u64>
        ensures { result ≡ map.get (map_in self.now) key }
    {
        lookup(&self.root, key, &mut Meter::new(UNMETERED))
    }

    /// The values of keys, each written to the place of its key: what `get` answers of it. The ways of up to 16 keys go
    /// down the tree side by side.
    #[tactic(auto, using(crate::proofs::Groups::group_more))]
    pub fn get_many(&self, keys: &[u64], values: &mut [Option<u64>])
        requires { length values.old ≡ length keys.now }
        ensures { values.new ≡ mapped (λ key. map.get (map_in self.now) key) keys.now }
    {
        let mut at = 0;
        'groups: while at < keys.len() {
            let end = at + (keys.len() - at).min(MOST_WAYS);
            lookup_many(
                &self.root,
                &keys[at..end],
                &mut values[at..end],
                &mut Meter::new(UNMETERED),
            );
            at = end;
        }
    }

    /// Whether a key is there.
    // A call, since an insert asks it only of an array that is full.
    #[inline(never)]
    pub fn has(&self, key: u64) -> bool
        ensures { result ≡ map.contains_key (map_in self.now) key }
    {
        self.get(key).is_some()
    }

    /// Whether keys are there, each told at the place of its key: what `has` answers of it. The ways of up to 16 keys
    /// go down the tree side by side.
    #[tactic(auto, using(crate::proofs::Groups::group_more))]
    pub fn has_many(&self, keys: &[u64], there: &mut [bool])
        requires { length there.old ≡ length keys.now }
        ensures { there.new ≡ mapped (λ key. map.contains_key (map_in self.now) key) keys.now }
    {
        let mut at = 0;
        'groups: while at < keys.len() {
            let end = at + (keys.len() - at).min(MOST_WAYS);
            self.has_few(&keys[at..end], &mut there[at..end]);
            at = end;
        }
    }

    // The same of keys that go side by side.
    fn has_few(&self, keys: &[u64], there: &mut [bool])
        requires few { length keys.now ≤ 16 }
        requires room { length there.old ≡ length keys.now }
        ensures { there.new ≡ mapped (λ key. map.contains_key (map_in self.now) key) keys.now }
    {
        let mut values = [None; MOST_WAYS];
        lookup_many(
            &self.root,
            keys,
            &mut values[..keys.len()],
            &mut Meter::new(UNMETERED),
        );
        'there: for at in 0..keys.len() {
            there[at] = values[at].is_some();
        }
    }

    // How many keys are below a word.
    fn rank(&self, key: u64) -> u64
        ensures { result ≡ counts.rank (map_in self.now) key }
    {
        rank(&self.root, key, &mut Meter::new(UNMETERED))
    }

    // How many keys are at or below a word.
    fn count_up_to(&self, key: u64) -> u64
        ensures { result ≡ counts.count_up_to (map_in self.now) key }
    {
        self.law();
        if key == u64::MAX {
            self.len()
        } else {
            self.rank(key + 1)
        }
    }

    /// How many keys there are from one word to another, both included; 0 where the first is above the second.
    pub fn count(&self, from: u64, to: u64) -> u64
        ensures { result ≡ counts.count (map_in self.now) from to }
    {
        self.count_up_to(to).saturating_sub(self.rank(from))
    }

    /// The n-th key by ascending order, counted from 1; `None` for 0, and above the number of keys.
    pub fn by_count(&self, n: u64) -> Option<u64>
        ensures { result ≡ counts.by_count (map_in self.now) n }
    {
        let (key, _) = self.by_count_entry(n)?;
        Some(key)
    }
}

// The value of a key of a branch at a root.
#[inline(never)]
fn get_further<V: Words + Drop>(branch: &BranchOf<V>, key: u64) -> Option<u64>
    requires shown { IsShown V.WORDS (Branch branch) }
    requires wide { length branch.now.skip + 1 + branch.now.width ≡ 8 }
    ensures { result ≡ map.get
        (map_of
        (branch_pairs branch.now.width branch.now.skip branch.now.bytes branch.now.children.items))
        key }
{
    lookup_further(branch, key, &mut Meter::new(UNMETERED))
}
