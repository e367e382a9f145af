//! How many bytes of memory an array has asked for.

ghost use Rattle.std.specs.Prelude.{◌≡◌, ◌≤◌};
ghost use Rattle.std.specs.FinMap as map;

use crate::word_array::WordArray;
use crate::word_map::WordMap;
use judy_leaf::Words;
use judy_unmetered::UNMETERED;

impl<V: Words + Drop> WordArray<V> {
    /// How many bytes of memory the array has asked for beside its own place: those of the blocks of its nodes, as they
    /// were asked for, without what the allocator takes beside each. It goes over all nodes, asks for no memory and
    /// changes nothing. (This project's own; the manual has J1MU and JLMU, Judy1MemUsed and JudyLMemUsed, which answer
    /// the like in libJudy's count.)
    ///
    /// An array of at most one key has asked for none. Else the number is tested and not proved, since contracts see
    /// no room in blocks.
    ///
    /// ```
    /// let mut set = Judy1::new(Global, 1000);
    /// set.set(7)?;
    /// // set.bytes() == 0
    /// for key in 0..=255 { set.set(key)?; }
    /// // set.bytes() == 40: one block of a header and four words of bits
    /// ```
    pub fn bytes(&self) -> u64
        ensures { map.len self.now.map ≤ 1 → result ≡ 0 }
    {
        let tree = self.tree();
        tree.law();
        tree.root().bytes(UNMETERED)
    }
}

impl WordMap {
    /// The same as of a [`crate::JudyL`].
    pub fn bytes(&self) -> u64
        ensures { map.len self.now.map ≤ 1 → result ≡ 0 }
    {
        self.array().bytes()
    }
}
