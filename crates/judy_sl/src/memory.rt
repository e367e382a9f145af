//! How many bytes of memory an array has asked for.

use crate::arena::Arena;
use crate::judysl::StringsOf;
use crate::keys::KeyLength;

impl Arena {
    // Those of its levels and tails.
    fn bytes(&self) -> u64 {
        let levels = self.root.bytes().wrapping_add(self.levels.bytes());
        levels.wrapping_add(self.tails.bytes())
    }
}

impl<L: KeyLength> StringsOf<L> {
    /// How many bytes of memory the array has asked for beside its own place: those of its levels' nodes, of its tails'
    /// pages, and of the lists of both and of counts, as they were asked for, without what the allocator takes beside
    /// each block. It goes over all nodes and pages, and reads no key; it asks for no memory and changes nothing. (This
    /// project's own.)
    ///
    /// The number is tested and not proved, since contracts see no room in blocks. An array that is new, or that has
    /// lost its last key, has asked for none.
    ///
    /// ```
    /// let mut array = JudySl::new(Global, 1000);
    /// // array.bytes() == 0
    /// *array.ins(b"seven")? = 7;
    /// // array.bytes() == 0: the one piece of this key stands in the array's own place
    /// ```
    pub fn bytes(&self) -> u64 {
        let counts = self.firsts.bytes().wrapping_add(self.lists.bytes());
        self.arena.bytes().wrapping_add(counts)
    }
}
