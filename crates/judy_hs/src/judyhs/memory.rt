// How many bytes of memory an array has asked for.
use super::JudyHs;
use crate::hash::ByteHash;

impl<H: ByteHash + Drop> JudyHs<H> {
    /// How many bytes of memory the array has asked for beside its own place: those of its words' nodes, of its
    /// records' pages, and of the lists of both, as they were asked for, without what the allocator takes beside each
    /// block. It goes over all nodes and pages, and reads no key; it asks for no memory and changes nothing. (This
    /// project's own.)
    ///
    /// Keys that share their length and their hash with another one stand in trees of std, each counted as if its nodes
    /// were full: of those the array may have asked for more. So the number is the whole where no key of more than 8
    /// bytes ever shared its hash, and else at most that. It is tested and not proved, since contracts see no room in
    /// blocks. An array that is new, or that has lost its last key, has asked for none.
    ///
    /// ```
    /// let mut array = JudyHs::new(Global, 1000, Eights);
    /// // array.bytes() == 0
    /// *array.ins(b"seven")? = 7;
    /// // array.bytes() == 704: places for the keys of four lengths
    /// ```
    pub fn bytes(&self) -> u64 {
        self.groups.bytes()
    }
}
