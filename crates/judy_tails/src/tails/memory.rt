// How many bytes of memory all tails have asked for.
use super::Tails;

impl Tails {
    /// How many bytes of memory the tails have asked for: those of their pages, of the blocks of longer texts, and of
    /// the lists of both. It goes over pages and over longer texts, and reads none. The number is tested and not
    /// proved, since contracts see no room in lists.
    ///
    ///     Tails::new(Global).bytes() == 0
    pub fn bytes(&self) -> u64 {
        self.short.bytes().wrapping_add(self.long.bytes())
    }
}
