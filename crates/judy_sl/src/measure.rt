//! A writer of keys that counts their bytes alone.

ghost use Rattle.std.specs.Prelude.{◌≡◌, [], length};

use judy_tails::KeyWriter;

// The length of the key that it was given.
#[derive(Drop)]
pub struct Measure {
    pub len: usize,
}

impl KeyWriter for Measure {
    ghost len = { λ key. key.len };

    ghost has = { λ key bytes. key.len ≡ length bytes };

    ghost beyond = { λ key place. ([], 0, 0) };

    ghost has_len = { λ k bytes is. is };

    #[inline(always)]
    fn put(&mut self, byte: u8) {
        let _ = byte;
        self.len += 1;
    }

    #[inline(always)]
    fn put_eight(&mut self, bytes: &[u8; 8]) {
        self.len += bytes.len();
    }

    #[inline(always)]
    fn put_first(&mut self, bytes: &[u8; 8], count: usize) {
        let _ = bytes;
        self.len += count;
    }
}
