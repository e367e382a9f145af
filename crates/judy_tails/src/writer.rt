//! Where a key is written byte behind byte: a buffer of its own, or the front of another's. A writer that has no room
//! left goes on to count, and a key that found room is handed out.

ghost use Rattle.std.specs.Prelude.{◌≡◌, ◌+◌, ◌<◌, ◌≤◌, ◌++◌, ℕ, List, [], ◌∷◌, MatchOption, length, take, drop};
ghost use Rattle.judy_model.specs.declared.keys.TheConstants.{LONGEST_KEY, LONGEST_STRING};
ghost use Rattle.judy_tails.specs.Writers.{StaysBeyond, fits_in, ends_there};

use arrayvec::ArrayVec;
use judy_model::keys::LONGEST_KEY;

/// What a key is given to, byte behind byte: it is written where there is room, and counted whole. Each call takes a
/// few instructions, however long the key is, and asks for no memory.
///
///     let mut key = KeyFront::new(&mut buffer, 3);
///     key.put_eight(b"le trees");
///     // key.len() == 11, and the key stands in the buffer where that has as many bytes
pub trait KeyWriter {
    /// How many bytes the key has that it was given.
    ghost len: { Self → ℕ };

    /// It was given a key of these bytes.
    ghost has: { Self → List ℕ → Type 0 };

    /// What isn't the key's from a place on, how much room there is, and whose it is. No call changes that behind the
    /// key.
    ghost beyond: { Self → ℕ → List ℕ × ℕ × ℕ };

    /// Puts a byte behind the key.
    fn put(&mut self, byte: u8)
        requires { len self.old < LONGEST_STRING }
        ensures len { len self.new ≡ len self.old + 1 }
        ensures has { (key : List ℕ) → has self.old key → has self.new (key ++ byte ∷ []) }
        ensures beyond { StaysBeyond len beyond self.old self.new };

    /// Puts eight bytes behind the key.
    fn put_eight(&mut self, bytes: &[u8; 8])
        requires { len self.old + 8 ≤ LONGEST_STRING }
        ensures len { len self.new ≡ len self.old + 8 }
        ensures has { (key : List ℕ) → has self.old key → has self.new (key ++ bytes.now) }
        ensures beyond { StaysBeyond len beyond self.old self.new };

    /// Puts the first so many of eight bytes behind the key.
    fn put_first(&mut self, bytes: &[u8; 8], count: usize)
        requires count { count ≤ 8 }
        requires room { len self.old + count ≤ LONGEST_STRING }
        ensures len { len self.new ≡ len self.old + count }
        ensures has { (key : List ℕ)
            → has self.old key → has self.new (key ++ take count bytes.now) }
        ensures beyond { StaysBeyond len beyond self.old self.new };

    /// The length is that of the bytes.
    ghost has_len: { (k : Self) (bytes : List ℕ) → has k bytes → len k ≡ length bytes };
}

/// A writer that hands out its key, where that found room whole.
///
///     let mut key = KeyFront::new(&mut buffer, 0);
///     key.put_eight(b"an apple");
///     key.cut(2);
///     // key.as_slice() == b"an", where the buffer has eight bytes
pub trait KeyHolder: KeyWriter {
    /// How many bytes there is room for.
    ghost room: { Self → ℕ };

    /// It has the whole key.
    ghost IsWhole: { Self → Type 0 };

    /// The bytes of the key, where it has it whole.
    ghost bytes: { Self → List ℕ };

    /// How many bytes the key has, whether they found room or not.
    fn len(&self) -> usize
        ensures { result ≡ Self.len self.now };

    /// The bytes of the key.
    fn as_slice(&self) -> &[u8]
        requires { IsWhole self.now }
        ensures bytes { result.now ≡ bytes self.now }
        ensures within { length result.now ≤ room self.now }
        ensures has { Self.has self.now (bytes self.now) };

    /// Cuts the key off behind so many bytes. It takes a few instructions.
    fn cut(&mut self, len: usize)
        requires whole { IsWhole self.old }
        requires within { len ≤ length (bytes self.old) }
        ensures has { Self.has self.new (take len (bytes self.old)) }
        ensures beyond { (place : ℕ) → Self.beyond self.new place ≡ Self.beyond self.old place };

    /// It has a key whole for which there is room.
    ghost fits: { (k : Self) (key : List ℕ)
        → Self.has k key → length key ≤ room k → IsWhole k × (bytes k ≡ key) };
}

/// The end of a buffer of its own, which ends with the key.
#[derive(Drop)]
pub struct KeyEnd<'a> {
    buffer: &'a mut ArrayVec<u8, LONGEST_KEY>,
    len: usize,
}

impl<'a> KeyEnd<'a> {
    /// Behind what the buffer has.
    #[inline(always)]
    pub fn new(buffer: &'a mut ArrayVec<u8, LONGEST_KEY>) -> KeyEnd<'a>
        ensures bytes { result.buffer.now ≡ buffer.old }
        ensures len { result.len ≡ length buffer.old.items }
        ensures same { result.buffer.ghost_name ≡ buffer.entry.ghost_name }
    {
        let len = buffer.len();
        KeyEnd { buffer, len }
    }
}

impl<'a> KeyWriter for KeyEnd<'a> {
    ghost len = { λ key. key.len };

    ghost has = { λ key bytes. (key.len ≡ length bytes)
        × (length bytes ≤ LONGEST_KEY → key.buffer.now.items ≡ bytes) };

    ghost beyond = { λ key place. ([], 0, key.buffer.ghost_name) };

    ghost has_len = { λ k bytes is. is.0 };

    #[inline(always)]
    fn put(&mut self, byte: u8) {
        let _ = self.buffer.try_push(byte);
        self.len += 1;
    }

    #[inline(always)]
    fn put_eight(&mut self, bytes: &[u8; 8]) {
        let _ = self.buffer.try_extend_from_slice(bytes);
        self.len += 8;
    }

    #[inline(always)]
    fn put_first(&mut self, bytes: &[u8; 8], count: usize) {
        let _ = self.buffer.try_extend_from_slice(&bytes[..count]);
        self.len += count;
    }
}

impl<'a> KeyHolder for KeyEnd<'a> {
    ghost room = { λ key. LONGEST_KEY };

    ghost IsWhole = { λ key. key.len ≡ length key.buffer.now.items };

    ghost bytes = { λ key. key.buffer.now.items };

    ghost fits = { λ k key is fits.
        (ends_there k.len k.buffer.now.items key is.0 (is.1 fits), is.1 fits) };

    #[inline(always)]
    fn len(&self) -> usize {
        self.len
    }

    #[inline(always)]
    fn as_slice(&self) -> &[u8] {
        self.buffer.as_slice()
    }

    #[inline(always)]
    fn cut(&mut self, len: usize) {
        self.buffer.truncate(len);
        self.len = len;
    }
}

/// The front of a buffer: the bytes behind the key stay as they are.
#[derive(Drop)]
pub struct KeyFront<'a> {
    buffer: &'a mut [u8],
    len: usize,
}

impl<'a> KeyFront<'a> {
    /// The key of so many bytes at the front of a buffer.
    #[inline(always)]
    pub fn new(buffer: &'a mut [u8], len: usize) -> KeyFront<'a>
        ensures bytes { result.buffer.now ≡ buffer.old }
        ensures len { result.len ≡ len }
        ensures same { result.buffer.ghost_name ≡ buffer.entry.ghost_name }
    {
        KeyFront { buffer, len }
    }

    // The eight bytes behind the key, where the buffer has as many.
    #[inline(always)]
    fn eight_behind(&self) -> Option<[u8; 8]>
        ensures { MatchOption result (length self.now.buffer.now < self.now.len + 8)
            (λ eight. (eight ≡ take 8 (drop self.now.len self.now.buffer.now))
            × (self.now.len + 8 ≤ length self.now.buffer.now)) }
    {
        self.buffer.get(self.len..)?.first_chunk::<8>().copied()
    }
}

impl<'a> KeyWriter for KeyFront<'a> {
    ghost len = { λ key. key.len };

    ghost has = { λ key bytes. (key.len ≡ length bytes)
        × (length bytes ≤ length key.buffer.now → take key.len key.buffer.now ≡ bytes) };

    ghost beyond = { λ key place.
        (drop place key.buffer.now, length key.buffer.now, key.buffer.ghost_name) };

    ghost has_len = { λ k bytes is. is.0 };

    #[inline(always)]
    fn put(&mut self, byte: u8) {
        if self.len < self.buffer.len() {
            self.buffer[self.len] = byte;
        }
        self.len += 1;
    }

    #[inline(always)]
    fn put_eight(&mut self, bytes: &[u8; 8]) {
        let end = self.len + 8;
        if end <= self.buffer.len() {
            self.buffer[self.len..end].copy_from_slice(bytes);
        }
        self.len = end;
    }

    #[inline(always)]
    fn put_first(&mut self, bytes: &[u8; 8], count: usize) {
        match self.eight_behind() {
            Some(stand) if count > 0 => {
                let eight = joined(bytes, &stand, count);
                self.buffer[self.len..self.len + 8].copy_from_slice(&eight);
                self.len += count;
            }
            _ => {
                for byte in &bytes[..count] {
                    self.put(*byte);
                }
            }
        }
    }
}

impl<'a> KeyHolder for KeyFront<'a> {
    ghost room = { λ key. length key.buffer.now };

    ghost IsWhole = { λ key. key.len ≤ length key.buffer.now };

    ghost bytes = { λ key. take key.len key.buffer.now };

    ghost fits = { λ k key is fits.
        (fits_in k.len (length k.buffer.now) key is.0 fits, is.1 fits) };

    #[inline(always)]
    fn len(&self) -> usize {
        self.len
    }

    #[inline(always)]
    fn as_slice(&self) -> &[u8] {
        &self.buffer[..self.len]
    }

    #[inline(always)]
    fn cut(&mut self, len: usize) {
        self.len = len;
    }
}

// The first so many of eight bytes, and the others of eight that stand. There is no branch, since how many they are
// can't be foreseen.
#[inline(always)]
fn joined(first: &[u8; 8], stand: &[u8; 8], count: usize) -> [u8; 8]
    requires some { 0 < count }
    requires most { count ≤ 8 }
    ensures { result ≡ take count first.now ++ drop count stand.now }
{
    let mask = (1 << (64 - 8 * count)) - 1;
    let word = u64::from_be_bytes(*first);
    let other = u64::from_be_bytes(*stand);
    (word - (word & mask) + (other & mask)).to_be_bytes()
}

/// A key in an array of its own. What was written before where a key ended is never read.
#[derive(Drop)]
pub struct KeyRoom {
    bytes: [u8; LONGEST_KEY],
    len: usize,
}

impl KeyRoom {
    ghost use Rattle.judy_tails.specs.Rooms.{bytes_in, IsWhole};

    /// The key of some bytes, at most 1,024.
    pub fn of(key: &[u8]) -> KeyRoom
        requires { length key.now ≤ LONGEST_KEY }
        ensures bytes { bytes_in result ≡ key.now }
        ensures whole { IsWhole result }
    {
        let mut bytes = [0; LONGEST_KEY];
        bytes[..key.len()].copy_from_slice(key);
        KeyRoom {
            bytes,
            len: key.len(),
        }
    }
}

impl KeyWriter for KeyRoom {
    ghost len = { λ key. key.len };

    ghost has = { λ key bytes. (key.len ≡ length bytes)
        × (length bytes ≤ LONGEST_KEY → take key.len key.bytes ≡ bytes) };

    ghost beyond = { λ key place. ([], 0, 0) };

    ghost has_len = { λ k bytes is. is.0 };

    #[inline(always)]
    fn put(&mut self, byte: u8) {
        if self.len < LONGEST_KEY {
            self.bytes[self.len] = byte;
        }
        self.len += 1;
    }

    #[inline(always)]
    fn put_eight(&mut self, bytes: &[u8; 8]) {
        let end = self.len + 8;
        if end <= LONGEST_KEY {
            self.bytes[self.len..end].copy_from_slice(bytes);
        }
        self.len = end;
    }

    // All eight are written where there is room for them: what stands behind the key is nobody's, so no branch hangs on
    // how many are its own.
    #[inline(always)]
    fn put_first(&mut self, bytes: &[u8; 8], count: usize) {
        if self.len + 8 <= LONGEST_KEY {
            self.bytes[self.len..self.len + 8].copy_from_slice(bytes);
            self.len += count;
        } else {
            for byte in &bytes[..count] {
                self.put(*byte);
            }
        }
    }
}

impl KeyHolder for KeyRoom {
    ghost use Rattle.judy_tails.specs.Rooms.{bytes_in, IsWhole as IsInRoom};

    ghost room = { λ key. LONGEST_KEY };

    ghost IsWhole = { IsInRoom };

    ghost bytes = { bytes_in };

    ghost fits = { λ k key is fits. (fits_in k.len LONGEST_KEY key is.0 fits, is.1 fits) };

    #[inline(always)]
    fn len(&self) -> usize {
        self.len
    }

    #[inline(always)]
    fn as_slice(&self) -> &[u8] {
        &self.bytes[..self.len]
    }

    #[inline(always)]
    fn cut(&mut self, len: usize) {
        self.len = len;
    }
}
