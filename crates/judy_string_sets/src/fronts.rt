//! Fronts of byte strings.

ghost use Rattle.std.specs.Prelude.{◌≡◌, ◌≢◌, ◌≤◌, ℕ, List, All, IsTrue, length, take};
ghost use Rattle.judy_model.specs.DumpText.{shared_length};
ghost use Rattle.judy_model.specs.KeyLengths.{IsStringKeyTo};
ghost use Rattle.judy_model.specs.Prefixes.{begins_with};

// How many of the first bytes may be those of a key that has at most so many: none of them is zero.
pub fn key_front(bytes: &[u8], longest: usize) -> usize
    ensures short { result ≤ longest }
    ensures within { result ≤ length bytes.now }
    ensures without_zero { All (λ byte. byte ≢ 0) (take result bytes.now) }
    ensures most { (key : List ℕ) → IsStringKeyTo longest key
        → IsTrue (begins_with key bytes.now) → length key ≤ result }
{
    let mut count = 0;
    'bytes: while count < bytes.len() && count < longest && bytes[count] != 0 {
        count += 1;
    }
    count
}

// How long the longest front is that two byte strings share.
pub fn shared_front(key: &[u8], bytes: &[u8]) -> usize
    ensures shared { result ≡ shared_length key.now bytes.now }
    ensures within { result ≤ length key.now }
    ensures among { result ≤ length bytes.now }
{
    let mut shared = 0;
    'bytes: while shared < key.len() && shared < bytes.len() && key[shared] == bytes[shared] {
        shared += 1;
    }
    shared
}
