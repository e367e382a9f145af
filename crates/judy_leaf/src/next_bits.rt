//! The bits of the four words of a bitmap leaf, one after another: the word at hand loses each bit as it is told, so
//! that the next one waits for no look at memory.

ghost use Rattle.std.specs.Prelude.{◌≡◌, ℕ, ◌+◌, ◌<◌, ◌≤◌, length, Some};
ghost use Rattle.std.specs.Int.{bit_at};
ghost use Rattle.judy_bits.specs.ByteSets as set;
ghost use Rattle.judy_bits.specs.BitWords.{members_of};
ghost use Rattle.judy_leaf.specs.NextBits.{AreLeft};

// The bits of a word from a place on.
fn bits_from(word: u64, from: u64) -> u64
    requires { from < 64 }
    ensures gone { (at : ℕ) → at < from → bit_at result at ≡ 0 }
    ensures same { (at : ℕ) → at < 64 → from ≤ at → bit_at result at ≡ bit_at word at }
{
    word & !((1 << from) - 1)
}

// What is left from a byte on: the number of its word, and the bits of that.
pub(crate) fn left_from(words: &[u64], byte: u64) -> (usize, u64)
    requires four { length words.now ≡ 4 }
    requires byte { byte < 256 }
    ensures { AreLeft words.now result.0 result.1 byte }
{
    let word = (byte / 64) as usize;
    (word, bits_from(words[word], byte % 64))
}

// Takes the next bit of those that are left, where there is one, and answers its byte.
#[inline(always)]
pub(crate) fn take_next(words: &[u64], word: &mut usize, left: &mut u64) -> u64
    requires four { length words.now ≡ 4 }
    requires some { (byte : ℕ) × AreLeft words.now word.old left.old byte × (next : ℕ)
        × (set.next_from (members_of words.now) byte ≡ Some next) }
    ensures next { (byte : ℕ) → AreLeft words.now word.old left.old byte
        → (set.next_from (members_of words.now) byte ≡ Some result)
        × AreLeft words.now word.new left.new (result + 1) }
    ensures below { result < 256 }
{
    while *left == 0 {
        *word += 1;
        *left = words[*word];
    }
    let bit = u64::from(left.trailing_zeros());
    *left &= *left - 1;
    64 * *word as u64 + bit
}
