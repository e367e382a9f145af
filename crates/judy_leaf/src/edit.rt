//! Changes of the packed keys of a block, in place: a key that comes or goes moves those behind it by one place, from
//! word to word, the last word first.

ghost use Rattle.std.specs.Prelude.{◌≡◌, ◌+◌, ◌-◌, ◌*◌, ◌/◌, ◌^◌, ◌<◌, ◌≤◌, ℕ, zero, length, slice_index, drop};
ghost use Rattle.std.specs.List.{AllByRecursion};
ghost use Rattle.judy_leaf.specs.Packing.{places, pushed, pulled, HasZeroPadding, IsWidth};
ghost use Rattle.judy_leaf.specs.Edits.{IsEdit, IsFirstPlace};

use crate::place::{key_in, with_key, without_key};
use judy_block::Block;

// Moves the keys of all words after one up by a place; that word's last key goes first among them.
fn push_words<const W: usize>(block: &mut Block, word: usize)
    requires width { IsWidth W }
    requires inside { word < length block.old.words }
    requires tight { AllByRecursion (HasZeroPadding W) (drop word block.old.words) }
    ensures { IsEdit W (word + 1)
        (pushed zero (slice_index (places W (slice_index block.old.words word)) (8 / W - 1)))
        block.old block.new }
{
    let end = block.len();
    for at in (word + 1..end).rev() {
        let last = key_in::<W>(block.get(at - 1), 8 / W - 1);
        let here = with_key::<W>(block.get(at), 0, last);
        block.put(at, here);
    }
}

// Puts a key in at a place of the keys that stand from word `start` on; what stands in the last place falls out.
pub(crate) fn push_key<const W: usize>(block: &mut Block, start: usize, at: usize, key: u64)
    requires width { IsWidth W }
    requires inside { start + at / (8 / W) < length block.old.words }
    requires few { length block.old.words ≤ 65535 }
    requires below { key < 256 ^ W }
    requires tight { AllByRecursion (HasZeroPadding W) (drop start block.old.words) }
    ensures { IsEdit W start (pushed at key) block.old block.new }
{
    let word = start + at / (8 / W);
    push_words::<W>(block, word);
    let here = with_key::<W>(block.get(word), at % (8 / W), key);
    block.put(word, here);
}

// Moves the keys of all words after one down by a place, so that the last place is 0, and gives the first of them; 0
// where there is none.
fn pull_words<const W: usize>(block: &mut Block, word: usize) -> u64
    requires width { IsWidth W }
    requires inside { word < length block.old.words }
    requires tight { AllByRecursion (HasZeroPadding W) (drop word block.old.words) }
    ensures edit { IsEdit W (word + 1) (pulled zero 0) block.old block.new }
    ensures first { IsFirstPlace W (drop (word + 1) block.old.words) result }
    ensures below { result < 256 ^ W }
{
    let end = block.len();
    let mut first = 0;
    for at in (word + 1..end).rev() {
        let here = block.get(at);
        block.put(at, without_key::<W>(here, 0, first));
        first = key_in::<W>(here, 0);
    }
    first
}

// Takes the key at a place out of those that stand from word `start` on; the last place is 0 then.
pub(crate) fn pull_key<const W: usize>(block: &mut Block, start: usize, at: usize)
    requires width { IsWidth W }
    requires inside { start + at / (8 / W) < length block.old.words }
    requires few { length block.old.words ≤ 65535 }
    requires tight { AllByRecursion (HasZeroPadding W) (drop start block.old.words) }
    ensures { IsEdit W start (pulled at 0) block.old block.new }
{
    let word = start + at / (8 / W);
    let first = pull_words::<W>(block, word);
    let here = without_key::<W>(block.get(word), at % (8 / W), first);
    block.put(word, here);
}
