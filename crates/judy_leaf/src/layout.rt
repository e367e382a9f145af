//! What is decided of leaves and told here alone: how many keys a leaf holds, and how the block of a bitmap leaf is
//! laid out.

ghost use Rattle.std.specs.Prelude.{◌≡◌, ◌+◌, ◌*◌, ◌/◌, ◌%◌, ◌<◌, ◌≤◌, ◌^◌};

use judy_block::Block;

/// How many keys a leaf holds at most.
pub const LEAF_ROOM: usize = 32;

/// How many words of a bitmap leaf have its bits; the values stand behind them.
pub const BIT_WORDS: usize = 4;

// One byte of the width in the tag of a bitmap leaf. What is below is the number of its keys.
const BYTE: u32 = 65_536;

/// How many keys the bitmap leaf of a block has.
#[inline(always)]
pub fn bit_count(block: &Block) -> u32
    ensures { result ≡ block.now.tag % 65536 }
{
    block.tag() % BYTE
}

/// How many bytes the keys of its node have.
#[inline(always)]
pub fn bit_width(block: &Block) -> u32
    ensures { result ≡ block.now.tag / 65536 }
{
    block.tag() / BYTE
}

// The tag of a bitmap leaf that has so many keys, in a node whose keys have `width` bytes, at most 8.
#[inline(always)]
pub(crate) fn bit_tag(count: usize, width: u8) -> u32
    requires count { count ≤ 256 }
    requires width { width ≤ 8 }
    ensures { result ≡ count + 65536 * width }
{
    count as u32 + BYTE * u32::from(width)
}

/// Tells that they have `width` bytes, at most 8.
#[inline(always)]
pub fn set_bit_width(block: &mut Block, width: u32)
    requires { width ≤ 8 }
    ensures { block.new ≡ record block.old { tag = block.old.tag % 65536 + 65536 * width } }
{
    block.set_tag(block.tag() % BYTE + BYTE * width);
}

/// Tells that they have a byte more.
#[inline(always)]
pub fn widen_bits(block: &mut Block)
    requires { block.old.tag + 65536 < 2 ^ 32 }
    ensures { block.new ≡ record block.old { tag = block.old.tag + 65536 } }
{
    block.set_tag(block.tag() + BYTE);
}
