//! Each call against plain lists: blocks of many sizes, gaps at the front, in the middle and at the end,
//! copies, tags and slots.

use judy_block::Block;
use std::alloc::{AllocError, Global};
use std::process::Abort;

// The smallest and the largest, those that leaves have, and some beside them.
const CAPACITIES: [usize; 8] = [1, 2, 31, 32, 255, 256, 65_534, 65_535];

// Where a gap opens in five words, how many words it has, and what is there then.
const GAPS: [(usize, usize, &[u64]); 9] = [
    (0, 0, &[1, 2, 3, 4, 5]),
    (0, 1, &[0, 1, 2, 3, 4, 5]),
    (0, 4, &[0, 0, 0, 0, 1, 2, 3, 4, 5]),
    (2, 0, &[1, 2, 3, 4, 5]),
    (2, 1, &[1, 2, 0, 3, 4, 5]),
    (2, 4, &[1, 2, 0, 0, 0, 0, 3, 4, 5]),
    (5, 0, &[1, 2, 3, 4, 5]),
    (5, 1, &[1, 2, 3, 4, 5, 0]),
    (5, 4, &[1, 2, 3, 4, 5, 0, 0, 0, 0]),
];

// From where words are taken out of five, how many, and what is left.
const CUTS: [(usize, usize, &[u64]); 8] = [
    (0, 0, &[1, 2, 3, 4, 5]),
    (0, 1, &[2, 3, 4, 5]),
    (0, 3, &[4, 5]),
    (1, 2, &[1, 4, 5]),
    (2, 1, &[1, 2, 4, 5]),
    (4, 1, &[1, 2, 3, 4]),
    (5, 0, &[1, 2, 3, 4, 5]),
    (0, 5, &[]),
];

// Capacities of blocks that are made of 3 words.
const ROOMS: [usize; 4] = [3, 4, 5, 65_535];

// Tags that a block is given one after another.
const TAGS: [u32; 5] = [1, 0xFFFF, 0x1_0000, 0, u32::MAX];

// Where 9 is written by a slot in the words 1 to 3, what stood there, and the words then.
const SLOTS: [(usize, u64, [u64; 3]); 3] = [
    (0, 1, [9, 2, 3]),
    (1, 2, [1, 9, 3]),
    (2, 3, [1, 2, 9]),
];

// The calls with a condition, which is tested first.
fn new_block(rt: &impl Abort, alloc: Global, capacity: usize) -> Result<Block, AllocError> {
    assert!(rt; 1 <= capacity && capacity <= 65_535);
    Block::new(alloc, capacity)
}

fn open(rt: &impl Abort, block: &mut Block, i: usize, n: usize) {
    assert!(rt;
        i <= block.len() && n <= block.capacity() - block.len(),
        "{n} at {i}"
    );
    block.open_gap(i, n);
}

fn close(rt: &impl Abort, block: &mut Block, i: usize, n: usize) {
    assert!(rt; n <= block.len() && i <= block.len() - n, "{n} at {i}");
    block.close_gap(i, n);
}

fn put(rt: &impl Abort, block: &mut Block, i: usize, word: u64) {
    assert!(rt; i < block.len(), "at {i}");
    block.put(i, word);
}

// A block with these words, each put in at the end.
fn block_of(
    rt: &impl Abort,
    alloc: Global,
    capacity: usize,
    words: &[u64],
) -> Result<Block, AllocError> {
    let mut block = new_block(rt, alloc, capacity)?;
    for &word in words {
        let end = block.len();
        open(rt, &mut block, end, 1);
        put(rt, &mut block, end, word);
    }
    Ok(block)
}

// All that a block holds, in the case that is told by the two numbers.
fn expect(
    rt: &impl Abort,
    block: &Block,
    words: &[u64],
    capacity: usize,
    tag: u32,
    i: usize,
    n: usize,
) {
    assert_eq!(rt; block.words(), words, "{n} at {i}");
    expect_sizes(rt, block, words.len(), capacity, tag, i, n);
}

fn expect_sizes(
    rt: &impl Abort,
    block: &Block,
    len: usize,
    capacity: usize,
    tag: u32,
    i: usize,
    n: usize,
) {
    let sizes = [block.len(), block.capacity(), block.tag() as usize];
    assert_eq!(rt; sizes, [len, capacity, tag as usize], "{n} at {i}");
}

fn fill(rt: &impl Abort, block: &mut Block, capacity: usize) {
    for place in 0..capacity {
        open(rt, block, place, 1);
        put(rt, block, place, u64::MAX - place as u64);
    }
}

fn expect_word(rt: &impl Abort, block: &Block, place: usize, word: u64, capacity: usize) {
    assert!(rt; place < block.len());
    assert_eq!(rt; block.get(place), word, "of {capacity}");
}

fn expect_filled(rt: &impl Abort, block: &Block, capacity: usize) {
    for place in 0..capacity {
        expect_word(rt, block, place, u64::MAX - place as u64, capacity);
    }
}

fn fill_and_empty(rt: &impl Abort, block: &mut Block, capacity: usize) {
    expect(rt, block, &[], capacity, 0, 0, capacity);
    fill(rt, block, capacity);
    expect_sizes(rt, block, capacity, capacity, 0, 0, capacity);
    expect_filled(rt, block, capacity);
    close(rt, block, 0, capacity);
    expect(rt, block, &[], capacity, 0, 0, capacity);
}

#[test]
fn a_new_block_is_empty_and_fills_to_its_capacity(rt: HostRuntime) -> Result<(), AllocError> {
    for &capacity in &CAPACITIES {
        let mut block = new_block(&rt, rt.alloc(), capacity)?;
        fill_and_empty(&rt, &mut block, capacity);
    }
    Ok(())
}

fn open_and_close(rt: &impl Abort, block: &mut Block, i: usize, n: usize, opened: &[u64]) {
    close(rt, block, 0, 4);
    open(rt, block, i, n);
    expect(rt, block, opened, 9, 0, i, n);
    close(rt, block, i, n);
    expect(rt, block, &[1, 2, 3, 4, 5], 9, 0, i, n);
}

#[test]
fn gaps_open_and_close(rt: HostRuntime) -> Result<(), AllocError> {
    for &(i, n, opened) in &GAPS {
        // Words that were there before, so that a gap that isn't cleared would show.
        let mut block = block_of(&rt, rt.alloc(), 9, &[7, 7, 7, 7, 1, 2, 3, 4, 5])?;
        open_and_close(&rt, &mut block, i, n, opened);
    }
    Ok(())
}

#[test]
fn words_are_taken_out(rt: HostRuntime) -> Result<(), AllocError> {
    for &(i, n, left) in &CUTS {
        let mut block = block_of(&rt, rt.alloc(), 5, &[1, 2, 3, 4, 5])?;
        close(&rt, &mut block, i, n);
        expect(&rt, &block, left, 5, 0, i, n);
    }
    Ok(())
}

fn made_of(
    rt: &impl Abort,
    alloc: Global,
    capacity: usize,
    tag: u32,
    words: &[u64],
) -> Result<Block, AllocError> {
    assert!(rt; words.len() <= capacity && 1 <= capacity && capacity <= 65_535);
    Block::of_words(alloc, capacity, tag, words)
}

#[test]
fn a_block_is_made_of_words_and_a_tag(rt: HostRuntime) -> Result<(), AllocError> {
    for &capacity in &ROOMS {
        let block = made_of(&rt, rt.alloc(), capacity, 0xFEDC_BA98, &[1, 2, 3])?;
        expect(&rt, &block, &[1, 2, 3], capacity, 0xFEDC_BA98, 0, capacity);
    }
    Ok(())
}

#[test]
fn the_tag_stands_by_itself(rt: HostRuntime) -> Result<(), AllocError> {
    let mut block = block_of(&rt, rt.alloc(), 65_535, &[5, 6])?;
    for &tag in &TAGS {
        block.set_tag(tag);
        expect(&rt, &block, &[5, 6], 65_535, tag, 0, tag as usize);
    }
    open(&rt, &mut block, 1, 2);
    expect(&rt, &block, &[5, 0, 0, 6], 65_535, u32::MAX, 1, 2);
    close(&rt, &mut block, 0, 3);
    expect(&rt, &block, &[6], 65_535, u32::MAX, 0, 3);
    Ok(())
}

fn put_by_slot(rt: &impl Abort, block: &mut Block, place: usize, before: u64) {
    assert!(rt; place < block.len());
    write_over(rt, block.slot(place), before, place);
}

fn write_over(rt: &impl Abort, slot: &mut u64, before: u64, place: usize) {
    assert_eq!(rt; *slot, before, "at {place}");
    *slot = 9;
}

#[test]
fn a_slot_is_one_word(rt: HostRuntime) -> Result<(), AllocError> {
    for &(place, before, words) in &SLOTS {
        let mut block = block_of(&rt, rt.alloc(), 4, &[1, 2, 3])?;
        put_by_slot(&rt, &mut block, place, before);
        expect(&rt, &block, &words, 4, 0, place, 1);
    }
    Ok(())
}
