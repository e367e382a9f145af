//! What takes the place of a tail that a second key meets, built beside the array.

ghost use Rattle.std.specs.Prelude.{◌≡◌, ◌≢◌, IfOk};
ghost use Rattle.judy_sl.specs.Pieces.{IsText};
ghost use Rattle.judy_sl.specs.Branches.{IsSprout, IsBuilt, single};

use crate::pieces::first_piece;
use judy_word::WordMap;
use std::alloc::{AllocError, Global};

// A tail to be, and the piece that is to lead to it.
#[derive(Clone, Copy)]
pub struct Twig<'a> {
    pub piece: u64,
    pub rest: &'a [u8],
    pub value: u64,
}

// For each whole piece that both keys have a level with that entry alone, the first on top; the level of the first
// piece at which they differ; and what goes on behind it.
#[derive(Drop)]
pub struct Branch<'a> {
    pub upper: Vec<(u64, WordMap)>,
    pub fork: WordMap,
    pub old: Option<Twig<'a>>,
    pub new: Option<Twig<'a>>,
}

// A level with one entry.
fn one_entry(alloc: Global, piece: u64) -> Result<WordMap, AllocError>
    ensures { IfOk result (λ level. level ≡ single piece) }
{
    let mut level = WordMap::unbounded(alloc);
    level.put(piece, 0)?;
    Ok(level)
}

// Puts the first piece of the rest of a key into a level: with the key's value where it is the last one, and else to
// lead to a tail.
fn sprout<'a>(
    level: &mut WordMap,
    rest: &'a [u8],
    value: u64,
) -> Result<Option<Twig<'a>>, AllocError>
    ensures { IfOk result (λ twig. IsSprout level.old level.new rest.now value twig) }
{
    let piece = first_piece(rest);
    if rest.len() < 8 {
        level.put(piece, value)?;
        return Ok(None);
    }
    level.put(piece, 0)?;
    Ok(Some(Twig {
        piece,
        rest: &rest[8..],
        value,
    }))
}

// The branch of a tail, by its bytes and its value, and the rest of another key. When memory is there no contract says;
// rows try that it succeeds.
pub fn branch_of<'a>(
    alloc: Global,
    tail: &'a [u8],
    value: u64,
    key: &'a [u8],
) -> Result<Branch<'a>, AllocError>
    requires tail_text { IsText tail.now }
    requires key_text { IsText key.now }
    requires differ { tail.now ≢ key.now }
    ensures { IfOk result (λ made. IsBuilt tail.now value key.now made) }
{
    let mut upper = Vec::new(alloc);
    let mut held = tail;
    let mut rest = key;
    while first_piece(held) == first_piece(rest) {
        let piece = first_piece(rest);
        let level = one_entry(alloc, piece)?;
        upper.push((piece, level))?;
        held = &held[8..];
        rest = &rest[8..];
    }
    let mut fork = WordMap::unbounded(alloc);
    let old = sprout(&mut fork, held, value)?;
    let new = sprout(&mut fork, rest, 0)?;
    Ok(Branch {
        upper,
        fork,
        old,
        new,
    })
}
