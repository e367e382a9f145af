//! Where a branch has room: its first and its last word that is no key, from a byte on. Children that are full are
//! passed over by the number of their keys.

ghost use Rattle.std.specs.Prelude.{◌≡◌, ◌+◌, ◌-◌, ◌*◌, ◌^◌, ◌<◌, ◌≤◌, ◌==◌, nat_lt, length};
ghost use Rattle.judy_model.specs.WordBytes.{number_of};
ghost use Rattle.judy_node.specs.Branches.{IsWholeBranch};
ghost use Rattle.judy_query.specs.Rooms.{HasWidth, IsEdge, IsRoomFrom, IsRoomUpTo, branch_words, edge_word, words_end, OrElse, room_of};

use crate::turns::Turn;
use judy_bits::{moved_up, without_low};
use judy_leaf::Words;
use judy_node::{BranchOf, ChildOf};

/// Where the nearest word is that is no key.
#[derive(Drop)]
pub enum Room<'a, V: Words + Drop> {
    /// Nowhere: all words are keys.
    Nowhere,
    /// At this word.
    At(u64),
    /// In this child, which isn't full: how many bytes its keys have, and its least word.
    In(&'a ChildOf<V>, u8, u64),
}

impl<'a, V: Words + Drop> Room<'a, V> {
    /// A word, or nowhere where there is none.
    pub fn of(word: Option<u64>) -> Room<'a, V>
        ensures { result ≡ room_of word }
    {
        match word {
            Some(word) => Room::At(word),
            None => Room::Nowhere,
        }
    }

    /// This room, or the other one where this is nowhere.
    pub fn or(self, other: Room<'a, V>) -> Room<'a, V>
        ensures { OrElse self.entry (λ room. room ≡ other.entry) result }
    {
        match self {
            Room::Nowhere => other,
            room => room,
        }
    }
}

/// Whether all words of a width are keys of a child.
pub fn is_full<V: Words + Drop>(child: &ChildOf<V>, width: u8) -> bool
    requires { width ≤ 7 }
    ensures { result ≡ (length child.now.pairs == 256 ^ width) }
{
    child.pop() == moved_up(1, usize::from(width))
}

/// The greatest word of a width of at most 7 bytes.
pub fn last_word(width: u8) -> u64
    requires { width ≤ 7 }
    ensures value { result ≡ 256 ^ width - 1 }
    ensures within { result < 256 ^ 7 }
{
    moved_up(1, usize::from(width)) - 1
}

/// The least word of the block of a byte, or the one behind the block of byte 255, where the branch's words begin at a
/// base.
fn start_of<V: Words + Drop>(branch: &BranchOf<V>, byte: u64, base: u64) -> u64
    requires branch { IsWholeBranch V.WORDS branch.now }
    requires within { base + (number_of branch.now.skip * 256 + byte) * 256 ^ branch.now.width
        < 2 ^ 64 }
    ensures { result ≡ base + (number_of branch.now.skip * 256 + byte) * 256 ^ branch.now.width }
{
    base + moved_up(branch.skip.number() * 256 + byte, usize::from(branch.width))
}

/// Whether a number of so many bytes, at most 7, isn't the greatest one.
pub fn has_next(number: u64, bytes: usize) -> bool
    requires { bytes ≤ 7 }
    ensures { result ≡ nat_lt (number + 1) (256 ^ bytes) }
{
    number < without_low(u64::MAX, 8 - bytes)
}

/// The first room of a branch from an edge on, a byte or 256, which is behind them all. So many children as the place
/// have lesser bytes.
pub(crate) fn room_from<V: Words + Drop>(first: Turn<'_, V>) -> Room<'_, V>
    requires { IsEdge V.WORDS first }
    ensures width { HasWidth first.entry.branch.now.width result }
    ensures room { IsRoomFrom V.WORDS (branch_words first.entry) (edge_word first.entry)
        (words_end first.entry) result }
{
    let branch = first.branch;
    let mut byte = first.edge;
    for at in first.place..branch.children.len() {
        let start = start_of(branch, byte, first.base);
        if u64::from(branch.byte_at(at)) != byte {
            return Room::At(start);
        }
        let child = &branch.children[at];
        if !is_full(child, branch.width) {
            return Room::In(child, branch.width, start);
        }
        byte += 1;
    }
    if byte < 256 {
        return Room::At(start_of(branch, byte, first.base));
    }
    if has_next(branch.skip.number(), branch.skip.len()) {
        Room::At(start_of(branch, 256, first.base))
    } else {
        Room::Nowhere
    }
}

/// The last room of a branch below an edge. Else as `room_from`.
pub(crate) fn room_up_to<V: Words + Drop>(end: Turn<'_, V>) -> Room<'_, V>
    requires { IsEdge V.WORDS end }
    ensures width { HasWidth end.entry.branch.now.width result }
    ensures room { IsRoomUpTo V.WORDS (branch_words end.entry) end.entry.base
        (edge_word end.entry) result }
{
    let branch = end.branch;
    let mut byte = end.edge;
    let mut at = end.place;
    while at > 0 {
        at -= 1;
        byte -= 1;
        let start = start_of(branch, byte, end.base);
        if u64::from(branch.byte_at(at)) != byte {
            return Room::At(start + last_word(branch.width));
        }
        let child = &branch.children[at];
        if !is_full(child, branch.width) {
            return Room::In(child, branch.width, start);
        }
    }
    let start = start_of(branch, byte, end.base);
    if start > end.base {
        Room::At(start - 1)
    } else {
        Room::Nowhere
    }
}
