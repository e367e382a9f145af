//! The two sides of a key on which a word is sought that is no key. The search (empties.rt) is one for both.

ghost use Rattle.std.specs.Prelude.{◌≡◌, ◌+◌, ◌-◌, ◌^◌, ◌<◌, ◌≤◌, length};
ghost use Rattle.judy_leaf.specs.KeyLists.{shift};
ghost use Rattle.judy_node.specs.Trees.{branch_pairs};
ghost use Rattle.judy_node.specs.Branches.{IsWholeBranch};
ghost use Rattle.judy_query.specs.Rooms.{HasWidth, IsPassed, IsRoom, IsRoomBeside, end_of};

use crate::rooms::{Room, has_next, last_word, room_from, room_up_to};
use crate::turns::Turn;
use judy_leaf::Words;
use judy_node::BranchOf;

/// To which side of a key a word is sought that is no key. Whoever asks names it, and each search for one side is
/// compiled by itself.
#[derive(Clone, Copy)]
pub enum Side {
    /// From the key up.
    Up,
    /// From the key down.
    Down,
}

impl Side {
    /// The word of a width of at most 7 bytes that is met first.
    #[inline(always)]
    pub(crate) fn end(self, width: u8) -> u64
        requires { width ≤ 7 }
        ensures { result ≡ end_of self (256 ^ width) }
    {
        match self {
            Side::Up => 0,
            Side::Down => last_word(width),
        }
    }

    /// The nearest room of a branch past a child, whose own byte is the edge.
    #[inline(always)]
    pub(crate) fn room_past<'a, V: Words + Drop>(self, passed: Turn<'a, V>) -> Room<'a, V>
        requires { IsPassed V.WORDS passed }
        ensures { IsRoomBeside self V.WORDS passed.entry result }
    {
        match self {
            Side::Up => room_from(Turn {
                branch: passed.branch,
                place: passed.place + 1,
                base: passed.base,
                edge: passed.edge + 1,
            }),
            Side::Down => room_up_to(passed),
        }
    }

    /// The room of a branch that is met first of all its words. They have so many bytes, at most 7, and begin at a
    /// base.
    #[inline(always)]
    pub(crate) fn room_of<V: Words + Drop>(
        self,
        branch: &BranchOf<V>,
        wide: u8,
        base: u64,
    ) -> Room<'_, V>
        requires branch { IsWholeBranch V.WORDS branch.now }
        requires wide { wide ≡ length branch.now.skip + 1 + branch.now.width }
        requires narrow { wide ≤ 7 }
        requires fits { base + 256 ^ (length branch.now.skip + 1 + branch.now.width) ≤ 2 ^ 64 }
        ensures width { HasWidth branch.now.width result }
        ensures room { IsRoom self V.WORDS
            (shift base (branch_pairs branch.now.width branch.now.skip branch.now.bytes
            branch.now.children.items))
            base (base + 256 ^ (length branch.now.skip + 1 + branch.now.width)) result }
    {
        let number = branch.skip.number();
        match self {
            Side::Up if number > 0 => Room::At(base),
            Side::Up => room_from(Turn {
                branch,
                place: 0,
                base,
                edge: 0,
            }),
            Side::Down if has_next(number, branch.skip.len()) => Room::At(base + last_word(wide)),
            Side::Down => room_up_to(Turn {
                branch,
                place: branch.children.len(),
                base,
                edge: 256,
            }),
        }
    }
}
