//! The children that a walk comes back to.

ghost use Rattle.std.specs.Prelude.{◌≡◌, ◌+◌, ◌*◌, ◌^◌, ◌<◌, ◌≤◌, [], ◌++◌, length, drop, MatchOption};
ghost use Rattle.judy_model.specs.WordBytes.{number_of};
ghost use Rattle.judy_bits.specs.ByteSets as set;
ghost use Rattle.judy_leaf.specs.KeyLists.{shift};
ghost use Rattle.judy_node.specs.Trees.{join};
ghost use Rattle.judy_node.specs.Branches.{IsWholeBranch};
ghost use Rattle.judy_query.specs.Turns.{IsTurn, IsFirst};
ghost use Rattle.judy_query.specs.Walks.{rest_of_turn, waiting, AreTurns};

use crate::turns::Turn;
use arrayvec::ArrayVec;
use judy_leaf::Words;
use judy_node::BranchOf;

/// Turns, the lowest one last: each leads to the next child of its branch that the walk hasn't come to, and each branch
/// stands below the one before. No place among them is empty.
pub(crate) type Turns<'a, V> = ArrayVec<Option<Turn<'a, V>>, 8>;

/// Keeps the children of a branch from a place on, the first from a byte on, if there are any. The branch stands below
/// those of all turns.
pub(crate) fn keep<'a, V: Words + Drop>(
    branch: &'a BranchOf<V>,
    place: usize,
    from: u64,
    base: u64,
    turns: &mut Turns<'a, V>,
)
    requires branch { IsWholeBranch V.WORDS branch.now }
    requires from { place ≡ set.rank branch.now.bytes from }
    requires fits { base + 256 ^ (length branch.now.skip + 1 + branch.now.width) ≤ 256 ^ 8 }
    requires turns { AreTurns V.WORDS 0 turns.old.items }
    requires room { length turns.old.items + 1 + branch.now.width ≤ 8 }
    ensures turns { AreTurns V.WORDS 0 turns.new.items }
    ensures pairs { waiting turns.new.items
        ≡ shift base (join (256 ^ branch.now.width) (number_of branch.now.skip * 256)
        (drop place branch.now.bytes) (drop place branch.now.children.items)) ++ waiting
        turns.old.items }
    ensures one { length turns.new.items ≤ length turns.old.items + 1 }
{
    if place < branch.children.len() {
        turns.push(Some(Turn {
            branch,
            place,
            base,
            edge: from,
        }));
    }
}

/// Takes the lowest turn; none where none is kept.
pub(crate) fn take<'a, V: Words + Drop>(turns: &mut Turns<'a, V>) -> Option<Turn<'a, V>>
    requires turns { AreTurns V.WORDS 0 turns.old.items }
    ensures turns { AreTurns V.WORDS 0 turns.new.items }
    ensures pairs { MatchOption result
        ((waiting turns.old.items ≡ []) × (waiting turns.new.items ≡ []))
        (λ turn. waiting turns.old.items ≡ rest_of_turn turn ++ waiting turns.new.items) }
    ensures turn { MatchOption result (0 ≤ 0)
        (λ turn. IsTurn V.WORDS turn × (length turns.new.items + 1 + turn.branch.now.width ≤ 8)
        × IsFirst turn) }
{
    turns.pop()?
}
