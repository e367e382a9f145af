//! The keys around a key taken out of a tree, by whole nodes where these hold no other keys.

ghost use Rattle.std.specs.Prelude.{◌≡◌, ◌+◌, ◌^◌, ◌<◌, ◌≤◌, true, List, length, get_or, set, IfSome};
ghost use Rattle.judy_node.specs.Trees.{Tree, IsChild};
ghost use Rattle.judy_node.specs.Branches.{IsWholeBranch};
ghost use Rattle.judy_node.specs.Populations.{AreSums};
ghost use Rattle.judy_node.specs.Kinds.{tree_of, IsLevel};
ghost use Rattle.judy_change.specs.Around.{IsCleared, IsCut, IsCutBelow, IsWhole, IsPartial, one_cut, cleared_of};

use crate::removals::{both, lose_child, remove, remove_childless};
use crate::removed::Taken;
use crate::settle::settle;
use judy_bits::low_part;
use judy_leaf::Words;
use judy_node::{BranchOf, ChildOf, KindOf, NodeOf, RootOf, Step, Sums};
use std::alloc::Global;
use std::mem;

/// A key with others around it: those no further below it and no further above it than told.
#[derive(Clone, Copy, PartialEq, Eq, Debug)]
pub struct Span {
    /// The key.
    pub key: u64,
    /// How far below it a key may stand.
    pub before: u64,
    /// How far above it a key may stand.
    pub after: u64,
}

/// What was taken out of a tree.
#[derive(Clone, Copy, PartialEq, Eq, Debug)]
pub struct Cleared {
    /// How many keys.
    pub count: u64,
    /// False where a smaller node was wanted and there was no memory for it: the larger one stays then, loose.
    pub shrunk: bool,
}

/// What became of a node from which keys around one were to be taken.
#[derive(Clone, Copy, PartialEq, Eq, Debug)]
pub enum Cut {
    /// The key isn't there, and nothing has changed.
    Absent,
    /// The key is the node's only one. The node is as it was, and is to go as a whole.
    Only,
    /// So many keys are gone, and others stay: whether there was memory for each smaller node that was wanted.
    Gone(u64, bool),
}

/// Takes a key out of a tree, and with it others around it: all of the largest node below the root that has the key and
/// none but such keys, if there is one and two keys stay at least beside it. Other keys around it may stay. It is never
/// refused: where there is no memory for a smaller node, the larger one stays, loose. It takes one way down, and frees
/// the node with those below it.
///
///     while let Some(key) = first_from(tree, low) && key <= high {
///         remove_around(alloc, tree, Span { key, before: key - low, after: high - key });
///     }
#[tactic(auto, using(crate::proofs::AroundFacts::cut_partial, crate::proofs::AroundFacts::cut_root, crate::proofs::AroundFacts::cut_cleared))]
pub fn remove_around<V: Words + Drop>(alloc: Global, node: &mut NodeOf<V>, span: Span) -> Cleared
    requires { V.WORDS ≤ 1 }
    ensures { IsCleared span.key span.before span.after node.old node.new result }
{
    node.law();
    if node.pop() < 3 {
        let removed = remove(alloc, node, span.key);
        return Cleared {
            count: u64::from(removed.was),
            shrunk: removed.shrunk,
        };
    }
    let RootOf::Many(mut child) = mem::replace(node, NodeOf::empty()).open() else {
        unreachable!()
    };
    let cut = cut_in(alloc, &mut child, 8, span);
    *node = NodeOf::close(RootOf::Many(child));
    cleared_by(cut)
}

// What a cut is that leaves keys.
fn cleared_by(cut: Cut) -> Cleared
    requires { IsPartial cut }
    ensures { result ≡ cleared_of cut }
{
    match cut {
        Cut::Absent => Cleared {
            count: 0,
            shrunk: true,
        },
        Cut::Only => unreachable!(),
        Cut::Gone(count, shrunk) => Cleared { count, shrunk },
    }
}

// From a node in its place, whose keys have `width` bytes.
#[cycle(cut)]
fn cut_in<V: Words + Drop>(alloc: Global, child: &mut ChildOf<V>, width: u8, span: Span) -> Cut
    requires one { V.WORDS ≤ 1 }
    requires child { IsChild V.WORDS width child.old }
    requires three { width ≡ 8 → 3 ≤ length child.old.pairs }
    ensures { IsCut V.WORDS width span.key span.before span.after child.old child.new result }
{
    cut_kind(alloc, width, child.place.kind_mut(), span)
}

// The same by the node's kind. From a node without children the key alone goes.
#[cycle(cut)]
fn cut_kind<V: Words + Drop>(alloc: Global, width: u8, kind: &mut KindOf<V>, span: Span) -> Cut
    requires one { V.WORDS ≤ 1 }
    requires level { IsLevel V.WORDS kind.old }
    requires child { IsChild V.WORDS width (tree_of V.WORDS kind.old) }
    requires three { width ≡ 8 → 3 ≤ length (tree_of V.WORDS kind.old).pairs }
    ensures level { IsLevel V.WORDS kind.new }
    ensures cut { IsCut V.WORDS width span.key span.before span.after (tree_of V.WORDS kind.old)
        (tree_of V.WORDS kind.new) result }
{
    match kind {
        KindOf::Branch(branch) => match cut_below(alloc, branch, span) {
            Cut::Absent => Cut::Absent,
            Cut::Only => Cut::Only,
            Cut::Gone(count, shrunk) => {
                let settled = settle(alloc, width, kind);
                Cut::Gone(count, both(shrunk, settled))
            }
        },
        _ => cut_of(remove_childless(alloc, width, kind, span.key)),
    }
}

// What one key taken out is.
fn cut_of(taken: Taken) -> Cut
    ensures { result ≡ one_cut taken }
{
    match taken {
        Taken::Absent => Cut::Absent,
        Taken::Only(_) => Cut::Only,
        Taken::Gone(_, shrunk) => Cut::Gone(1, shrunk),
    }
}

// From below a branch, which may be larger than it needs to be afterwards.
#[cycle(cut)]
fn cut_below<V: Words + Drop>(alloc: Global, branch: &mut BranchOf<V>, span: Span) -> Cut
    requires one { V.WORDS ≤ 1 }
    requires branch { IsWholeBranch V.WORDS branch.old }
    requires sums { AreSums branch.old.sums branch.old.children.items }
    ensures cut { IsCutBelow V.WORDS span.key span.before span.after branch.old branch.new result }
    ensures sums { AreSums branch.new.sums branch.new.children.items }
{
    let Step::Child(byte, place, rest) = branch.step(span.key) else {
        return Cut::Absent;
    };
    if let Some(count) = whole_count(branch, place, rest, span) {
        lose_child(branch, byte, place, count);
        return Cut::Gone(count, true);
    }
    let width = branch.width;
    match cut_in(
        alloc,
        &mut branch.children[place],
        width,
        Span { key: rest, ..span },
    ) {
        Cut::Absent => Cut::Absent,
        Cut::Only => {
            if branch.population == 1 {
                return Cut::Only;
            }
            lose_child(branch, byte, place, 1);
            Cut::Gone(1, true)
        }
        Cut::Gone(count, shrunk) => {
            branch.population -= count;
            count_off(&mut branch.sums, place, count);
            Cut::Gone(count, shrunk)
        }
    }
}

// How many keys the child at a place has, where it goes whole: all keys that it may have stand around the key, of which
// `rest` is left there, and two keys stay at least beside it.
fn whole_count<V: Words + Drop>(
    branch: &BranchOf<V>,
    place: usize,
    rest: u64,
    span: Span,
) -> Option<u64>
    requires place { place < length branch.now.children.items }
    requires width { branch.now.width ≤ 8 }
    requires rest { rest < 256 ^ branch.now.width }
    ensures { IfSome result (λ count. IsWhole branch.now place rest span.before span.after count) }
{
    if !spans(branch.width, rest, span) {
        return None;
    }
    let count = branch.children[place].pop();
    if branch.population.saturating_sub(count) < 2 {
        return None;
    }
    Some(count)
}

// Whether all keys of `width` bytes stand around one of them as the span's key has it.
fn spans(width: u8, rest: u64, span: Span) -> bool
    requires width { width ≤ 8 }
    requires rest { rest < 256 ^ width }
    ensures { result ≡ true → (rest ≤ span.before) × (256 ^ width ≤ rest + span.after + 1) }
{
    if rest > span.before {
        return false;
    }
    let last = low_part(u64::MAX, usize::from(width));
    last - rest <= span.after
}

// Counts so many keys less below the child at a place: of more than one key the sums of all children go.
fn count_off(sums: &mut Sums, place: usize, count: u64)
    requires { (kids : List Tree) × (kid : Tree) × AreSums sums.old kids × (place < length kids)
        × (count ≤ length (get_or kids place kid).pairs) }
    ensures { (kids : List Tree) (kid : Tree) → AreSums sums.old kids → place < length kids
        → length kid.pairs + count ≡ length (get_or kids place kid).pairs
        → AreSums sums.new (set kids place kid) }
{
    if count == 1 {
        sums.take(place);
        return;
    }
    *sums = Sums::none();
}
