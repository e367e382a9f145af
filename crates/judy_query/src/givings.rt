//! The pairs of nodes that aren't branches, written into a slice many at a time.

ghost use Rattle.std.specs.Prelude.{◌≡◌, ◌+◌, ◌^◌, ◌≤◌, [], ◌∷◌, length, take, drop, MatchOption};
ghost use Rattle.judy_leaf.specs.Fills.{made_of};
ghost use Rattle.judy_leaf.specs.KeyLists.{shift};
ghost use Rattle.judy_node.specs.Views.{view_pairs};
ghost use Rattle.judy_query.specs.Givings.{AreGiven};
ghost use Rattle.judy_query.specs.Parts.{IsEnd, IsShown, width_of};

use judy_leaf::{FromPair, Words};
use judy_node::ViewOf;

/// Writes what stands for the pairs from a place on, as many as the slice has places, their keys counted from a base.
pub(crate) fn fill_in<V: Words + Drop, E: FromPair>(
    view: &ViewOf<'_, V>,
    at: usize,
    base: u64,
    out: &mut [E],
)
    requires end { IsEnd view.now }
    requires shown { IsShown V.WORDS view.now }
    requires fits { base + 256 ^ width_of view.now ≤ 256 ^ 8 }
    requires inside { at + length out.old ≤ length (view_pairs view.now) }
    ensures { out.new
        ≡ made_of E.made (shift base (take (length out.old) (drop at (view_pairs view.now)))) }
{
    match view {
        ViewOf::Null => {}
        ViewOf::One(key, value) => fill_one(base + *key, *value, out),
        ViewOf::Imm(list) => list.fill_from(at, base, out),
        ViewOf::Leaf(list) => list.fill_from(at, base, out),
        ViewOf::BitLeaf(skipped, list) => list.fill_from(at, base + *skipped * 256, out),
        ViewOf::Branch(_) => unreachable!(),
    }
}

// The same of one pair.
fn fill_one<E: FromPair>(key: u64, value: u64, out: &mut [E])
    requires { length out.old ≤ 1 }
    ensures { out.new ≡ take (length out.old) (E.made key value ∷ []) }
{
    if !out.is_empty() {
        out[0] = E::from_pair(key, value);
    }
}

// Writes what stands for all the pairs of a list to the front of a slice, where they fit, and tells how many these are.
macro_rules! give_list {
    ($list:ident, $base:expr, $out:ident) => {{
        let count = $list.len();
        if count > $out.len() {
            return None;
        }
        $list.fill_from(0, $base, &mut $out[..count]);
        Some(count)
    }};
}

/// Writes what stands for all the pairs to the front of a slice, and answers how many these are; none, and then nothing
/// is written, where they don't fit, or the node is a branch.
// Where a node was just entered its kind is known: by a call it would be written to memory and told anew.
#[inline(always)]
pub(crate) fn give_whole<V: Words + Drop, E: FromPair>(
    view: &ViewOf<'_, V>,
    base: u64,
    out: &mut [E],
) -> Option<usize>
    requires shown { IsShown V.WORDS view.now }
    requires fits { base + 256 ^ width_of view.now ≤ 256 ^ 8 }
    ensures given { MatchOption result (out.new ≡ out.old)
        (λ count. AreGiven E.made (shift base (view_pairs view.now)) [] out.old out.new count) }
{
    match view {
        ViewOf::Imm(list) => give_list!(list, base, out),
        ViewOf::Leaf(list) => give_list!(list, base, out),
        ViewOf::BitLeaf(skipped, list) => give_list!(list, base + *skipped * 256, out),
        ViewOf::Null | ViewOf::One(_, _) | ViewOf::Branch(_) => None,
    }
}
