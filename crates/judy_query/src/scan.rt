//! The keys of a bitmap leaf in turn: each is looked for among the bits behind the one before, and none is counted.

ghost use Rattle.std.specs.Prelude.{◌≡◌, ◌+◌, ◌<◌, ◌≤◌, length, slice_get, Some};
ghost use Rattle.judy_bits.specs.ByteSets as set;
ghost use Rattle.judy_leaf.specs.KeyLists.{keys_of};
ghost use Rattle.judy_node.specs.Views.{view_pairs};
ghost use Rattle.judy_query.specs.Parts.{IsEnd, IsShown};
ghost use Rattle.judy_query.specs.Walks.{IsScan};

use crate::ends::entry_in;
use judy_leaf::{BitRef, Words};
use judy_node::ViewOf;

/// From where the keys of a bitmap leaf from a place on are looked for: behind the key before that place. 0 for other
/// nodes.
pub(crate) fn byte_before<V: Words + Drop>(view: &ViewOf<'_, V>, at: u64) -> u64
    requires shown { IsShown V.WORDS view.now }
    requires within { at ≤ length (view_pairs view.now) }
    ensures { IsScan view.now at result }
{
    let ViewOf::BitLeaf(_, list) = view else {
        return 0;
    };
    if at == 0 {
        0
    } else {
        behind(list, at as usize - 1)
    }
}

/// The pair at a place, counted from 0. In a bitmap leaf its key is looked for from a byte on, which then moves behind
/// it.
pub(crate) fn entry_on<V: Words + Drop>(view: &ViewOf<'_, V>, at: u64, byte: &mut u64) -> (u64, u64)
    requires end { IsEnd view.now }
    requires shown { IsShown V.WORDS view.now }
    requires inside { at < length (view_pairs view.now) }
    requires scan { IsScan view.now at byte.old }
    ensures entry { slice_get (view_pairs view.now) at ≡ Some result }
    ensures scan { IsScan view.now (at + 1) byte.new }
{
    let ViewOf::BitLeaf(skipped, list) = view else {
        return entry_in(view, at);
    };
    let key = list.next_key(*byte);
    *byte = key + 1;
    (*skipped * 256 + key, list.value_at(at as usize))
}

// The first byte behind the key at a place.
fn behind<V: Words + Drop>(list: &BitRef<'_, V>, at: usize) -> u64
    requires { at < length list.now.pairs }
    ensures { set.rank (keys_of list.now.pairs) result ≡ at + 1 }
{
    list.law();
    list.key_at(at) + 1
}
