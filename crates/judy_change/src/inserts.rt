//! A key put into a tree, and the slot of a value.

ghost use Rattle.std.specs.Prelude.{◌≡◌, ◌-◌, ◌^◌, ◌<◌, ◌≤◌, false, true, [], length, Ok, None};
ghost use Rattle.std.specs.Borrow.{sem, LendsIf, u64 as word};
ghost use Rattle.std.specs.Option.{option_copied_mut};
ghost use Rattle.judy_node.specs.Slots.{value_of, with_value};
ghost use Rattle.judy_node.specs.contracts.node.NodeOf.{the_row};
ghost use Rattle.judy_change.specs.Inserted.{has_key, IsInserted};
ghost use Rattle.judy_change.specs.Exchanged.{IsExchanged};

use crate::insertion::Insertion;
use crate::present::{Kept, Put, Replaced};
use crate::way_down::put_in_root;
use judy_leaf::Words;
use judy_node::NodeOf;
use std::alloc::{AllocError, Global};

/// Puts a key into a tree. True: it was absent, and stands there with the value 0. False: it was there, with its value,
/// and nothing has changed; no memory is asked for. The error is want of memory, for an absent key alone; the tree is
/// the old one then, its form included. A tree without keys is never refused a key, and a tight tree stays tight.
pub fn insert<V: Words + Drop>(
    alloc: Global,
    node: &mut NodeOf<V>,
    key: u64,
) -> Result<bool, AllocError>
    requires one { V.WORDS ≤ 1 }
    requires room { has_key key node.old ≡ false → length node.old.pairs < 2 ^ 64 - 1 }
    ensures inserted { IsInserted key 0 node.old node.new result }
    ensures first { node.old.pairs ≡ [] → result ≡ Ok true }
{
    insert_with(alloc, node, key, 0)
}

/// The same with the value that an absent key is to have, 0 where keys have no values. A key that is there keeps its
/// value.
// Compiled into its callers, as `exchange` is.
#[inline(always)]
pub fn insert_with<V: Words + Drop>(
    alloc: Global,
    node: &mut NodeOf<V>,
    key: u64,
    value: u64,
) -> Result<bool, AllocError>
    requires one { V.WORDS ≤ 1 }
    requires no_value { V.WORDS ≡ 0 → value ≡ 0 }
    requires room { has_key key node.old ≡ false → length node.old.pairs < 2 ^ 64 - 1 }
    ensures inserted { IsInserted key value node.old node.new result }
    ensures first { node.old.pairs ≡ [] → result ≡ Ok true }
{
    match put_in_root::<V, Kept>(node.place.kind_mut(), Insertion { alloc, key, value }) {
        Put::Added => Ok(true),
        Put::There(_) => Ok(false),
        Put::Refused => Err(AllocError),
    }
}

/// Gives a key a value, in a tree whose keys have values, and answers the one that was there; `None` where the key was
/// absent, and was put in with the value. Nothing else changes, and where the key was there the form stays. It takes
/// one way down. The error is want of memory, for an absent key alone; the tree is the old one then, its form included.
/// A tree without keys is never refused a key, and a tight tree stays tight.
// Compiled into its callers, as what calls it is: the answer of the root doesn't go through memory then.
#[inline(always)]
pub fn exchange<V: Words + Drop>(
    alloc: Global,
    node: &mut NodeOf<V>,
    key: u64,
    value: u64,
) -> Result<Option<u64>, AllocError>
    requires words { V.WORDS ≡ 1 }
    requires room { has_key key node.old ≡ false → length node.old.pairs < 2 ^ 64 - 1 }
    ensures exchanged { IsExchanged key value node.old node.new result }
    ensures first { node.old.pairs ≡ [] → result ≡ Ok None }
{
    match put_in_root::<V, Replaced>(node.place.kind_mut(), Insertion { alloc, key, value }) {
        Put::Added => Ok(None),
        Put::There(was) => Ok(Some(was)),
        Put::Refused => Err(AllocError),
    }
}

/// Lends the value of a key, of a tree whose keys have values; none where the key is absent. The tree becomes the one
/// with the value that is left in the slot, and nothing else changes, its form neither.
pub fn slot<V: Words + Drop>(node: &mut NodeOf<V>, key: u64) -> Option<&mut u64>
    requires words { V.WORDS ≡ 1 }
    ensures* changes { sem 𝓛
        (LendsIf (the_row V.row V.Words) word node.entry result
        (with_value node.entry.now key) node.entry.now) }
    ensures value { option_copied_mut result ≡ value_of key node.old.pairs }
{
    node.slot(key)
}
