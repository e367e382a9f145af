//! New arrays of the keys that two have together, sets of sets and maps of maps.

ghost use Rattle.std.specs.Prelude.{◌≡◌, ◌≤◌, false, OnOk, OnErr, IfOk, IfErr, IfSome};
ghost use Rattle.std.specs.FinMap as map;
ghost use Rattle.judy_model.specs.Arrays as arrays;
ghost use Rattle.judy_model.specs.TwoMaps as two;
ghost use Rattle.judy_word.specs.WordArrays.{array_of, no_keys};
ghost use Rattle.judy_sets.specs.Fills.{IsMade, IsNew, IsRefused, IsRootOf};
ghost use Rattle.judy_sets.specs.Results.{kept};

use crate::fills::{are_sought, exceeds, filled};
use judy_combine::{Keep, combined_tree};
use judy_leaf::Words;
use judy_node::NodeOf;
use judy_word::{InsertError, WordArray};
use std::alloc::{AllocError, Global};

/// The array with a limit, at least 1, of the keys that are kept. Of a key that both have, the value is that of the
/// one.
///
/// `Full` where they are more than the limit, which is told before memory is asked for; `NoMemory` where there is none.
/// It takes one way through both. Nodes that one alone has are copied.
pub fn combined<V: Words + Drop>(
    alloc: Global,
    limit: u64,
    keep: Keep,
    one: &WordArray<V>,
    other: &WordArray<V>,
) -> Result<WordArray<V>, InsertError>
    requires one { V.WORDS ≤ 1 }
    requires some { 1 ≤ limit }
    ensures { IsMade limit (kept keep one.now.map other.now.map) result }
{
    if exceeds(limit, keep, one, other) {
        return Err(InsertError::Full);
    }
    match made(alloc, limit, keep, one, other) {
        Ok(array) => Ok(array),
        Err(_) => Err(InsertError::NoMemory),
    }
}

// The same, where they aren't more than the limit: node by node, or else by their pairs.
fn made<V: Words + Drop>(
    alloc: Global,
    limit: u64,
    keep: Keep,
    one: &WordArray<V>,
    other: &WordArray<V>,
) -> Result<WordArray<V>, AllocError>
    requires one { V.WORDS ≤ 1 }
    requires some { 1 ≤ limit }
    requires within { map.len (kept keep one.now.map other.now.map) ≤ limit }
    ensures { IfOk result (IsNew limit (kept keep one.now.map other.now.map)) }
{
    if let Some(root) = by_nodes(alloc, limit, keep, one, other)? {
        return Ok(WordArray::of_root(alloc, limit, root));
    }
    match filled(alloc, limit, keep, one, other)?.into_array() {
        Ok(made) => Ok(made),
        Err(_) => Err(AllocError),
    }
}

// The tree of what is kept, where neither array is loose and both roots are branches whose keys begin with the same
// bytes. Where one has few keys of which those that both have are kept, they are sooner looked up.
fn by_nodes<V: Words + Drop>(
    alloc: Global,
    limit: u64,
    keep: Keep,
    one: &WordArray<V>,
    other: &WordArray<V>,
) -> Result<Option<NodeOf<V>>, AllocError>
    requires one { V.WORDS ≤ 1 }
    requires within { map.len (kept keep one.now.map other.now.map) ≤ limit }
    ensures { IfOk result (λ made. IfSome made (IsRootOf (kept keep one.now.map other.now.map))) }
{
    if one.is_loose() || other.is_loose() || are_sought(keep, one, other) {
        return Ok(None);
    }
    let (left, right) = (one.root(), other.root());
    left.law();
    right.law();
    let Some(tree) = combined_tree(alloc, keep, left, right)? else {
        return Ok(None);
    };
    tree.law();
    Ok(Some(tree))
}

/// The array of the keys that the one or the other has, as [`combined`] makes it.
///
///     let all = union(alloc, 100, &one, &other)?;
pub fn union<V: Words + Drop>(
    alloc: Global,
    limit: u64,
    one: &WordArray<V>,
    other: &WordArray<V>,
) -> Result<WordArray<V>, InsertError>
    requires one { V.WORDS ≤ 1 }
    requires some { 1 ≤ limit }
    ensures { IsMade limit (two.union one.now.map other.now.map) result }
{
    combined(alloc, limit, Keep::UNION, one, other)
}

/// The array of the keys that both have, as [`combined`] makes it.
pub fn intersection<V: Words + Drop>(
    alloc: Global,
    limit: u64,
    one: &WordArray<V>,
    other: &WordArray<V>,
) -> Result<WordArray<V>, InsertError>
    requires one { V.WORDS ≤ 1 }
    requires some { 1 ≤ limit }
    ensures { IsMade limit (two.intersection one.now.map other.now.map) result }
{
    combined(alloc, limit, Keep::INTERSECTION, one, other)
}

/// The array of the keys of the one that the other lacks, as [`combined`] makes it.
pub fn difference<V: Words + Drop>(
    alloc: Global,
    limit: u64,
    one: &WordArray<V>,
    other: &WordArray<V>,
) -> Result<WordArray<V>, InsertError>
    requires one { V.WORDS ≤ 1 }
    requires some { 1 ≤ limit }
    ensures { IsMade limit (two.difference one.now.map other.now.map) result }
{
    combined(alloc, limit, Keep::DIFFERENCE, one, other)
}

/// The array of the keys that exactly one of them has, as [`combined`] makes it.
pub fn symmetric_difference<V: Words + Drop>(
    alloc: Global,
    limit: u64,
    one: &WordArray<V>,
    other: &WordArray<V>,
) -> Result<WordArray<V>, InsertError>
    requires one { V.WORDS ≤ 1 }
    requires some { 1 ≤ limit }
    ensures { IsMade limit (two.symmetric_difference one.now.map other.now.map) result }
{
    combined(alloc, limit, Keep::SYMMETRIC_DIFFERENCE, one, other)
}

/// Moves all keys of another array into this one, which keeps its limit, and leaves the other empty. A key that both
/// have keeps its value. The nodes are new ones, each as small as its keys allow.
///
/// `Full` and `NoMemory` as [`combined`]. Either leaves both as they were.
pub fn append<V: Words + Drop>(
    alloc: Global,
    array: &mut WordArray<V>,
    other: &mut WordArray<V>,
) -> Result<(), InsertError>
    requires { V.WORDS ≤ 1 }
    ensures joined { OnOk result (array_of array.new
        ≡ arrays.with_map (array_of array.old) (two.union array.old.map other.old.map)) }
    ensures tight { OnOk result (array.new.loose ≡ false) }
    ensures emptied { OnOk result (other.new ≡ no_keys other.old.limit) }
    ensures unchanged { OnErr result (array.new ≡ array.old) }
    ensures other_unchanged { OnErr result (other.new ≡ other.old) }
    ensures refused { IfErr result
        (IsRefused array.old.limit (two.union array.old.map other.old.map)) }
{
    let limit = array.limit();
    let joined = union(alloc, limit, array, other)?;
    *array = joined;
    other.free_array();
    Ok(())
}
