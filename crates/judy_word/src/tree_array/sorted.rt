//! An array made at once of pairs whose keys ascend.

ghost use Rattle.std.specs.Prelude.{◌≡◌, ◌≤◌, false, IfOk};
ghost use Rattle.std.specs.List.{AllByRecursion};
ghost use Rattle.judy_leaf.specs.KeyLists.{keys_of, values_of};
ghost use Rattle.judy_word.specs.Sorted.{IsSorted};

use crate::tree_array::TreeArray;
use judy_leaf::Words;
use judy_node::NodeOf;
use std::alloc::{AllocError, Global};

impl<V: Words + Drop> TreeArray<V> {
    /// The array with a limit that has these pairs, whose keys strictly ascend and are no more than the limit; their
    /// values are 0 where keys have none. The error is want of memory; nothing is kept then.
    pub fn from_sorted(
        alloc: Global,
        limit: u64,
        pairs: &[(u64, u64)],
    ) -> Result<TreeArray<V>, AllocError>
        requires one { V.WORDS ≤ 1 }
        requires some { 1 ≤ limit }
        requires sorted { IsSorted limit (keys_of pairs.now) }
        requires no_values { V.WORDS ≡ 0
            → AllByRecursion (λ value. value ≡ 0) (values_of pairs.now) }
        ensures pairs { IfOk result (λ array. array.tree.pairs ≡ pairs.now) }
        ensures limit { IfOk result (λ array. array.limit ≡ limit) }
        ensures tight { IfOk result (λ array. array.loose ≡ false) }
    {
        let root = NodeOf::from_sorted(alloc, pairs)?;
        Ok(TreeArray {
            limit,
            root,
            loose: false,
            alloc,
        })
    }
}
