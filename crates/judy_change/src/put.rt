//! A child put into a branch.

ghost use Rattle.std.specs.Prelude.{◌≡◌, ◌+◌, ◌-◌, ◌*◌, ◌^◌, ◌<◌, ◌≤◌, false, List, length, [], ◌∷◌, ◌++◌, ◌%◌, vec_len, vec_capacity};
ghost use Rattle.std.specs.List.{insert};
ghost use Rattle.judy_model.specs.WordBytes.{number_of};
ghost use Rattle.judy_model.specs.Forms.{loose_in};
ghost use Rattle.judy_bits.specs.ByteSets as set;
ghost use Rattle.judy_node.specs.Trees.{IsTight, IsChild, forms_in};
ghost use Rattle.judy_node.specs.Branches.{IsWholeBranch, tree_below};
ghost use Rattle.judy_node.specs.Populations.{AreSums};
ghost use Rattle.judy_change.specs.Inserted.{IsAdded, IsInserted};

use crate::insertion::{Inserted, Insertion};
use judy_leaf::Words;
use judy_node::{BranchOf, ChildOf, immediate_of_one, make_room};
use std::alloc::AllocError;

// The node of one key with its value. It takes no memory.
pub(crate) fn one_key<V: Words + Drop>(width: u8, key: u64, value: u64) -> ChildOf<V>
    requires one { V.WORDS ≤ 1 }
    requires width { (1 ≤ width) × (width ≤ 7) }
    requires fits { key < 256 ^ width }
    requires no_value { V.WORDS ≡ 0 → value ≡ 0 }
    ensures child { IsChild V.WORDS width result }
    ensures pairs { result.pairs ≡ (key, value) ∷ [] }
    ensures tight { IsTight result }
{
    ChildOf::close(immediate_of_one(width, key, value))
}

// Moves the last of some values to a place before it; those from there on move up by one, by one `memmove`.
fn last_to<T>(items: &mut [T], place: usize)
    requires { place < length items.old }
    ensures { (front : List T) (last : T) → items.old ≡ front ++ last ∷ []
        → items.new ≡ insert front place last }
{
    items[place..].rotate_right(1);
}

// Puts a child in at the place of its byte, which has none; there is room for it among the children. It is put behind
// them first, since `Vec::insert` would move those behind its place one by one.
pub(crate) fn add_child<V: Words + Drop>(
    branch: &mut BranchOf<V>,
    place: usize,
    byte: u8,
    child: ChildOf<V>,
)
    requires place { place ≡ set.rank branch.old.bytes byte }
    requires within { place ≤ length branch.old.children.items }
    requires room { vec_len branch.old.children < vec_capacity branch.old.children }
    ensures bytes { branch.new.bytes ≡ set.with_byte branch.old.bytes byte }
    ensures children { branch.new.children.items
        ≡ insert branch.old.children.items (set.rank branch.old.bytes byte) child }
    ensures skip { branch.new.skip ≡ branch.old.skip }
    ensures width { branch.new.width ≡ branch.old.width }
    ensures population { branch.new.population ≡ branch.old.population }
    ensures sums { branch.new.sums ≡ branch.old.sums }
    ensures len { vec_len branch.new.children ≡ vec_len branch.old.children + 1 }
    ensures capacity { vec_capacity branch.old.children ≤ vec_capacity branch.new.children }
{
    branch.bytes.add(byte);
    branch.children.push_reserved(child);
    last_to(&mut branch.children, place);
}

// Puts the node of a key with its value in as the child of a byte, which has none; there is room for it among the
// children. The key is given as the byte, with its place, and what is left of it.
pub(crate) fn put_key<V: Words + Drop>(
    branch: &mut BranchOf<V>,
    place: usize,
    byte: u8,
    rest: u64,
    value: u64,
)
    requires one { V.WORDS ≤ 1 }
    requires level { IsWholeBranch V.WORDS branch.old }
    requires spare { vec_len branch.old.children < vec_capacity branch.old.children }
    requires absent { set.has branch.old.bytes byte ≡ false }
    requires place { place ≡ set.rank branch.old.bytes byte }
    requires fits { rest < 256 ^ branch.old.width }
    requires no_value { V.WORDS ≡ 0 → value ≡ 0 }
    requires room { branch.old.population < 2 ^ 64 - 1 }
    ensures level { IsWholeBranch V.WORDS branch.new }
    ensures skip { branch.new.skip ≡ branch.old.skip }
    ensures width { branch.new.width ≡ branch.old.width }
    ensures population { branch.new.population ≡ branch.old.population + 1 }
    ensures sums { branch.new.sums ≡ branch.old.sums }
    ensures wider { length branch.new.bytes ≡ length branch.old.bytes + 1 }
    ensures loose { loose_in (forms_in branch.new.children.items)
        ≡ loose_in (forms_in branch.old.children.items) }
    ensures added { IsAdded
        ((number_of branch.old.skip * 256 + byte) * 256 ^ branch.old.width + rest) value
        (tree_below branch.old)
        (tree_below branch.new) }
{
    let child = one_key(branch.width, rest, value);
    add_child(branch, place, byte, child);
    branch.population += 1;
}

// The same, with room asked for first. The error is want of memory; the branch is the old one then. Where the last of
// 256 children comes, they are summed, if there is memory for that too.
pub(crate) fn put_child<V: Words + Drop>(
    branch: &mut BranchOf<V>,
    place: usize,
    byte: u8,
    pair: Insertion,
) -> Inserted
    requires one { V.WORDS ≤ 1 }
    requires level { IsWholeBranch V.WORDS branch.old }
    requires sums { AreSums branch.old.sums branch.old.children.items }
    requires absent { set.has branch.old.bytes byte ≡ false }
    requires place { place ≡ set.rank branch.old.bytes byte }
    requires fits { pair.key < 256 ^ branch.old.width }
    requires no_value { V.WORDS ≡ 0 → pair.value ≡ 0 }
    requires room { branch.old.population < 2 ^ 64 - 1 }
    ensures level { IsWholeBranch V.WORDS branch.new }
    ensures sums { AreSums branch.new.sums branch.new.children.items }
    ensures skip { branch.new.skip ≡ branch.old.skip }
    ensures width { branch.new.width ≡ branch.old.width }
    ensures inserted { IsInserted
        ((number_of branch.old.skip * 256 + byte) * 256 ^ branch.old.width + pair.key) pair.value
        (tree_below branch.old)
        (tree_below branch.new) result }
{
    if make_room(&mut branch.children).is_err() {
        return Err(AllocError);
    }
    put_key(branch, place, byte, pair.key, pair.value);
    if branch.children.len() == 256 {
        branch.sums = branch.sums_of_children(pair.alloc);
    }
    Ok(true)
}
