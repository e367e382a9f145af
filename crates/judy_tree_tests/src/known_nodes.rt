//! What the calls on arrays of words say of nodes, each clause by a caller whose own contract needs it: none of these
//! is proved without the clause that its comment tells.
ghost use Rattle.std.specs.Prelude.{◌≡◌, None, true, false, IfOk, IsOk, OnErr, IsTrue};
ghost use Rattle.std.specs.FinMap as map;
ghost use Rattle.judy_model.specs.Shapes.{shape_of};
ghost use Rattle.judy_change.specs.Removals.{Has33};
ghost use Rattle.judy_node.specs.ShapeSums.{shape_as};
ghost use Rattle.judy_model.specs.Arrays as array;
ghost use Rattle.judy_word.specs.Held.{with_new};
ghost use Rattle.judy_word.specs.WordArrays.{array_of};

use crate::plain::{same_answer, same_number};
use judy_node::Shape;
use judy_unmetered::UNMETERED;
use judy_word::{InsertError, Judy1, JudyL};
use std::alloc::{AllocError, Global};
use std::process::Abort;

// Makes a map's nodes tight and counts them; where the map isn't loose there always is memory: each clause of `tidy`.
fn tight_shape(pairs: &mut JudyL) -> Result<Shape, AllocError>
    ensures rule { IfOk result (λ shape. shape_as shape ≡ shape_of 1 (map.keys pairs.old.map)) }
    ensures same { array_of pairs.new ≡ array_of pairs.old }
    ensures unchanged { OnErr result (pairs.new ≡ pairs.old) }
    ensures done { pairs.old.loose ≡ false → IsOk result }
    ensures nothing { pairs.old.loose ≡ false → pairs.new ≡ pairs.old }
{
    pairs.tidy()?;
    Ok(pairs.shape())
}

// Takes a key out of a map that isn't there, which leaves each node: `absent` of `del`.
fn left_alone_by_del(pairs: &mut JudyL, key: u64) -> bool
    requires { map.get pairs.old.map key ≡ None }
    ensures { pairs.new ≡ pairs.old }
{
    pairs.del(key)
}

// The same by `remove`.
fn left_alone_by_remove(pairs: &mut JudyL, key: u64) -> Option<u64>
    requires { map.get pairs.old.map key ≡ None }
    ensures { pairs.new ≡ pairs.old }
{
    pairs.remove(key)
}

// Copies a set and counts the copy's nodes: `same` and `tight` of `try_clone`.
fn shape_of_copy(set: &Judy1) -> Result<Shape, AllocError>
    ensures { IfOk result (λ shape. shape_as shape ≡ shape_of 0 (map.keys set.now.map)) }
{
    let copy = set.try_clone()?;
    Ok(copy.shape())
}

// Counts a set's nodes that isn't loose: `rule` of `shape`.
fn shape_by_rule(set: &Judy1) -> Shape
    requires { set.now.loose ≡ false }
    ensures { shape_as result ≡ shape_of 0 (map.keys set.now.map) }
{
    set.shape()
}

// The same of a map.
fn shape_by_rule_of_map(pairs: &JudyL) -> Shape
    requires { pairs.now.loose ≡ false }
    ensures { shape_as result ≡ shape_of 1 (map.keys pairs.now.map) }
{
    pairs.shape()
}

// Counts a set's nodes, loose or not, by the set and by its tree: `nodes` of `shape` and of `root`.
fn counted_twice(set: &Judy1) -> (Shape, Shape)
    ensures { shape_as result.0 ≡ shape_as result.1 }
{
    (set.shape(), set.root().shape(UNMETERED))
}

// The same of a map.
fn counted_twice_of_map(pairs: &JudyL) -> (Shape, Shape)
    ensures { shape_as result.0 ≡ shape_as result.1 }
{
    (pairs.shape(), pairs.root().shape(UNMETERED))
}

// Takes a key out, and answers whether that made the set loose: `loosened` of `unset`.
fn loosened(set: &mut Judy1, key: u64) -> bool
    ensures { IsTrue result → Has33 8 (map.entries set.old.map) key }
{
    let loose = set.is_loose();
    set.unset(key);
    !loose && set.is_loose()
}

// Takes a key out of a set that is loose, which it stays: `loose` of `unset`.
fn still_loose(set: &mut Judy1, key: u64) -> bool
    requires { set.old.loose ≡ true }
    ensures { set.new.loose ≡ true }
{
    set.unset(key)
}

// Puts a key into a map that isn't loose and counts its nodes: `loose` of `ins`, by its slot.
fn shape_by_ins(pairs: &mut JudyL, key: u64, value: u64) -> Result<Shape, InsertError>
    requires { pairs.old.loose ≡ false }
    ensures { IfOk result (λ shape. shape_as shape
        ≡ shape_of 1 (map.keys (array.write pairs.old.map key value))) }
{
    *pairs.ins(key)? = value;
    Ok(pairs.shape())
}

// The same: `loose` of `insert`.
fn shape_by_insert(pairs: &mut JudyL, key: u64, value: u64) -> Result<Shape, InsertError>
    requires { pairs.old.loose ≡ false }
    ensures { IfOk result (λ shape. shape_as shape
        ≡ shape_of 1 (map.keys (array.write pairs.old.map key value))) }
{
    pairs.insert(key, value)?;
    Ok(pairs.shape())
}

// The same: `loose` of `put`.
fn shape_by_put(pairs: &mut JudyL, key: u64, value: u64) -> Result<Shape, InsertError>
    requires { pairs.old.loose ≡ false }
    ensures { IfOk result (λ shape. shape_as shape
        ≡ shape_of 1 (map.keys (array.write pairs.old.map key value))) }
{
    pairs.put(key, value)?;
    Ok(pairs.shape())
}

// The same, where a key that is there keeps its value: `loose` of `put_if_absent`.
fn shape_by_put_if_absent(pairs: &mut JudyL, key: u64, value: u64) -> Result<Shape, InsertError>
    requires { pairs.old.loose ≡ false }
    ensures { IfOk result (λ shape. shape_as shape
        ≡ shape_of 1 (map.keys (with_new pairs.old.map key value))) }
{
    pairs.put_if_absent(key, value)?;
    Ok(pairs.shape())
}

// The same of a set: `loose` of `set`.
fn shape_by_set(set: &mut Judy1, key: u64) -> Result<Shape, InsertError>
    requires { set.old.loose ≡ false }
    ensures { IfOk result (λ shape. shape_as shape
        ≡ shape_of 0 (map.keys (array.ins set.old.map key))) }
{
    set.set(key)?;
    Ok(set.shape())
}

// Puts a key in that is there, which leaves each node: `present` of `set`.
fn left_alone_by_set(set: &mut Judy1, key: u64) -> Result<bool, InsertError>
    requires { map.contains_key set.old.map key ≡ true }
    ensures { set.new ≡ set.old }
{
    set.set(key)
}

// The same: `present` of `put_if_absent`.
fn left_alone_by_put(pairs: &mut JudyL, key: u64, value: u64) -> Result<bool, InsertError>
    requires { map.contains_key pairs.old.map key ≡ true }
    ensures { pairs.new ≡ pairs.old }
{
    pairs.put_if_absent(key, value)
}

// Takes a key out of a set that isn't there, which leaves each node: `absent` of `unset`.
fn left_alone_by_unset(set: &mut Judy1, key: u64) -> bool
    requires { map.contains_key set.old.map key ≡ false }
    ensures { set.new ≡ set.old }
{
    set.unset(key)
}

// More keys than a test puts in.
const LIMIT: u64 = 100;

// The set of the words below 32, whose nodes are one leaf.
fn leaf_of_set(rt: &impl Abort, alloc: Global) -> Judy1 {
    let mut set = Judy1::new(alloc, LIMIT);
    for word in 0..32 {
        same_answer(rt, set.set(word).is_ok(), true);
    }
    set
}

// The map of the same keys, each its own value.
fn leaf_of_map(rt: &impl Abort, alloc: Global) -> JudyL {
    let mut pairs = JudyL::new(alloc, LIMIT);
    for word in 0..32 {
        same_answer(rt, pairs.put(word, word).is_ok(), true);
    }
    pairs
}

// Compares how many leaves there are with one.
fn one_leaf(rt: &impl Abort, shape: Shape) {
    assert_eq!(rt; shape.leaves, 1);
}

#[test]
fn nodes_of_a_set(rt: HostRuntime) -> Result<(), AllocError> {
    let mut set = leaf_of_set(&rt, rt.alloc());
    one_leaf(&rt, shape_of_copy(&set)?);
    one_leaf(&rt, counted_twice(&set).1);
    same_answer(&rt, loosened(&mut set, 31), false);
    if set.is_loose() {
        still_loose(&mut set, 30);
    } else {
        one_leaf(&rt, shape_by_rule(&set));
    }
    Ok(())
}

#[test]
fn nodes_of_a_map(rt: HostRuntime) -> Result<(), AllocError> {
    let mut pairs = leaf_of_map(&rt, rt.alloc());
    one_leaf(&rt, tight_shape(&mut pairs)?);
    one_leaf(&rt, counted_twice_of_map(&pairs).1);
    if !pairs.is_loose() {
        one_leaf(&rt, shape_by_rule_of_map(&pairs));
    }
    if pairs.get(32).is_none() {
        same_answer(&rt, left_alone_by_del(&mut pairs, 32), false);
        same_number(&rt, left_alone_by_remove(&mut pairs, 32), None, 32);
    }
    same_number(&rt, Some(pairs.len()), Some(32), 32);
    Ok(())
}

// Compares how many leaves and bitmap leaves there are with one bitmap leaf.
fn one_bitmap_leaf(rt: &impl Abort, shape: Result<Shape, InsertError>) {
    let shape = shape.expect(rt, "there is memory and room");
    assert_eq!(rt; (shape.leaves, shape.bitmap_leaves), (0, 1));
}

#[test]
fn nodes_of_a_set_by_inserts(rt: HostRuntime) {
    let mut set = leaf_of_set(&rt, rt.alloc());
    if !set.is_loose() {
        one_bitmap_leaf(&rt, shape_by_set(&mut set, 32));
    }
    if set.test(32) {
        same_answer(&rt, left_alone_by_set(&mut set, 32).is_ok(), true);
    }
    if !set.test(33) {
        same_answer(&rt, left_alone_by_unset(&mut set, 33), false);
    }
    same_number(&rt, Some(set.len()), Some(33), 33);
}

#[test]
fn nodes_of_a_map_by_inserts(rt: HostRuntime) {
    let mut pairs = leaf_of_map(&rt, rt.alloc());
    if !pairs.is_loose() {
        one_bitmap_leaf(&rt, shape_by_ins(&mut pairs, 32, 320));
    }
    if !pairs.is_loose() {
        one_bitmap_leaf(&rt, shape_by_insert(&mut pairs, 33, 330));
    }
    if !pairs.is_loose() {
        one_bitmap_leaf(&rt, shape_by_put(&mut pairs, 34, 340));
    }
    if !pairs.is_loose() {
        one_bitmap_leaf(&rt, shape_by_put_if_absent(&mut pairs, 35, 350));
    }
    if pairs.get(35).is_some() {
        same_answer(&rt, left_alone_by_put(&mut pairs, 35, 0).is_ok(), true);
    }
    for key in 32..36 {
        same_number(&rt, pairs.get(key), Some(key * 10), key);
    }
}
