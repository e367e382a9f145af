//! The worked rows of nodes on the arrays of words themselves: their shapes as keys come and go. With ample memory no
//! change makes an array loose.

use crate::changes::Change;
use crate::nodes::{Counts, same_shape};
use crate::plain::same_answer;
use judy_leaf::ValueWords;
use judy_node::Shape;
use judy_word::{Judy1, JudyL};
use std::alloc::{AllocError, Global};
use std::process::Abort;

// More keys than a row has.
const LIMIT: u64 = 1000;

// An array of words, as the rows change it and look at it.
pub(crate) trait ShapedArray: Drop {
    // One without keys.
    fn empty(alloc: Global) -> Self;

    // Puts a key in or takes it out; true where it is there now, or was there.
    fn change(&mut self, key: u64, put: bool) -> bool;

    // How many nodes of each kind there are, and whether one may be larger than its keys need.
    fn nodes(&self) -> (Shape, bool);
}

impl ShapedArray for Judy1 {
    fn empty(alloc: Global) -> Judy1 {
        Judy1::new(alloc, LIMIT)
    }

    fn change(&mut self, key: u64, put: bool) -> bool {
        if put {
            self.set(key).is_ok()
        } else {
            self.unset(key)
        }
    }

    fn nodes(&self) -> (Shape, bool) {
        (self.shape(), self.is_loose())
    }
}

impl ShapedArray for JudyL {
    fn empty(alloc: Global) -> JudyL {
        JudyL::new(alloc, LIMIT)
    }

    fn change(&mut self, key: u64, put: bool) -> bool {
        if put {
            self.put(key, !key).is_ok()
        } else {
            self.del(key)
        }
    }

    fn nodes(&self) -> (Shape, bool) {
        (self.shape(), self.is_loose())
    }
}

// Puts a key in or takes it out, and finds the array not loose.
fn change_key<A: ShapedArray>(rt: &impl Abort, array: &mut A, key: u64, put: bool) {
    assert!(rt; array.change(key, put), "{key}");
    same_answer(rt, array.nodes().1, false);
}

// Puts the keys of pairs in, or takes them out.
fn change_keys<A: ShapedArray>(rt: &impl Abort, array: &mut A, pairs: &[(u64, u64)], put: bool) {
    for &(key, _) in pairs {
        change_key(rt, array, key, put);
    }
}

// Makes changes to an array one after the other, and compares its shape after each.
pub(crate) fn check_array<A: ShapedArray>(
    rt: &impl Abort,
    alloc: Global,
    changes: &[(Change, Counts)],
) -> Result<(), AllocError> {
    let mut array = A::empty(alloc);
    for (change, counts) in changes {
        let (keys, put) = match change {
            Change::In(keys) => (keys, true),
            Change::Out(keys) => (keys, false),
        };
        change_keys(
            rt,
            &mut array,
            &keys.pairs::<ValueWords<0>>(rt, alloc)?,
            put,
        );
        same_shape(rt, array.nodes().0, *counts);
    }
    Ok(())
}

// The set of the keys of pairs.
pub(crate) fn set_of(rt: &impl Abort, alloc: Global, pairs: &[(u64, u64)]) -> Judy1 {
    let mut set = Judy1::empty(alloc);
    change_keys(rt, &mut set, pairs, true);
    set
}
