//! The pairs of a node that isn't a branch, one after another.

ghost use Rattle.std.specs.Prelude.{◌≡◌, ◌+◌, ◌^◌, ◌≤◌, length, drop, min};
ghost use Rattle.std.specs.Iterator.{YieldsFirst};
ghost use Rattle.judy_leaf.specs.KeyLists.{shift};
ghost use Rattle.judy_node.specs.Views.{view_pairs};
ghost use Rattle.judy_query.specs.Givings.{AreGiven};
ghost use Rattle.judy_query.specs.Parts.{IsEnd, IsShown, width_of};

use crate::ends::len_in;
use crate::givings::fill_in;
use crate::scan::{byte_before, entry_on};
use judy_leaf::{FromPair, Words};
use judy_node::ViewOf;
use std::marker::Model;

/// The pairs of a node that isn't a branch, from a place on, their keys counted from a base. To its callers it is the
/// list of those that are left.
#[derive(Drop)]
pub(crate) struct Stretch<'a, V: Words + Drop> {
    view: ViewOf<'a, V>,
    base: u64,
    at: u64,
    len: u64,
    // Where a bitmap leaf is looked through from.
    byte: u64,
}

impl<'a, V: Words + Drop> Model for Stretch<'a, V> {
    ghost use Rattle.std.specs.Prelude.{ℕ, List, drop};
    ghost use Rattle.judy_leaf.specs.KeyLists.{shift};
    ghost use Rattle.judy_node.specs.Views.{view_pairs};
    ghost use Rattle.judy_query.specs.Walks.{IsStretch};

    ghost Value = { List (ℕ × ℕ) };

    ghost view = { λ a. shift a.base (drop a.at (view_pairs a.view)) };

    ghost invariant = { λ a. IsStretch V.WORDS a.view a.base a.at a.len a.byte };
}

impl<'a, V: Words + Drop> Stretch<'a, V> {
    /// The pairs of a node from a place on.
    pub(crate) fn new(view: ViewOf<'a, V>, base: u64, at: u64) -> Stretch<'a, V>
        requires end { IsEnd view }
        requires shown { IsShown V.WORDS view }
        requires fits { base + 256 ^ width_of view ≤ 256 ^ 8 }
        requires within { at ≤ length (view_pairs view) }
        ensures { result ≡ shift base (drop at (view_pairs view.entry)) }
    {
        let len = len_in(&view);
        let byte = byte_before(&view, at);
        Stretch {
            view,
            base,
            at,
            len,
            byte,
        }
    }

    /// The next pair; none where none is left.
    pub(crate) fn next(&mut self) -> Option<(u64, u64)>
        ensures { YieldsFirst (λ pairs. pairs) self.old result self.new }
    {
        if self.at == self.len {
            return None;
        }
        let (key, value) = entry_on(&self.view, self.at, &mut self.byte);
        self.at += 1;
        Some((self.base + key, value))
    }

    /// Writes what stands for the next pairs to the front of a slice, as many as there are and it has places for, and
    /// answers how many these are.
    pub(crate) fn fill<E: FromPair>(&mut self, out: &mut [E]) -> usize
        ensures given { AreGiven E.made self.old self.new out.old out.new result }
        ensures most { result ≡ min (length out.old) (length self.old) }
    {
        let count = out.len().min((self.len - self.at) as usize);
        fill_in(&self.view, self.at as usize, self.base, &mut out[..count]);
        self.at += count as u64;
        self.byte = byte_before(&self.view, self.at);
        count
    }
}
