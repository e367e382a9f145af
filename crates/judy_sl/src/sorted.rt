//! Arrays made at once of strings that ascend.

ghost use Rattle.std.specs.Prelude.{◌≡◌, ◌≤◌, IfOk, IfErr, OnOk, IfSome};
ghost use Rattle.std.specs.FinMap as finmap;
ghost use Rattle.std.specs.Option.{option_copied};
ghost use Rattle.std.specs.Ordering.{is_lt};
ghost use Rattle.judy_model.specs.Arrays.{with_map};
ghost use Rattle.judy_model.specs.DumpGrammar.{is_above};
ghost use Rattle.judy_model.specs.Keys.{byte_order};
ghost use Rattle.judy_sl.specs.Pieces.{IsText};
ghost use Rattle.judy_sl.specs.Planted.{followers};
ghost use Rattle.judy_sl.specs.Sorted.{pairs_in, strings_in, with_pairs, IsSorted, IsFault};

use crate::error::SlError;
use crate::judysl::StringsOf;
use crate::keys::{KeyLength, is_key_of};
use crate::pieces::first_piece;
use crate::planting::opens;
use std::alloc::Global;
use thiserror::Error;

/// Why no array was made of a list of strings: what is wrong with the first that doesn't fit, or want of memory.
#[derive(Clone, Copy, Debug, PartialEq, Eq, Error)]
pub enum SlSortedError {
    /// The string at this place, counted from 0, is no key: it has more bytes than a key may have, or one of them is
    /// zero.
    #[error("the string at place {0} is no key")]
    BadKey(usize),
    /// The string at this place, counted from 0, isn't above the one before it.
    #[error("the string at place {0} isn't above the one before it")]
    NotAscending(usize),
    /// The string at this place, counted from 0, is one more than the limit allows.
    #[error("the array is full before the string at place {0}")]
    Full(usize),
    /// The strings fit, and there is no memory for them.
    #[error("out of memory")]
    NoMemory,
}

// Whether a string is below another one. They are compared piece by piece, and of most the first pieces decide.
fn is_below(one: &[u8], other: &[u8]) -> bool
    requires one { IsText one.now }
    requires other { IsText other.now }
    ensures { result ≡ is_lt (byte_order one.now other.now) }
{
    let mut left = one;
    let mut right = other;
    'pieces: loop {
        let piece = first_piece(left);
        let beside = first_piece(right);
        if piece != beside {
            return piece < beside;
        }
        if left.len() <= 8 {
            return right.len() > 8;
        }
        if right.len() <= 8 {
            return false;
        }
        left = &left[8..];
        right = &right[8..];
    }
}

// Whether a string is above the one before it, if there is one.
fn comes_after(before: Option<&[u8]>, key: &[u8]) -> bool
    requires before { IfSome (option_copied before) IsText }
    requires key { IsText key.now }
    ensures { result ≡ is_above byte_order (option_copied before.entry) key.now }
{
    match before {
        None => true,
        Some(before) => is_below(before, key),
    }
}

/// Whether the strings of a list are keys that strictly ascend, and are no more than a limit; else what is wrong with
/// the first that doesn't fit, as `from_sorted` tells it. It asks for no memory.
///
///     check_sorted::<StoreKeys>(9, &[(b"pear", 1), (b"fig", 2)])       // Err(SlSortedError::NotAscending(1))
pub fn check_sorted<L: KeyLength>(limit: u64, pairs: &[(&[u8], u64)]) -> Result<(), SlSortedError>
    ensures sorted { OnOk result (IsSorted L.IsKey limit (strings_in pairs.now)) }
    ensures refused { IfErr result (IsFault L.IsKey limit (strings_in pairs.now)) }
{
    let mut last = None;
    'pairs: for (at, pair) in pairs.iter().enumerate() {
        let key = pair.0;
        if !is_key_of::<L>(key) {
            return Err(SlSortedError::BadKey(at));
        }
        if !comes_after(last, key) {
            return Err(SlSortedError::NotAscending(at));
        }
        if at as u64 == limit {
            return Err(SlSortedError::Full(at));
        }
        last = Some(key);
    }
    Ok(())
}

// Gives those keys their values that aren't the first of all which begin with the same whole piece, one after the
// other.
fn put_followers<L: KeyLength>(
    array: &mut StringsOf<L>,
    pairs: &[(&[u8], u64)],
) -> Result<(), SlError>
    ensures { OnOk result (array.new
        ≡ with_map array.old (with_pairs array.old.map (followers 0 (pairs_in pairs.now)))) }
{
    let mut low = 0;
    'pairs: for pair in pairs {
        if opens(low, pair.0) {
            low = first_piece(pair.0);
        } else {
            let slot = array.ins(pair.0)?;
            *slot = pair.1;
        }
    }
    Ok(())
}

impl<L: KeyLength> StringsOf<L> {
    /// The array with a limit, from 1 to 4,294,967,295, that has these pairs of a string and its value, whose strings
    /// are keys that strictly ascend. (This project's own.)
    ///
    /// The error tells the first string that is no key, isn't above the one before it, or is one more than the limit,
    /// by its place; `NoMemory` only where there is none. Nothing is kept then.
    ///
    ///     let prices = JudySl::from_sorted(alloc, 100, &[(b"apple", 30), (b"fig", 45)])?;
    pub fn from_sorted(
        alloc: Global,
        limit: u64,
        pairs: &[(&[u8], u64)],
    ) -> Result<StringsOf<L>, SlSortedError>
        requires some { 1 ≤ limit }
        requires most { limit ≤ 4294967295 }
        ensures pairs { IfOk result (λ a. finmap.entries a.map ≡ pairs_in pairs.now) }
        ensures limit { IfOk result (λ a. a.limit ≡ limit) }
        ensures sorted { OnOk result (IsSorted L.IsKey limit (strings_in pairs.now)) }
        ensures refused { IfErr result (IsFault L.IsKey limit (strings_in pairs.now)) }
    {
        check_sorted::<L>(limit, pairs)?;
        let Ok(mut array) = StringsOf::of_openers(alloc, limit, pairs) else {
            return Err(SlSortedError::NoMemory);
        };
        match put_followers(&mut array, pairs) {
            Ok(()) => Ok(array),
            Err(_) => Err(SlSortedError::NoMemory),
        }
    }
}
