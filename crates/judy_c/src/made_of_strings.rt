//! The calls of C that make an array of strings of two, what they have together, or a copy.
//!
//! An array that is to become one is replaced at success alone, and the others stay. No two handles of a call are one.

ghost use Rattle.std.specs.Prelude.{◌≡◌};
ghost use Rattle.judy_model.specs.TwoMaps as two;
ghost use Rattle.judy_c.specs.Combined.{IsCombined, IsDone};
ghost use Rattle.judy_c.specs.SortedStrings.{most_strings};
ghost use Rattle.judy_c.specs.StringMaps.{array_in};

use crate::combined::kinds::Joint;
use crate::combined::{combine, copy};
use crate::strings::Strings;
use std::alloc::Global;

/// Makes a map that of the keys that the one or the other has, with the one's value where both have the key, in place
/// of what it held: 1. Else it is as it was: 2, where there is no memory for them; 3, where they are more than
/// 4,294,967,295.
#[unsafe(no_mangle)]
pub extern "C" fn sellumaq_judysl_union(
    alloc: Global,
    made: &mut Strings,
    one: &mut Strings,
    other: &mut Strings,
) -> u32
    ensures answer { IsCombined most_strings
        (two.union (array_in one.old).map (array_in other.old).map)
        (array_in made.new) (made.new ≡ made.old) result }
    ensures one_stays { one.new ≡ one.old }
    ensures other_stays { other.new ≡ other.old }
{
    combine(alloc, Joint::Union, made, one, other)
}

/// Makes a map that of the keys that both have, with the one's values, in place of what it held: 1. Else it is as it
/// was: 2, where there is no memory for them; 3, where they are more than 4,294,967,295.
#[unsafe(no_mangle)]
pub extern "C" fn sellumaq_judysl_intersection(
    alloc: Global,
    made: &mut Strings,
    one: &mut Strings,
    other: &mut Strings,
) -> u32
    ensures answer { IsCombined most_strings
        (two.intersection (array_in one.old).map (array_in other.old).map)
        (array_in made.new) (made.new ≡ made.old) result }
    ensures one_stays { one.new ≡ one.old }
    ensures other_stays { other.new ≡ other.old }
{
    combine(alloc, Joint::Intersection, made, one, other)
}

/// Makes a map that of the keys of the one that the other doesn't have, in place of what it held: 1. Else it is as it
/// was: 2, where there is no memory for them; 3, where they are more than 4,294,967,295.
#[unsafe(no_mangle)]
pub extern "C" fn sellumaq_judysl_difference(
    alloc: Global,
    made: &mut Strings,
    one: &mut Strings,
    other: &mut Strings,
) -> u32
    ensures answer { IsCombined most_strings
        (two.difference (array_in one.old).map (array_in other.old).map)
        (array_in made.new) (made.new ≡ made.old) result }
    ensures one_stays { one.new ≡ one.old }
    ensures other_stays { other.new ≡ other.old }
{
    combine(alloc, Joint::Difference, made, one, other)
}

/// Makes a map that of the keys that exactly one of them has, in place of what it held: 1. Else it is as it was: 2,
/// where there is no memory for them; 3, where they are more than 4,294,967,295.
#[unsafe(no_mangle)]
pub extern "C" fn sellumaq_judysl_symmetric_difference(
    alloc: Global,
    made: &mut Strings,
    one: &mut Strings,
    other: &mut Strings,
) -> u32
    ensures answer { IsCombined most_strings
        (two.symmetric_difference (array_in one.old).map (array_in other.old).map)
        (array_in made.new) (made.new ≡ made.old) result }
    ensures one_stays { one.new ≡ one.old }
    ensures other_stays { other.new ≡ other.old }
{
    combine(alloc, Joint::SymmetricDifference, made, one, other)
}

/// Makes a map a copy of another, in place of what it held: 1. Else it is as it was, where there is no memory: 2. The
/// two handles are two.
#[unsafe(no_mangle)]
pub extern "C" fn sellumaq_judysl_copy(
    alloc: Global,
    made: &mut Strings,
    handle: &mut Strings,
) -> u32
    ensures answer { IsDone (array_in made.new ≡ array_in handle.old) (made.new ≡ made.old) result }
    ensures stays { handle.new ≡ handle.old }
{
    copy(alloc, made, handle)
}
