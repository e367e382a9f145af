//! The keys of an array, looked up in another that has many more.

ghost use Rattle.std.specs.Prelude.{◌≡◌, ◌≤◌, [], ◌∷◌, if◌then◌else◌, OnOk};
ghost use Rattle.std.specs.FinMap as map;
ghost use Rattle.judy_sets.specs.LookUps.{IsCommonPut};

use crate::fills::worth;
use crate::pages::Pages;
use judy_bits::Meter;
use judy_leaf::Words;
use judy_query::lookup;
use judy_unmetered::UNMETERED;
use judy_word::{Filling, InsertError, WordArray};

// Whether so few keys are sooner looked up among so many than both are gone through. What is answered doesn't hang on
// it.
pub fn are_few(few: u64, many: u64) -> bool {
    few < many / 8
}

// The value that an array has at a key, 0 where keys have none.
fn value_at<V: Words + Drop>(array: &WordArray<V>, key: u64) -> Option<u64>
    ensures { result ≡ map.get array.now.map key }
{
    lookup(array.root(), key, &mut Meter::new(UNMETERED))
}

// The one value or the other.
fn chosen(theirs: bool, held: u64, own: u64) -> u64
    ensures { result ≡ (if theirs then held else own) }
{
    if theirs { held } else { own }
}

// Puts a pair whose key an array has into another that is filled, with its own value or with the one that it has there.
fn put_one<V: Words + Drop>(
    made: &mut Filling<V>,
    theirs: bool,
    pair: (u64, u64),
    many: &WordArray<V>,
) -> Result<(), InsertError>
    requires { V.WORDS ≤ 1 }
    ensures { OnOk result
        (IsCommonPut V.WORDS theirs made.old made.new (pair ∷ []) many.now.map) }
{
    let Some(value) = value_at(many, pair.0) else {
        return Ok(());
    };
    let kept = chosen(theirs, value, pair.1);
    made.put(pair.0, worth::<V>(kept))?;
    Ok(())
}

// Puts those of pairs in.
fn put_found<V: Words + Drop>(
    made: &mut Filling<V>,
    theirs: bool,
    pairs: &[(u64, u64)],
    many: &WordArray<V>,
) -> Result<(), InsertError>
    requires { V.WORDS ≤ 1 }
    ensures { OnOk result
        (IsCommonPut V.WORDS theirs made.old made.new pairs.now many.now.map) }
{
    'pairs: for pair in pairs {
        put_one(made, theirs, *pair, many)?;
    }
    Ok(())
}

// Puts what two arrays have in common into an array that is filled: with the values of the first, or with those of the
// second.
pub fn put_common<V: Words + Drop>(
    made: &mut Filling<V>,
    theirs: bool,
    few: &WordArray<V>,
    many: &WordArray<V>,
) -> Result<(), InsertError>
    requires { V.WORDS ≤ 1 }
    ensures { OnOk result (IsCommonPut V.WORDS theirs made.old made.new
        (map.entries few.now.map) many.now.map) }
{
    let mut pages = Pages::of(few);
    'pages: loop {
        let page = pages.ahead();
        let passed = page.len();
        if passed == 0 {
            return Ok(());
        }
        put_found(made, theirs, page, many)?;
        pages.pass(passed);
    }
}
