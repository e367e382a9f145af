//! Laws of arrays of words. Each is the contract of a function that only asks what it speaks of; no program calls
//! these.

ghost use Rattle.std.specs.Prelude.{◌≡◌, false, IfOk};
ghost use Rattle.std.specs.FinMap as map;
ghost use Rattle.judy_model.specs.Shapes.{form_of};

use crate::error::InsertError;
use crate::filling::{FillingMap, FillingSet};
use crate::word_array::{Judy1, JudyL};

/// Two sets with the same keys, neither loose, have the same nodes, whatever calls led there.
pub fn same_keys_same_nodes(one: &Judy1, other: &Judy1)
    requires one_tight { one.now.loose ≡ false }
    requires other_tight { other.now.loose ≡ false }
    requires same_keys { map.keys one.now.map ≡ map.keys other.now.map }
    ensures { one.now.form ≡ other.now.form }
{
    one.is_loose();
    other.is_loose();
}

/// The same of two maps, whatever values their keys have.
pub fn same_keys_same_nodes_of_maps(one: &JudyL, other: &JudyL)
    requires one_tight { one.now.loose ≡ false }
    requires other_tight { other.now.loose ≡ false }
    requires same_keys { map.keys one.now.map ≡ map.keys other.now.map }
    ensures { one.now.form ≡ other.now.form }
{
    one.is_loose();
    other.is_loose();
}

/// A set that was filled, as a dump is loaded, isn't loose and has the nodes that the rule gives its keys, whatever
/// calls led there.
pub fn a_loaded_set_is_tight(filling: FillingSet) -> Result<Judy1, InsertError>
    ensures tight { IfOk result (λ set. set.loose ≡ false) }
    ensures rule { IfOk result (λ set. set.form ≡ form_of 0 8 (map.keys filling.map)) }
{
    let set = filling.into_set()?;
    set.is_loose();
    Ok(set)
}

/// The same of a map.
pub fn a_loaded_map_is_tight(filling: FillingMap) -> Result<JudyL, InsertError>
    ensures tight { IfOk result (λ words. words.loose ≡ false) }
    ensures rule { IfOk result (λ words. words.form ≡ form_of 1 8 (map.keys filling.map)) }
{
    let words = filling.into_map()?;
    words.is_loose();
    Ok(words)
}
