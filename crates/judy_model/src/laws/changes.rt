//! What an insert, a write and a delete change, and what they leave.

ghost use Rattle.std.specs.Prelude.{ℕ};
ghost use Rattle.judy_model.specs.Keys.{word_order, byte_order};
ghost use Rattle.judy_model.specs.Arrays.{ins, write, del};
ghost use Rattle.judy_model.specs.Laws.{InsKeepsPresent, InsGivesSlot, WriteAfterIns, WriteGivesValue, DelTakesOut, DelKeepsAbsent, LeavesOthers, AddsOne, TakesOne};

/// To insert a key that is there changes nothing.
pub fn ins_keeps_present()
    ensures words { InsKeepsPresent word_order }
    ensures byte_strings { InsKeepsPresent byte_order }
{}

/// After an insert the key is there, with the value that it had, or with 0 where it was not there.
pub fn ins_gives_slot()
    ensures words { InsGivesSlot word_order }
    ensures byte_strings { InsGivesSlot byte_order }
{}

/// To write through the slot that an insert gave is to insert the key with that value.
pub fn write_after_ins()
    ensures words { WriteAfterIns word_order }
    ensures byte_strings { WriteAfterIns byte_order }
{}

/// After a write the key has the value written.
pub fn write_gives_value()
    ensures words { WriteGivesValue word_order }
    ensures byte_strings { WriteGivesValue byte_order }
{}

/// After a delete the key is not there.
pub fn del_takes_out()
    ensures words { DelTakesOut word_order }
    ensures byte_strings { DelTakesOut byte_order }
{}

/// To delete a key that is not there changes nothing.
pub fn del_keeps_absent()
    ensures words { DelKeepsAbsent word_order }
    ensures byte_strings { DelKeepsAbsent byte_order }
{}

/// An insert leaves what every other key has.
pub fn ins_leaves_others()
    ensures words { LeavesOthers word_order ins }
    ensures byte_strings { LeavesOthers byte_order ins }
{}

/// A write leaves what every other key has.
pub fn write_leaves_others()
    ensures words { (value : ℕ) → LeavesOthers word_order (λ map key. write map key value) }
    ensures byte_strings { (value : ℕ) → LeavesOthers byte_order (λ map key. write map key value) }
{}

/// A delete leaves what every other key has.
pub fn del_leaves_others()
    ensures words { LeavesOthers word_order del }
    ensures byte_strings { LeavesOthers byte_order del }
{}

/// An insert adds one key where the key is not there, and none where it is.
pub fn ins_adds_one()
    ensures words { AddsOne word_order ins }
    ensures byte_strings { AddsOne byte_order ins }
{}

/// So does a write.
pub fn write_adds_one()
    ensures words { (value : ℕ) → AddsOne word_order (λ map key. write map key value) }
    ensures byte_strings { (value : ℕ) → AddsOne byte_order (λ map key. write map key value) }
{}

/// A delete takes one key away where the key is there, and none where it is not.
pub fn del_takes_one()
    ensures words { TakesOne word_order del }
    ensures byte_strings { TakesOne byte_order del }
{}
