//! How the calls of C on arrays over strings, and over byte strings, answer.

ghost use Rattle.std.specs.Prelude.{◌≡◌, ◌==◌, Some};
ghost use Rattle.std.specs.Result.{result_ok};
ghost use Rattle.judy_c.specs.Answers.{answered, IsHanded};
ghost use Rattle.judy_c.specs.KeyPuts.{number_of, was_of, IsToldOld};
ghost use Rattle.judy_c.specs.ScanSlots.{number_found};
ghost use Rattle.judy_c.specs.Told.{IsTold};

// The key was there, and has the new value now.
const PRESENT: u32 = 0;

// The key was absent, and is there now.
const ADDED: u32 = 1;

// There is no such key.
pub(crate) const NONE: u32 = 0;

// The key is there, and what was asked of it is told.
pub(crate) const FOUND: u32 = 1;

// The key is absent, and there is no memory for it.
pub(crate) const NO_MEMORY: u32 = 2;

// The key is absent, and the array holds as many keys as it may.
pub(crate) const FULL: u32 = 3;

// The bytes are no key.
pub(crate) const BAD_KEY: u32 = 4;

// The key found, or the dump, doesn't fit the caller's buffer.
pub(crate) const TOO_SMALL: u32 = 5;

// It is done.
pub(crate) const DONE: u32 = 1;

// The bytes are no name of an array.
pub(crate) const BAD_NAME: u32 = 6;

// There are more keys than a dump can say.
pub(crate) const TOO_MANY: u32 = 7;

// The bytes are no dump of one such array.
pub(crate) const BAD_DUMP: u32 = 8;

// There is no such format.
pub(crate) const BAD_FORMAT: u32 = 9;

// Why an insert hands out no slot.
#[derive(Clone, Copy)]
pub(crate) enum InsertRefusal {
    NoMemory,
    Full,
    BadKey,
}

// What an insert gives, or why it is refused.
pub(crate) type Outcome<T> = Result<T, InsertRefusal>;

// Why a scan hands out no slot.
#[derive(Clone, Copy)]
pub(crate) enum Missed {
    NoKey,
    BadKey,
    TooSmall,
}

// The slot of the key that a scan finds, or why there is none.
pub(crate) type FoundSlot<'a> = Result<&'a mut u64, Missed>;

// Answers an insert by its number, and hands the slot out where there is one.
pub(crate) fn answer_insert<'a>(
    made: Result<&'a mut u64, InsertRefusal>,
    slot: &mut &'a mut u64,
) -> u32
    ensures { (answered result slot.new ≡ Some made.entry)
        × IsHanded (Some made.entry) slot.old slot.new }
{
    match made {
        Ok(word) => {
            *slot = word;
            FOUND
        }
        Err(InsertRefusal::NoMemory) => NO_MEMORY,
        Err(InsertRefusal::Full) => FULL,
        Err(InsertRefusal::BadKey) => BAD_KEY,
    }
}

// Answers a scan by its number, and hands the slot of the key found out where there is one.
pub(crate) fn answer_scan<'a>(found: FoundSlot<'a>, slot: &mut &'a mut u64) -> u32
    ensures { (result ≡ number_found found.entry)
        × IsTold (result_ok found.entry) (result == 1) slot.old slot.new }
{
    match found {
        Ok(word) => {
            *slot = word;
            FOUND
        }
        Err(Missed::NoKey) => NONE,
        Err(Missed::BadKey) => BAD_KEY,
        Err(Missed::TooSmall) => TOO_SMALL,
    }
}

// Answers an insert of a value by its number, and tells the value that was there.
pub(crate) fn answer_store(stored: Result<Option<u64>, InsertRefusal>, was: &mut u64) -> u32
    ensures number { result ≡ number_of stored }
    ensures told { IsToldOld (was_of stored) result was.old was.new }
{
    match stored {
        Ok(Some(there)) => {
            *was = there;
            PRESENT
        }
        Ok(None) => ADDED,
        Err(InsertRefusal::NoMemory) => NO_MEMORY,
        Err(InsertRefusal::Full) => FULL,
        Err(InsertRefusal::BadKey) => BAD_KEY,
    }
}
