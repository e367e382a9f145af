//! How a call of C answers a word or a slot that may not be there.

ghost use Rattle.std.specs.Option.{option_map};
ghost use Rattle.judy_c.specs.Told.{IsTold};

// Answers whether there is a word, and writes it where it is to be told.
pub(crate) fn tell(found: Option<u64>, told: &mut u64) -> bool
    ensures { IsTold found result told.old told.new }
{
    match found {
        Some(word) => {
            *told = word;
            true
        }
        None => false,
    }
}

// Answers whether there is a key with its value, and writes both where they are to be told.
pub(crate) fn tell_entry(found: Option<(u64, u64)>, key: &mut u64, value: &mut u64) -> bool
    ensures key { IsTold (option_map (λ entry. entry.0) found) result key.old key.new }
    ensures value { IsTold (option_map (λ entry. entry.1) found) result value.old value.new }
{
    match found {
        Some((found_key, found_value)) => {
            *key = found_key;
            *value = found_value;
            true
        }
        None => false,
    }
}

// Answers whether there is a slot, and hands it out where there is.
pub(crate) fn hand_out<'a>(found: Option<&'a mut u64>, slot: &mut &'a mut u64) -> bool
    ensures { IsTold found.entry result slot.old slot.new }
{
    match found {
        Some(word) => {
            *slot = word;
            true
        }
        None => false,
    }
}
