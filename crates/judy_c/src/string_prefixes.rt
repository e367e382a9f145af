//! The call of C that finds the longest key that begins a byte string.

ghost use Rattle.std.specs.Prelude.{◌≡◌, length};
ghost use Rattle.std.specs.Option.{option_map};
ghost use Rattle.judy_model.specs.Prefixes.{longest_prefix};
ghost use Rattle.judy_sl.specs.Scans.{value_found};
ghost use Rattle.judy_c.specs.StringMaps.{array_in};
ghost use Rattle.judy_c.specs.Told.{IsTold};

use crate::handles::Handle;
use crate::strings::Strings;
use judy_string_sets::longest_prefix;
use std::alloc::Global;

/// The longest key that bytes begin with: how many of the bytes it is, and its value. The bytes are any, and any number
/// of them. It asks for no memory.
#[unsafe(no_mangle)]
pub extern "C" fn sellumaq_judysl_longest_prefix(
    alloc: Global,
    handle: &mut Strings,
    bytes: &[u8],
    prefix: &mut usize,
    value: &mut u64,
) -> bool
    ensures prefix { IsTold
        (option_map (λ key. length key) (longest_prefix (array_in handle.old).map bytes.now)) result
        prefix.old prefix.new }
    ensures value { IsTold
        (value_found (array_in handle.old).map (longest_prefix (array_in handle.old).map bytes.now))
        result value.old value.new }
    ensures same { handle.new ≡ handle.old }
{
    match handle.ask(alloc, |array| longest_prefix(array, bytes)) {
        Some((count, held)) => {
            *prefix = count;
            *value = held;
            true
        }
        None => false,
    }
}
