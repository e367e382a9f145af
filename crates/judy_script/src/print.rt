//! Replies as text.

ghost use Rattle.std.specs.Prelude.{◌≡◌, ◌+◌, ◌*◌, ◌≤◌, ◌++◌, length, decimal, flat_map, codes, Ok, Err, [], ◌∷◌};
ghost use Rattle.judy_model.specs.KeyTokens.{printed_key, digits_of};
ghost use Rattle.judy_model.specs.Replies as replies;
ghost use Rattle.judy_model.specs.Replies.{output_of, listed, listing_text};
ghost use Rattle.judy_shelf.specs.Arrays.{value_of};
ghost use Rattle.judy_shelf.specs.Shelves.{store_of};
ghost use Rattle.judy_command.specs.Replies.{line_reply_of, answer_of, refusal_of};
ghost use Rattle.judy_script.specs.Lines.{bytes_of, IsWithin};

use crate::text::{Line, Text};
use judy_command::{Answer, LineReply, Refusal, are_shown};
use judy_model::keys::LONGEST_KEY;
use judy_shelf::{Array, Name, Shelf};
use judy_sl::KeyBuf;

/// The reply as text, in the buffer in the place of what it held, where it isn't the same always. The shelf is as the
/// line left it.
#[inline(always)]
pub(crate) fn print<'t>(reply: LineReply<'_>, shelf: &Shelf, text: &'t mut Text) -> Line<'t>
    ensures text { bytes_of result ≡ output_of (line_reply_of (store_of shelf.now) reply.entry) }
    ensures within { IsWithin result }
{
    match reply {
        LineReply::Silent => Line::Long(b""),
        LineReply::Listed => {
            print_list(shelf, text);
            Line::Long(text.as_slice())
        }
        LineReply::Said(Ok(answer)) => print_answer(answer, text),
        LineReply::Said(Err(refusal)) => {
            print_refusal(refusal, text);
            Line::Long(text.as_slice())
        }
    }
}

// Puts the refusal into the buffer, with its LF.
#[inline(never)]
fn print_refusal(refusal: Refusal, text: &mut Text)
    ensures { text.new ≡ output_of (Err (refusal_of refusal)) }
{
    text.clear();
    text.append(b"error ");
    text.append(refusal.word());
    text.append(b"\n");
}

// The answer as text, with its LF.
#[inline(always)]
fn print_answer<'t>(answer: Answer<'_>, text: &'t mut Text) -> Line<'t>
    ensures text { bytes_of result ≡ output_of (Ok (answer_of answer.entry)) }
    ensures within { IsWithin result }
{
    match answer {
        Answer::Done => Line::Long(b"ok\n"),
        Answer::Was(value) => text.number_line(b"was ", value),
        Answer::Flag(holds) => text.number_line(b"", u64::from(holds)),
        Answer::Number(value) => text.number_line(b"", value),
        Answer::Entry(key, value) => {
            print_entry(key, value, text);
            Line::Long(text.as_slice())
        }
        Answer::StringEntry(key, value) => {
            print_string_entry(key, value, text);
            Line::Long(text.as_slice())
        }
        Answer::Freed(count) => text.number_line(b"freed ", count),
        Answer::Nothing => Line::Long(b"none\n"),
    }
}

// Puts a key and its value into the buffer, with an LF.
#[inline(never)]
fn print_entry(key: u64, value: u64, text: &mut Text)
    ensures { text.new ≡ output_of (Ok (replies.entry key value)) }
{
    text.clear();
    append_number(text, key);
    text.append(b" ");
    append_last(text, value);
}

// The same of a key of bytes.
#[inline(never)]
fn print_string_entry(key: &KeyBuf, value: u64, text: &mut Text)
    ensures { text.new ≡ output_of (Ok (replies.string_entry key.now.items value)) }
{
    text.clear();
    append_key(text, key);
    text.append(b" ");
    append_last(text, value);
}

// The arrays in the order of making. At most 64 of at most 61 bytes each fit the buffer.
#[inline(never)]
fn print_list(shelf: &Shelf, text: &mut Text)
    ensures { text.new ≡ output_of (Ok (listed (store_of shelf.now))) }
{
    text.clear();
    text.append(b"names");
    let mut place = 0;
    'arrays: while let Some((name, array)) = shelf.at(place) {
        append_listing(text, name, array);
        place += 1;
    }
    text.append(b"\n");
}

// Puts a space, an array's name, kind and number of keys behind what the buffer holds.
fn append_listing(text: &mut Text, name: &Name, array: &Array)
    requires { length text.old ≤ 4096 }
    ensures items { text.new ≡ text.old ++ listing_text (name.now, value_of array.now) }
    ensures len { length text.new ≤ length text.old + 61 }
{
    text.append(b" ");
    text.append(name.bytes());
    text.append(b":");
    text.append(array.kind().word());
    text.append(b":");
    append_number(text, array.len());
}

// Puts the key behind what the buffer holds: `=` and its bytes where all of them stand for themselves, else `#`
// and hexadecimal digits.
fn append_key(text: &mut Text, key: &KeyBuf)
    requires { length text.old ≤ 4096 }
    ensures items { text.new ≡ text.old ++ printed_key key.now.items }
    ensures len { length text.new ≤ length text.old + 1 + MOST_DIGITS }
{
    let bytes = key.as_slice();
    if are_shown(bytes) {
        text.append(b"=");
        text.append(bytes);
    } else {
        text.append(b"#");
        append_digits(text, bytes);
    }
}

// How many digits a key has at most.
const MOST_DIGITS: usize = 2 * LONGEST_KEY;

// Puts two hexadecimal digits a byte behind what the buffer holds.
fn append_digits(text: &mut Text, bytes: &[u8])
    requires fits { length bytes.now ≤ LONGEST_KEY }
    requires room { length text.old ≤ 4097 }
    ensures items { text.new ≡ text.old ++ digits_of bytes.now }
    ensures len { length text.new ≡ length text.old + 2 * length bytes.now }
{
    let mut room = [0; MOST_DIGITS];
    let digits = &mut room[..2 * bytes.len()];
    let _ = hex::encode_to_slice(bytes, digits);
    text.append(digits);
}

// Puts the number in decimal and an LF behind what the buffer holds.
fn append_last(text: &mut Text, number: u64)
    requires { length text.old ≤ 4096 }
    ensures { text.new ≡ text.old ++ decimal number ++ 10 ∷ [] }
{
    append_number(text, number);
    text.append(b"\n");
}

// Puts the number in decimal behind what the buffer holds.
fn append_number(text: &mut Text, number: u64)
    requires { length text.old ≤ 8000 }
    ensures items { text.new ≡ text.old ++ decimal number }
    ensures len { length text.new ≤ length text.old + 20 }
{
    let mut buffer = itoa::Buffer::new();
    text.append(buffer.format(number).as_bytes());
}
