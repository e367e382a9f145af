//! Numbers in answers.

ghost use Rattle.std.specs.Prelude.{◌≡◌, ◌-◌, ◌^◌, [], ◌∷◌, ◌++◌, codes, Ok};
ghost use Rattle.judy_model.specs.Replies.{was, number, entry, string_entry, freed, output_of};

/// What a slot held before is put out in decimal, with the other numbers.
pub fn numbers_are_put_out()
    ensures seven { output_of (Ok (was 7)) ≡ codes "was 7" ++ 10 ∷ [] }
    ensures ten { output_of (Ok (was 10)) ≡ codes "was 10" ++ 10 ∷ [] }
    ensures greatest { output_of (Ok (was (2 ^ 64 - 1)))
        ≡ codes "was 18446744073709551615" ++ 10 ∷ [] }
    ensures number { output_of (Ok (number 9)) ≡ codes "9" ++ 10 ∷ [] }
    ensures entry { output_of (Ok (entry 1024 65536)) ≡ codes "1024 65536" ++ 10 ∷ [] }
    ensures string_entry { output_of (Ok (string_entry (255 ∷ []) 6)) ≡ codes "#ff 6" ++ 10 ∷ [] }
    ensures freed { output_of (Ok (freed 33)) ≡ codes "freed 33" ++ 10 ∷ [] }
{}
