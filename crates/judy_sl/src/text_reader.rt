//! A text read a piece at a time, by its words.

ghost use Rattle.std.specs.Prelude.{◌≡◌, Some, None, IfSome};
ghost use Rattle.std.specs.Option.{option_map};
ghost use Rattle.judy_records.specs.Texts.{text_in};
ghost use Rattle.judy_sl.specs.Pieces.{piece_of, IsText};
ghost use Rattle.judy_sl.specs.TextsLeft.{IsTextOf, left_behind};

use std::marker::Model;

// What is left of a text, by its words: none are left where its last piece was read, the one of fewer than eight bytes.
#[derive(Drop)]
pub struct TextReader<'a> {
    words: Option<&'a [u64]>,
}

impl<'a> Model for TextReader<'a> {
    ghost use Rattle.std.specs.Prelude.{ℕ, List, Option, IfSome};
    ghost use Rattle.std.specs.Option.{option_copied};

    ghost Value = { Option (List ℕ) };

    ghost use Rattle.judy_sl.specs.TextsLeft.{text_left, IsTextOf};

    ghost view = { λ t. text_left (option_copied t.words) };

    ghost invariant = { λ t. IfSome (option_copied t.words) IsTextOf };
}

impl<'a> TextReader<'a> {
    // At the beginning of a text.
    pub fn new(words: &'a [u64]) -> TextReader<'a>
        requires { IsTextOf words.now }
        ensures { result ≡ Some (text_in words.now) }
    {
        TextReader { words: Some(words) }
    }

    // Behind its last piece.
    pub fn ended() -> TextReader<'a>
        ensures { result ≡ None }
    {
        TextReader { words: None }
    }

    // Reads the next piece. `None` behind the last one.
    pub fn next_piece(&mut self) -> Option<u64>
        ensures piece { result ≡ option_map piece_of self.old }
        ensures left { self.new ≡ left_behind self.old }
        ensures is_text { IfSome self.old IsText }
    {
        let words = self.words?;
        let Some((&piece, rest)) = words.split_first() else {
            self.words = None;
            return Some(0);
        };
        self.words = if piece % 256 == 0 { None } else { Some(rest) };
        Some(piece)
    }
}
