//! Tokens of a line.

ghost use Rattle.std.specs.Prelude.{◌≡◌, ◌≢◌, ◌<◌, [], ◌∷◌, length, get_or, map, take, MatchOption};
ghost use Rattle.judy_model.specs.Tokens.{tokens_of};

use crate::cut::len_before;
use arrayvec::ArrayVec;

/// The first tokens of a line, at most one more than the longest command has, so that too many are seen.
pub(crate) type Tokens<'a> = ArrayVec<&'a [u8], 5>;

/// Puts the first five tokens of a text into an empty list, all of them where there are fewer.
pub(crate) fn split<'a>(text: &'a [u8], tokens: &mut Tokens<'a>)
    requires { tokens.old.items ≡ [] }
    ensures { map (λ token. token.now) tokens.new.items ≡ take 5 (tokens_of text.now) }
{
    let mut rest = text;
    while !tokens.is_full() {
        let Some((token, after)) = first_token(rest) else {
            break;
        };
        tokens.push(token);
        rest = after;
    }
}

// The first token of a text, and what stands after it; none where the text has no token.
fn first_token(text: &[u8]) -> Option<(&[u8], &[u8])>
    ensures { MatchOption result (tokens_of text.now ≡ [])
        (λ found. tokens_of text.now ≡ found.0.now ∷ tokens_of found.1.now) }
{
    let text = behind_spaces(text);
    if text.is_empty() {
        return None;
    }
    Some(text.split_at(len_before(text, b' ')))
}

// A text without the spaces at its front. Mostly there is one.
#[inline(always)]
fn behind_spaces(text: &[u8]) -> &[u8]
    ensures same { tokens_of result.now ≡ tokens_of text.now }
    ensures begins { 0 < length result.now → get_or result.now 0 0 ≢ 32 }
{
    let mut rest = text;
    'spaces: while let [b' ', after @ ..] = rest {
        rest = after;
    }
    rest
}
