//! The command that makes an array.

ghost use Rattle.std.specs.Prelude.{◌≡◌, option_copied};
ghost use Rattle.judy_model.specs.Commands as model;
ghost use Rattle.judy_shelf.specs.Shelves.{store_of};
ghost use Rattle.judy_command.specs.Replies.{reply_of, checked};
ghost use Rattle.judy_command.specs.Follows.{Follows};

use crate::arrays::name_at;
use crate::reply::{Answer, Refusal, Reply};
use crate::words::word;
use judy_shelf::{Kind, MAX_LIMIT, Shelf};

/// `make NAME KIND [LIMIT]`
#[inline(never)]
pub(crate) fn make_array(
    shelf: &mut Shelf,
    name: &[u8],
    kind: &[u8],
    limit: Option<&[u8]>,
) -> Reply<'static>
    ensures { let before = store_of shelf.old in
        Follows before (model.made before name.now kind.now (option_copied limit.entry))
        (reply_of result) (store_of shelf.new) }
{
    let name = name_at(name)?;
    let Some(kind) = Kind::from_word(kind) else {
        return Err(Refusal::WrongKind);
    };
    let limit = limit_of(limit)?;
    shelf.make(name, kind, limit)?;
    Ok(Answer::Done)
}

// The limit that the line gives, or else the greatest.
fn limit_of(limit: Option<&[u8]>) -> Result<u64, Refusal>
    ensures { checked result ≡ model.limit_at (option_copied limit.entry) }
{
    match limit {
        Some(token) => word(token),
        None => Ok(MAX_LIMIT),
    }
}
