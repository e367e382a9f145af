//! A dump lists the keys of a judyhs array by their lengths: `b` before `aa`, though `aa` is before `b` by its bytes.

ghost use Rattle.std.specs.Prelude.{◌≡◌, Some};
ghost use Rattle.judy_model.specs.Fields.{bad_order};
ghost use Rattle.judy_model.specs.DumpText.{jdy1, dump_of};
ghost use Rattle.judy_model.specs.DumpGrammar.{IsDump, flaw_of};
ghost use Rattle.judy_model.specs.DumpOrder.{two_lengths, shorter_first, longer_first};

/// The dump of both keys has `b` first, and bytes that have `aa` first are none.
pub fn shorter_keys_come_first()
    ensures text { dump_of jdy1 two_lengths ≡ shorter_first }
    ensures again { IsDump jdy1 shorter_first two_lengths }
    ensures turned { flaw_of longer_first ≡ Some bad_order }
{}
