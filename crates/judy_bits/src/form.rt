//! The forms of a set of bytes.

/// How a set of bytes is kept, by the number of its members alone: up to 7 as a list, up to 127 as bits, and
/// from 128 on as bits too. They are the forms of a branch; the limits are this project's own.
#[derive(Clone, Copy, PartialEq, Eq, Debug)]
pub enum SetForm {
    /// At most 7 members.
    Linear,
    /// 8 to 127 members.
    Bitmap,
    /// 128 to 256 members.
    Full,
}
