//! Leave to read nodes that no meter of a caller counts.
//!
//! What goes over a whole tree of judy_node counts no visit, and a new meter counts apart from all others: both ask for
//! [`UNMETERED`]. A crate that doesn't list this one can't name that value. judy_query doesn't list it, so there the
//! compiler refuses each such call, and a query's visits are all on the meter that it is lent.
#![tactic(auto)]

/// The leave. Only this crate makes a value of it.
#[derive(Clone, Copy, Debug)]
pub struct Unmetered {
    _seal: (),
}

/// The one value.
pub const UNMETERED: Unmetered = Unmetered { _seal: () };
