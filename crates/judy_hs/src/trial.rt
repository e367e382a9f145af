//! What comes of a key that is taken for a new one and put in before it is looked up.

// A trial of a key as a new one, by one way down its group. Only `Added` changes anything.
#[derive(Clone, Copy)]
pub enum Trial<S> {
    // The key was absent and is in now, and stands there.
    Added(S),
    // The key is absent, and there is no memory for it.
    Refused,
    // The key may be there, so it is to be looked up; no memory was refused.
    Open,
}
