//! The two sorts of words.

/// Which bytes stand in words.
#[derive(Clone, Copy)]
pub(crate) enum Words {
    /// All but blanks, as in a header line.
    Solid,
    /// Letters, digits, `_` and `.`, as in an assignment line.
    Named,
}
