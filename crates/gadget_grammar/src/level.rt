//! What waits in an expression.

/// What waits for its right side at a level of parentheses: whether a sum and whether a product does.
#[derive(Clone, Copy)]
pub(crate) struct Level {
    pub sum: bool,
    pub product: bool,
}
