//! Assignments in post-order.

use gadget_text::Token;

/// A step of an evaluation with a stack of values.
#[derive(Clone, Copy, Debug, PartialEq, Eq)]
pub enum Step {
    /// The value of the name that this token is.
    Name(Token),
    /// The sum of the last two values.
    Sum,
    /// The product of the last two values.
    Product,
}

/// What an assignment line says: the token of the name on its left side, and its right side in post-order.
#[derive(Drop)]
pub struct Assignment {
    pub name: Token,
    pub steps: Vec<Step>,
}
