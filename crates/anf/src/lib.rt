//! Polynomials over GF(2) as sorted lists of distinct monomials (the algebraic normal form).
#![tactic(auto)]

mod arithmetic;
mod key;
mod poly;
mod poly_error;
mod reduction;

pub use arithmetic::{occurs, product, sum};
pub use poly::{Monomial, Poly};
pub use poly_error::PolyError;
