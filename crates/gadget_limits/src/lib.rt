//! How large a gadget may be.
#![tactic(auto)]

/// A secret is split into at most this many shares.
pub const MOST_SHARES: u8 = 16;

/// A gadget has at most this many inputs.
pub const MOST_INPUTS: usize = 4;

/// A gadget has at most this many outputs.
pub const MOST_OUTPUTS: usize = 2;

/// A gadget uses at most this many randoms.
pub const MOST_RANDOMS: usize = 128;

/// A gadget has at most this many variables, shares of inputs and randoms counted in.
pub const MOST_VARIABLES: usize = 511;

/// The polynomial of a variable has at most this many monomials.
pub const MOST_MONOMIALS: usize = 256;
