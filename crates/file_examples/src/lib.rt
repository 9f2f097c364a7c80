//! Worked examples of gadget files: tokens, headers, assignments, offences, and the canonical text.
#![tactic(auto)]

#[cfg(test)]
mod assignments;
#[cfg(test)]
mod canonical;
#[cfg(test)]
mod headers;
#[cfg(test)]
mod offences;
#[cfg(test)]
mod tokens;
