//! Worked examples of the layers between files and checks, by their public calls.
#![tactic(auto)]

#[cfg(test)]
mod antichains;
#[cfg(test)]
mod coefficients;
#[cfg(test)]
mod command_lines;
#[cfg(test)]
mod demonstrations;
#[cfg(test)]
mod kernels;
#[cfg(test)]
mod polynomials;
#[cfg(test)]
mod statuses;
#[cfg(test)]
mod tables;
#[cfg(test)]
mod tallying;
#[cfg(test)]
mod tuples;
