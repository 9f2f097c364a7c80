//! Worked examples of the shared store: its machine, its calls, and the workers over it.
#![tactic(auto)]

#[cfg(test)]
mod gates;
#[cfg(test)]
mod queries;
#[cfg(test)]
mod rounds;
#[cfg(test)]
mod runs;
#[cfg(test)]
mod table;
#[cfg(test)]
mod watching;
#[cfg(test)]
mod workers;
