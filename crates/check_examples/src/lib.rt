//! Worked examples of whole checks: files, faults and limits, and what each check answers and writes.
#![tactic(auto)]

#[cfg(test)]
mod demonstrations;
#[cfg(test)]
mod fixture;
#[cfg(test)]
mod gates;
#[cfg(test)]
mod least_sets;
#[cfg(test)]
mod own_tallies;
#[cfg(test)]
mod read_faults;
#[cfg(test)]
mod recording;
#[cfg(test)]
mod standard;
#[cfg(test)]
mod tallying;
#[cfg(test)]
mod words;
#[cfg(test)]
mod workers;
#[cfg(test)]
mod write_faults;
