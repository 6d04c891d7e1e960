//! The calls of the libraries from kept bids to runs, as another crate makes them, with worked values.
#![tactic(auto)]

#[cfg(test)]
mod faults;
#[cfg(test)]
mod keeping;
#[cfg(test)]
mod pages;
#[cfg(test)]
mod runs;
#[cfg(test)]
mod worked;
#[cfg(test)]
mod workers;
