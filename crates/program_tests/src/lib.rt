//! The calls of the libraries of programs, their texts, solutions and certificates, as another crate makes them, with worked
//! values.
#![tactic(auto)]

#[cfg(test)]
mod certificates;
#[cfg(test)]
mod programs;
#[cfg(test)]
mod reading;
#[cfg(test)]
mod solutions;
#[cfg(test)]
mod texts;
#[cfg(test)]
mod worked;
