//! The calls of the libraries of a round, from its rules to its settlement, as another crate makes them, with worked values.
#![tactic(auto)]

#[cfg(test)]
mod book;
#[cfg(test)]
mod desk;
#[cfg(test)]
mod forms;
#[cfg(test)]
mod limits;
#[cfg(test)]
mod terms;
#[cfg(test)]
mod worked;
