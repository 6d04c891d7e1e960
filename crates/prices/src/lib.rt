//! Prices of winners in parts of a pound: that they suffice, since they cover every group's opportunity cost and are at least the
//! reserves, and that they are the ones of the rule, of least sum and then nearest to what each winner costs alone.
#![tactic(auto)]

mod alone;
mod amounts;
mod cover;
pub mod laws;
mod listed;
mod payments;
mod raised;
mod reserves;
mod rule;
mod tight;
mod weights;

pub use alone::{AloneFault, costs_alone};
pub use cover::check_cover;
pub use listed::Listed;
pub use payments::Payments;
pub use reserves::reserve_of;
pub use rule::{Rule, RuleFault, show_the_prices};
pub use weights::Weights;
