//! What is moved from one database to another: its records and its pairs, outside of any leaf.
#![tactic(auto)]

mod fitting;
mod giving;
mod stock;
mod taking;

pub use fitting::fits;
pub use giving::give;
pub use stock::{Stock, Stocks, Ties};
pub use taking::take;
