//! The audit of a database: its leaves are examined whole, and what they hold is told.
#![tactic(auto)]

mod database;
mod files;
mod links;
mod search;
mod texts;

pub use database::audit;
