#![tactic(auto)]

pub mod edition;
pub mod fault;
pub mod field;
pub mod fields;
pub mod item;
pub mod module;
pub mod page;
pub mod print;
pub mod reading;
pub mod report;
mod rows;
pub mod state;
pub mod tally;
mod text;
