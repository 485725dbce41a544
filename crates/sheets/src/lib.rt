#![tactic(auto)]

pub mod book;
pub mod fault;
pub mod reply;
pub mod row;
mod row_table;
pub mod sheet;
pub mod totals;
