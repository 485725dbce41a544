#![tactic(auto)]

pub mod edition;
pub mod mount;
pub mod reader;
