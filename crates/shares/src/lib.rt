#![tactic(auto)]

pub mod needle;
pub mod share;
