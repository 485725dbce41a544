#![tactic(auto)]

// Tests of the box at its limits. Many records are tried by the program `records`.
#[cfg(test)]
mod tests;
