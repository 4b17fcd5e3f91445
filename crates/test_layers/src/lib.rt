//! Tests of public calls below the calls over bytes: what no clause says, with values from outside.
#![tactic(auto)]

#[cfg(test)]
mod tests;
