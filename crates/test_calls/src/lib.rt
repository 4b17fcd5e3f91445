//! Tests of the calls over bytes: that good calls succeed, and what no clause says.
#![tactic(auto)]

#[cfg(test)]
mod tests;
