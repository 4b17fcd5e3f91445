//! Tests of the plans: small trees, one for each kind of list that breaks a subtree, and what is planned of each.
#![tactic(auto)]

#[cfg(test)]
mod plans;
