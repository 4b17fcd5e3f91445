//! Tests of the tries: the first that breaks a subtree, against a judge that carries each out.
#![tactic(auto)]

#[cfg(test)]
mod answers;
#[cfg(test)]
mod judge;
#[cfg(test)]
mod plain;
#[cfg(test)]
mod random;
