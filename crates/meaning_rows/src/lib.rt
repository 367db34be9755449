//! The worked examples of the definitions, from bytes to bytes, as theorems that the check computes.
#![tactic(auto)]
