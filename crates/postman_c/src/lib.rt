// The library for C and every language that calls C: each function is the one of its name in a crate below, and promises what that
// promises.
#![tactic(auto)]

mod call;
mod editing;
mod file;
mod turns;
