//! Tests of the runs by the public calls of babel_dump alone: of what no row of tests/ can ask.
//! They stand in a crate of their own, since a crate that has tests is proved a second time with
//! them.
#![tactic(auto)]

#[cfg(test)]
mod runs;
