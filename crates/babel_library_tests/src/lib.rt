//! Tests of the libraries below the runs, by their public calls alone: of what no row of tests/ can
//! ask. They stand in a crate of their own, since a crate that has tests is proved a second time
//! with them.
#![tactic(auto)]

#[cfg(test)]
mod canon;
#[cfg(test)]
mod capture;
pub mod dumps;
#[cfg(test)]
mod prefix;
#[cfg(test)]
mod selection;
#[cfg(test)]
mod table;
#[cfg(test)]
mod teller;
