//! Tests of the libraries below the display machine over their public calls: vectors from outside, and what no clause and
//! no row says. They have a crate of their own, since a crate that has tests is proved once more for them.
#![tactic(auto)]

#[cfg(test)]
mod bells;
#[cfg(test)]
mod blobs;
#[cfg(test)]
mod chain;
#[cfg(test)]
mod config;
#[cfg(test)]
mod contexts;
#[cfg(test)]
mod edid;
#[cfg(test)]
mod formats;
#[cfg(test)]
mod io;
#[cfg(test)]
mod lending;
#[cfg(test)]
mod list;
#[cfg(test)]
mod packed;
#[cfg(test)]
mod pages;
#[cfg(test)]
mod places;
#[cfg(test)]
mod placing;
#[cfg(test)]
mod requests;
#[cfg(test)]
mod responses;
#[cfg(test)]
mod runs;
#[cfg(test)]
mod share;
#[cfg(test)]
mod transfers;
