//! Tests of the display machine and of whole runs over their public calls: what no clause and no row says.
#![tactic(auto)]

#[cfg(test)]
mod lanes;
#[cfg(test)]
mod machine;
#[cfg(test)]
mod run;
#[cfg(test)]
mod words;
#[cfg(test)]
mod workers;
