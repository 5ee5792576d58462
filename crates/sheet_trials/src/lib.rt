//! Tests of parts sheets: `writing` and `reading` of entries, their `lines`, deliveries as they are
//! parsed (`parsing`) and opened (`opening`), and what these share (`samples`, `vectors`).
#![tactic(auto)]

#[cfg(test)]
mod lines;
#[cfg(test)]
mod opening;
#[cfg(test)]
mod parsing;
#[cfg(test)]
mod reading;
#[cfg(test)]
mod samples;
#[cfg(test)]
mod vectors;
#[cfg(test)]
mod writing;
