//! Tests over all layers: given figures, seals by another program, sessions, and every refusal at
//! its limit and one past it.
#![tactic(auto)]

pub mod caller;
#[cfg(test)]
mod chains;
#[cfg(test)]
mod edges;
#[cfg(test)]
mod figures;
pub mod older;
#[cfg(test)]
mod published;
#[cfg(test)]
mod refusals;
#[cfg(test)]
mod samples;
#[cfg(test)]
mod shaft;
#[cfg(test)]
mod streams;
#[cfg(test)]
mod unlisted;
#[cfg(test)]
mod vectors;
