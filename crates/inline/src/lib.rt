//! Kernels without own calls: the bodies of called functions stand in place of the calls, as long as the kernels stay
//! within the limits of their weight and depth.
#![tactic(auto)]

mod copies;
mod counts;
mod dropping;
mod flat_form;
mod idle;
mod laws;
mod limits;
mod lower;
mod moves;
mod own;
mod places;
mod soundness;
#[cfg(test)]
mod tests;

pub use flat_form::flatten;
