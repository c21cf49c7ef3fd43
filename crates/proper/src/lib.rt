// The checker of images: a function for each section, one for sections 4 and 5 together, and one for 6, 7 and 8.
#![tactic(auto)]

pub mod check;
pub mod first;
pub mod marked;
pub mod ordered;
pub mod placed;
pub mod sampled;
pub mod second;
pub mod started;
pub mod walk;
