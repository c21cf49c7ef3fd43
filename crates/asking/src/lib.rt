// One question about a proper image, and batches of them.
#![tactic(auto)]

pub mod batch;
pub mod index;
pub mod kind;
pub mod question;
