// The packer: reading a table, the walk through it, its trits, the nine sections, and the whole.
#![tactic(auto)]

pub mod image;
pub mod pack;
pub mod sections;
pub mod stream;
pub mod table;
pub mod walk;
