//! What is made of a number: the image of `gen`, with a table of numbers and a program whose two cores
//! add up one half each and print the sum; and the list of cores of a seed.
#![tactic(auto)]

mod making;
mod order;
mod program;
mod table;

pub use making::generated_image;
pub use order::seeded_order;
