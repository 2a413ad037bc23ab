//! Assembly texts to application images, and their labels.
//!
//! The assembly language is this project's own ('profile').
#![tactic(auto)]

mod assembling;
mod image;
mod kinds;
pub mod laws;
mod map;
mod operands;
mod pieces;
mod segments;
mod targets;
mod walk;

pub use assembling::{assemble, label_map};
