//! A search of all worlds that the turns of two cores lead to, in any order, over any kind of world.
#![tactic(auto)]

mod changes;
mod closing;
mod graph;
mod laws;
mod machine;
mod marks;
mod orders;
mod places;
mod seeking;
mod table;

pub use changes::{Change, Changes};
pub use closing::has_all;
pub use graph::{Barred, Graph, Kept, Nexts};
pub use laws::{apart_accesses_commute, apart_accesses_keep_replies};
pub use machine::Machine;
pub use marks::marks_of;
pub use orders::order_to;
pub use seeking::search;
