//! The schedule of a run, and the judge: where a run first leaves the discipline of stacks and save areas.
#![tactic(auto)]

mod accesses;
mod before;
mod bytes;
mod calling;
mod handler_phases;
mod judging;
mod order;
mod roles;
mod side;
mod walk;

pub use accesses::{loads, saves};
pub use before::walk_before;
pub use bytes::{Change, Held, change_bytes, held_at};
pub use calling::{Stacked, areas, newest, newest_sp};
pub use handler_phases::Phases;
pub use judging::{are_yes, handlers_of, judge};
pub use order::{Schedule, ScheduleIter, schedule_of};
pub use roles::{Role, phase_after, phases, role_of};
pub use side::{Areas, Side, change_areas, store};
pub use walk::{Walk, opening_marks};
pub use xt_frames::Judged;
