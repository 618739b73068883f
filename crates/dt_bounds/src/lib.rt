//! In: a schedule, where the words of its tensors lie, and a path. Out: the words of a tensor that the visits under the
//! path need. Proved by `needed`: exactly the positions at which an access is in a visit under the path. Laws tie longer
//! paths to shorter ones.
#![tactic(auto)]

mod accesses;
mod found;
mod path_laws;
mod paths;
mod words;

pub use path_laws::{
    accesses_are_needed, fronts_need_more, left_is_needed, needed_follows_paths,
    needed_follows_visited, needed_over_paths, needed_shrinks, not_needed_adds_nothing,
    tasks_add_the_sum, tasks_are_defined, tasks_leave_others, units_are_defined,
    units_follow_effects, units_keep_held, visits_have_left,
};
pub use paths::is_path;
pub use words::needed;
