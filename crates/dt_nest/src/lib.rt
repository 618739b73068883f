//! Loop trees. In: the parts of a schedule, which its type keeps lawful. Out: its visits one by one, by `Visits::next`,
//! with the values of variables; what is asked of a nest, each by its definition; its text, by `put_nest`. Laws: the visits
//! add what the schedule means (`visits_add_the_sum`), and so they do along every path. The trait `Rewrite` says what a
//! command owes.
#![tactic(auto)]

mod branches;
mod chains;
mod commands;
mod communicate_loops;
mod conditions;
mod copies;
mod cursor;
mod dependents;
mod derivations;
mod derived_values;
mod guards;
mod inner_loops;
mod laws;
mod loops;
mod name_tables;
mod naming;
mod nest_text;
mod part_names;
mod parts;
mod path_laws;
mod points;
mod progress;
mod questions;
mod schedules;
mod search;
mod steps;
mod value_tables;
mod visited;
mod visits;

pub use commands::{Rewrite, RewriteEnd, rewritten};
pub use communicate_loops::communicate_loop;
pub use copies::{access_copied, names_copied, terms_copied};
pub use derivations::{Derivations, Derive, Derived};
pub use laws::{fitting_are_zeros, sum_reads_tensors, visits_add_the_sum};
pub use loops::{Kernel, Nest, Pair, Pairs, Walk, walk_copied};
pub use name_tables::NameTable;
pub use nest_text::{put_derived, put_nest};
pub use part_names::{name_of, tensor_name, work_name};
pub use parts::{Moved, MovedList, SchedParts, Work, Works};
pub use path_laws::{
    assignments_are_paths, path_sums_follow, path_sums_read_tensors, paths_add_the_sum,
    paths_are_visited, paths_grow, root_sum, sums_follow_visited, sums_over_paths, task_has_loops,
    unvisited_adds_nothing, visits_extend_paths, visits_follow_paths, visits_follow_visited,
    visits_over_paths,
};
pub use points::Point;
pub use progress::Visit;
pub use questions::{
    accesses_tensor, all_differ, has_loop, in_order, is_among, is_around, is_chain, is_fixed,
    is_in, loop_count, misplaced,
};
pub use schedules::Sched;
pub use search::has_kernel;
pub use visits::Visits;
