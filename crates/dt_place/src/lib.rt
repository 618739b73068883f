//! In: machine and place lines. Out: the machine or the placement, or the first cause, by `parse_machine` and
//! `parse_place`; and the words that each node is home to, by `home` and `homes_on`.
#![tactic(auto)]

mod blocks;
mod home_list;
mod homes;
mod laws;
mod machine_line;
mod machines;
mod place_form;
mod place_line;
mod placements;
mod sides;

pub use blocks::block;
pub use dt_model::LineEnd as PlaceEnd;
pub use home_list::Homes;
pub use homes::{first_holder, home, homes_on};
pub use laws::{blocks_cover, every_position_has_a_home, homes_cover, numbers_follow_coordinates};
pub use machine_line::parse_machine;
pub use machines::Machine;
pub use place_form::PlaceForm;
pub use place_line::{parse_place, read_place, resolve_place};
pub use placements::{Placement, Places, Symbol, Symbols};
