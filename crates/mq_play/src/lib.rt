//! What a script is, and what its replay prints: settings, the lines that say what happens, the texts of notes, and plays.
//!
//! The definitions stand in specs/, in this reading order: Parts (how words say values), Settings, Lines, Sayings, Text (the
//! printed lines), Sizes (which numbers they have), Events (what a line does to the state), Play (what lines print), Script
//! (what the replay of a script prints, by how it ends), and Laws.
#![tactic(auto)]

mod laws;
mod line;
mod plan;
mod sayings;
mod setting;
mod word;

pub use laws::{
    always_one, are_alike, cut_in_lines, cut_on, good_or_bad, makes_a_plan, note_is_a_line,
    note_told, one_bad_line, one_bad_play, one_play, one_play_so_far, part_is_front,
    part_is_front_of_bad, printed_once, so_far_is_front, so_far_is_front_of_bad,
};
pub use line::{Line, SettingLine};
pub use plan::Plan;
pub use sayings::one_saying;
pub use setting::Setting;
pub use word::{SettingWord, Word};
