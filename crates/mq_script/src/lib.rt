//! The lines of a script, which are read or generated, and the lines that a replay prints.
#![tactic(auto)]

mod block_setting;
mod draw;
mod drawn_line;
mod fault;
mod fill_piece;
mod generator;
mod happen;
mod hex_piece;
mod laws;
mod line;
mod name_setting;
mod number;
mod opening;
mod orders;
mod packet;
mod part;
mod print;
mod rule_setting;
mod setting;
mod settings;
mod steps;
mod template_setting;
mod text_piece;
mod word;

pub use fault::LineFault;
pub use generator::{Generator, generate};
pub use hex_piece::parse_payload;
pub use laws::packets_are_taken;
pub use line::parse_line;
pub use print::{print_bad_line, print_bytes, print_count, print_idle, print_more, print_note};
pub use settings::Settings;
