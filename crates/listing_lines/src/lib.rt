//! Lines of a listing, made from the values of their slots; which line is allowed where; how many instructions its targets need;
//! and labels, which are used in place of the numbers of instructions.
//!
//! ```text
//! make_line(arena, Kind::Try, &[Datum::Word(0), Datum::Word(5)])?   // Line::Try(0, 5)
//! may_stand(Stage::Top, Kind::Try)                                 // false: a try line is in code alone
//! line_needs(&Line::Try(0, 5))                                     // 5
//! is_label(b":L12")                                                // true
//! look_ahead(&mut labels, after, 6)?                               // the labels of the code whose first line is the sixth
//! ```
//!
//! docs/MAP.md has this crate's place among the others.
#![tactic(auto)]

mod form;
mod known;
mod labels;
mod line;
mod lines;
mod make;
mod making;
mod needs;
mod pieces;
mod stage;

pub use form::{Form, is_two};
pub use known::{Labels, Place};
pub use labels::{is_label, is_mark, look_ahead, read_all, read_target};
pub use line::Line;
pub use lines::{make_insn, make_line};
pub use needs::{Need, first_late, insn_needs, line_needs};
pub use pieces::{is_skipped, split_line};
pub use stage::{Stage, is_caught, is_insn, is_insns, is_start, may_stand};
