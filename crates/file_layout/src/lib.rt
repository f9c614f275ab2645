//! The layout of a written file, whatever its content: items one after the other with zeros for alignment, equal items once, the map, the
//! header, the rows of the tables.
//!
//! A writer appends zeros in place of header and tables, then the parts of the data section, and keeps for each part its number of items
//! and its offset.
//!
//! ```
//! let mut items = Items::new(alloc, seed);
//! let place = items.put_aligned(&mut out, bytes)?; // appended here, 4-aligned, or the offset of an equal item
//! let plan = Plan { rows, lists, codes, strings, arrays, datas };
//! finish(alloc, &mut out, &plan, &table_rows)?; // the bytes of the tables, which follow the header
//! let sections = open(&out)?; // what is finished is framed
//! ```
//!
//! docs/MAP.md has this crate's place among the others.
#![tactic(auto)]

// What a file holds, and where.
mod plan;

// Zeros between items, and items that are written once each.
mod item;
mod items;
mod padding;

// The map and the front.
mod finishing;
mod map_list;
mod ranges;

// What holds of what is written.
mod laws;

pub use finishing::finish;
pub use items::Items;
pub use laws::{
    laid_items_stand, laid_items_stay, layings_are_one, one_more_item_is_laid, written_is_framed,
    written_is_one,
};
pub use padding::{gap_after, pad};
pub use plan::{Part, Plan, Rows};
