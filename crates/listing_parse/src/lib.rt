//! Listings, read: from a text to the program that it is the text of. The reader goes line by line, over a draft that has the complete
//! classes so far, the open one, and which line may follow. The meaning of lines is defined without such a state too: `specs/Codes.antt`
//! and `specs/Classes.antt` define the code and the classes of lines, `specs/Texts.antt` the lines of a text, and when a text is the text
//! of a program. By its laws the reader accepts exactly these texts, in both forms.
//!
//! ```
//! let program = parse(alloc, &arena, b"dex 035 listing 2\n")?; // no class; or the rule that is broken, and in which line
//! ```
//!
//! docs/MAP.md has this crate's place among the others.
#![tactic(auto)]

// The draft: what is whole so far, and what is open.
mod block;
mod close;
mod draft;
mod open_class;
mod open_code;

// Lines, the whole listing, and what holds of it.
mod form_line;
mod laws;
mod lines;
mod listing;
mod reading;
mod short;
mod short_pieces;

// Laws: what lines mean, without a reader's state.
mod class_laws;
mod code_laws;
mod text_laws;
mod whole_laws;

pub use class_laws::{a_class_is_its_lines, classes_are_their_lines};
pub use close::Given;
pub use code_laws::a_code_is_its_lines;
pub use form_line::FormLine;
pub use laws::{one_fault, one_program};
pub use listing::{parse, parse_seeded};
pub use open_class::{ClassPart, Defined, FieldKey, InClass, MethodKey, Open, Owner, Static};
pub use open_code::{CodePart, InCode, OpenBody, OpenTry};
pub use reading::Reading;
pub use text_laws::lines_are_read_as_their_text;
pub use whole_laws::a_listing_is_its_lines;
