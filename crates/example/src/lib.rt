//! Three functions over the library, to copy from: `show` lists the classes of a program with the instruction count of each method, `patch`
//! returns a program with one constant changed, and `rewritten` has a theorem of its own. `bench example` runs them.
//!
//! docs/MAP.md has this crate's place among the others.
#![tactic(auto)]

mod patch;
mod rewrite;
mod show;

pub use patch::patched;
pub use rewrite::rewritten;
pub use show::shown;
