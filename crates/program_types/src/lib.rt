//! A program of a .dex file, symbolically: its names are texts, its branches refer to instructions by number, and it has no
//! offsets of a file.
//!
//! All types are `Copy`. Their slices and references lie in the caller's arena, which a program cannot outlive. A program's
//! content (`specs/Content.antt`) does not depend on where it lies in memory, and two programs are equal if their contents
//! (`specs/View.antt`) are. Names are compared, ordered and hashed by content.
//!
//! ```text
//! let arena = Bump::new(alloc);
//! let void = Desc { text: alloc_str(&arena, &[0x56])? };
//! let proto = alloc_proto(&arena, void, &[])?;
//! let shorty = shorty_of(alloc, &arena, proto.ret, proto.params)?; // `V`
//! ```
//!
//! `{}` shows a name as a listing writes it, `LA;->m(I)V`, and `{:?}` all types, names in the same way.
//!
//! Pages of the Android Open Source Project: "Dalvik Executable format", "Dalvik Executable instruction formats".
//!
//! docs/MAP.md has this crate's place among the others.
#![tactic(auto)]

// Names, and how they are hashed.
mod equality;
mod hashing;
mod names;

// What has names in it: instructions and values.
mod insn;
mod parts;
mod payload;
mod value;

// What has instructions in it: bodies of methods.
mod code;

// What has all of these in it: classes and programs.
mod class;

// What is done with names and values, and how they are shown.
mod arena;
mod compare;
mod depth;
mod kinds;
mod shorty;
mod written;

pub use arena::{alloc_descs, alloc_proto, alloc_str};
pub use class::{Class, Member, Method, Program, program_law};
pub use code::{Catch, Code, Try};
pub use compare::{
    desc_cmp, desc_eq, field_ref_cmp, field_ref_eq, key_laws, method_ref_cmp, method_ref_eq,
    proto_cmp, proto_eq, str_cmp, str_eq,
};
pub use depth::{MOST_DEPTH, is_within_depth};
pub use insn::Insn;
pub use kinds::{is_class_or_array, is_class_type, is_void};
pub use names::{Desc, FieldRef, MethodRef, Name, Proto, Str};
pub use parts::{are_alike, is_switch, leads_of, name_of, payload_of, targets_of};
pub use payload::Payload;
pub use shorty::{letter, shorty_laws, shorty_of};
pub use value::Value;
