//! Hashing of strings, and so of all names, by content.
//!
//! Names are hashed whole. Whatever part were left out, there are generators and renamers that write thousands of types which differ in
//! that part alone, each with a `build`. Only a type that no tool would write is hashed by twelve units where it is a part of a member:
//! a class may define many members, and each is hashed with its class.
ghost use Rattle.std.specs.Prelude.{◌≡◌, ◌+◌, ◌/◌, ◌<◌, ◌≤◌, length};
ghost use Rattle.std.specs.List.{fold, flat_map};
ghost use Rattle.program_types.specs.Hashing.{packed_word, words, units_input, part_input};

use crate::names::{Desc, FieldRef, MethodRef, Str};
use std::hash::{Hash, Hasher};

/// The types that have fewer units are hashed whole.
const PART: usize = 1024;

/// Four units as one number.
fn word_at(units: &[u16], at: usize) -> u64
    requires { at + 4 ≤ length units.now }
    ensures { result ≡ packed_word units.now at }
{
    u64::from(units[at])
        + u64::from(units[at + 1]) * 65536
        + u64::from(units[at + 2]) * 4294967296
        + u64::from(units[at + 3]) * 281474976710656
}

/// Units, four at a time.
fn hash_words<H: Hasher>(units: &[u16], state: &mut H)
    ensures { state.new ≡ fold H.write state.old (words units.now (length units.now / 4)) }
{
    for k in 0..units.len() / 4 {
        state.write_u64(word_at(units, 4 * k));
    }
}

/// All units of a string, after their number.
fn hash_units<H: Hasher>(units: &[u16], state: &mut H)
    ensures { state.new ≡ fold H.write state.old (units_input units.now) }
{
    state.write_usize(units.len());
    hash_words(units, state);
    u16::hash_slice(&units[units.len() / 4 * 4..], state);
}

/// A type that is a part of a field or a method.
fn hash_part<H: Hasher>(units: &[u16], state: &mut H)
    ensures { state.new ≡ fold H.write state.old (part_input units.now) }
{
    let n = units.len();
    if n < PART {
        hash_units(units, state);
        return;
    }
    state.write_usize(n);
    state.write_u64(word_at(units, n / 2));
    state.write_u64(word_at(units, n - n / 4));
    state.write_u64(word_at(units, n - 4));
}

/// Types, one after another.
fn hash_parts<H: Hasher>(parts: &[Desc<'_>], state: &mut H)
    ensures { state.new ≡ fold H.write state.old (flat_map (λ d. part_input d.text.units.now) parts.now) }
{
    for part in parts {
        hash_part(part.text.units, state);
    }
}

impl Hash for Str<'_> {
    ghost use Rattle.program_types.specs.Hashing.{str_input, str_respects};

    ghost hash_input = { str_input };

    ghost respects_eq = { str_respects };

    fn hash<H: Hasher>(&self, state: &mut H) {
        hash_units(self.units, state);
    }
}

impl Hash for FieldRef<'_> {
    ghost use Rattle.program_types.specs.Hashing.{field_input, field_respects};

    ghost hash_input = { field_input };

    ghost respects_eq = { field_respects };

    fn hash<H: Hasher>(&self, state: &mut H) {
        hash_part(self.class.text.units, state);
        self.name.hash(state);
        hash_part(self.ty.text.units, state);
    }
}

impl Hash for MethodRef<'_> {
    ghost use Rattle.program_types.specs.Hashing.{method_input, method_respects};

    ghost hash_input = { method_input };

    ghost respects_eq = { method_respects };

    fn hash<H: Hasher>(&self, state: &mut H) {
        hash_part(self.class.text.units, state);
        self.name.hash(state);
        let proto = self.proto;
        hash_part(proto.ret.text.units, state);
        state.write_usize(proto.params.len());
        hash_parts(proto.params, state);
    }
}
