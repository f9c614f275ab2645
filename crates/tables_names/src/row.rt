//! What the five kinds of names have in common: a key, and an order by keys.
ghost use Rattle.std.specs.Prelude.{◌≡◌, refl};
ghost use Rattle.program_types.specs.Key.{Key, key_cmp};
ghost use Rattle.program_types.specs.KeyLaws.{ordering_then-equal, proto_cmp, field_ref_cmp, method_ref_cmp};
ghost use Rattle.tables_names.specs.Keys.{key_of_str, key_of_desc, key_of_proto, key_of_field, key_of_method};

use program_types::{Desc, FieldRef, MethodRef, Proto, Str};
use std::hash::Hash;

/// A name of one of the five tables string_ids, type_ids, proto_ids, field_ids and method_ids.
///
/// Its key is what it means, the texts of the name, and its order is that of the keys: a strict total order, which in
/// every sorted file is the order by indices.
pub trait Row: Copy + Ord + Hash {
    // The texts of the name, in the order of its row's fields.
    ghost key: { Self → Key };

    // Names compare as their keys.
    ghost cmp_by_key: { (x y : Self) → Self.cmp x y ≡ key_cmp (key x) (key y) };
}

impl Row for Str<'_> {
    ghost key = { key_of_str };

    ghost cmp_by_key = { λ x y. ordering_then-equal _ };
}

impl Row for Desc<'_> {
    ghost key = { key_of_desc };

    ghost cmp_by_key = { λ x y. ordering_then-equal _ };
}

impl Row for Proto<'_> {
    ghost key = { key_of_proto };

    ghost cmp_by_key = { proto_cmp _ (λ d e. refl) };
}

impl Row for FieldRef<'_> {
    ghost key = { key_of_field };

    ghost cmp_by_key = { field_ref_cmp };
}

impl Row for MethodRef<'_> {
    ghost key = { key_of_method };

    ghost cmp_by_key = { method_ref_cmp _ (λ d e. refl) };
}
