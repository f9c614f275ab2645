//! Laws of strings, names and descriptors: functions that do nothing, whose contracts are the laws.

ghost use Rattle.std.specs.Prelude.{◌≡◌, ◌≢◌, ℕ, ◌≤◌, ◌<◌, ◌+◌, ◌*◌, ◌↔◌, List, length, All, slice_index};
ghost use Rattle.dex_base.specs.Grammar.{IsPrefixUnique};
ghost use Rattle.dex_base.specs.Mutf8.{SpellsUnit, SpellsText, PacksText, mutf8_length};
ghost use Rattle.dex_base.specs.Descriptor.{IsDescriptor, IsClass, IsArray, IsMemberName, IsPrefixFree};
ghost use Rattle.dex_base.specs.Deciding.{Decided, DecidedFront};

/// No encoding of a unit is a prefix of another one, and it encodes one unit.
pub fn unit_is_prefix_unique()
    ensures { IsPrefixUnique SpellsUnit }
{}

/// Each unit has one spelling.
pub fn unit_has_one_spelling()
    ensures { (a b : List ℕ) (unit : ℕ) → SpellsUnit a unit → SpellsUnit b unit → a ≡ b }
{}

/// No string_data_item is a prefix of another one, and it encodes one text.
pub fn text_is_prefix_unique()
    ensures { IsPrefixUnique SpellsText }
{}

/// The string_data_item that is written is one that is read, and each text has one such in bytes.
pub fn packed_text_is_one_text()
    ensures text { (bytes units : List ℕ) → PacksText bytes units → SpellsText bytes units }
    ensures one { (a b units : List ℕ) → All (λ byte. byte < 256) a → All (λ byte. byte < 256) b → PacksText a units → PacksText b units → a ≡ b }
{}

/// How long a written string_data_item is: count and end byte take at most 6 bytes, a unit 1 to 3.
pub fn packed_text_is_short()
    ensures bytes { (bytes units : List ℕ) → PacksText bytes units → length bytes ≤ mutf8_length units + 6 }
    ensures units { (units : List ℕ) → mutf8_length units ≤ 3 * length units }
    ensures least { (units : List ℕ) → length units ≤ mutf8_length units }
{}

/// No descriptor begins another one.
pub fn descriptor_is_prefix_free()
    ensures { IsPrefixFree IsDescriptor }
{}

/// The descriptors of classes are those that begin with `L`.
pub fn class_begins_with_l()
    ensures { (units : List ℕ) → IsClass units ↔ (IsDescriptor units × (slice_index units 0 ≡ 76)) }
{}

/// No descriptor has a space or control character, `(`, `)` or `:`; the first unit of none is `)`.
pub fn descriptor_has_no_parenthesis()
    ensures units { (units : List ℕ) → IsDescriptor units → All (λ u. (33 ≤ u) × (u ≢ 40) × (u ≢ 41) × (u ≢ 58)) units }
    ensures first { (units : List ℕ) → IsDescriptor units → slice_index units 0 ≢ 41 }
{}

/// No member name has a space or control character, `(`, `)` or `:`.
pub fn member_name_has_no_parenthesis()
    ensures { (units : List ℕ) → IsMemberName units → All (λ u. (33 ≤ u) × (u ≢ 40) × (u ≢ 41) × (u ≢ 58)) units }
{}

/// Any bytes begin with a text, or with none: this is decided.
pub fn texts_are_decided()
    ensures { (bytes : List ℕ) → DecidedFront SpellsText bytes }
{}

/// Units are a descriptor, a class, an array or a member name, or they are not.
pub fn names_are_decided()
    ensures descriptor { (units : List ℕ) → Decided (IsDescriptor units) }
    ensures class { (units : List ℕ) → Decided (IsClass units) }
    ensures array { (units : List ℕ) → Decided (IsArray units) }
    ensures member { (units : List ℕ) → Decided (IsMemberName units) }
{}
