//! Laws of the names of a file, each the contract of a function that does nothing.

ghost use Rattle.std.specs.Prelude.{◌≡◌, ℕ, ◌⊎◌, List, ◌↔◌, true};
ghost use Rattle.std.specs.Ordering.{nat_cmp};
ghost use Rattle.program_types.specs.Content.{Name, Proto};
ghost use Rattle.tables_names.specs.Rank.{is_member, add_all};
ghost use Rattle.program_types.specs.Key.{key_cmp, text_key, proto_key, field_ref_key, method_ref_key, Key};
ghost use Rattle.tables_rows.specs.Stands.{StringStands, TypeStands, ProtoStands, FieldStands, MethodStands, NameStands};
ghost use Rattle.dex_container.specs.Frame.{IsFramed};
ghost use Rattle.tables_rows.specs.Sorted.{TablesHold};
ghost use Rattle.tables_laws.specs.inner.FileNames.{TablesHaveNames, NamesRise, NamesAreClosed, FilesHoldNeeded, FilesAreNoShorter, NeededHasRows};

/// Where the tables hold, each row denotes a name.
#[tactic(auto, using(crate::proofs::FileLemmas::tables_have_names))]
pub fn tables_have_names()
    ensures { TablesHaveNames }
{}

/// The names of each table rise: order by indices is order by names.
pub fn names_rise()
    ensures { NamesRise }
{}

/// With each name in a file's tables its parts are there too.
#[tactic(auto, using(crate::proofs::FileLemmas::names_are_closed))]
pub fn names_are_closed()
    ensures { NamesAreClosed }
{}

/// A file that has a row for each name that a program mentions holds all that the program needs.
pub fn files_hold_needed()
    ensures { FilesHoldNeeded }
{}

/// The tables of a file that has a row for each name that a program mentions are no shorter than what the program
/// needs.
pub fn files_are_no_shorter()
    ensures { FilesAreNoShorter }
{}

/// A file that has a row for each name that a program mentions has one for each name that the program needs.
#[tactic(auto, using(crate::proofs::FileLemmas::needed_has_rows))]
pub fn needed_has_rows()
    ensures { NeededHasRows }
{}

/// Names of a file compare as their rows: order by names is order by indices, and no name has two rows.
pub fn names_compare_as_rows()
    ensures string { (b : List ℕ) → IsFramed b → TablesHold b → (i j : ℕ) (s t : _) → StringStands b i s → StringStands b j t → key_cmp (text_key s) (text_key t) ≡ nat_cmp i j }
    ensures ty { (b : List ℕ) → IsFramed b → TablesHold b → (i j : ℕ) (s t : _) → TypeStands b i s → TypeStands b j t → key_cmp (text_key s) (text_key t) ≡ nat_cmp i j }
    ensures proto { (b : List ℕ) → IsFramed b → TablesHold b → (i j : ℕ) (p q : _) → ProtoStands b i p → ProtoStands b j q → key_cmp (proto_key p) (proto_key q) ≡ nat_cmp i j }
    ensures field { (b : List ℕ) → IsFramed b → TablesHold b → (i j : ℕ) (f g : _) → FieldStands b i f → FieldStands b j g → key_cmp (field_ref_key f) (field_ref_key g) ≡ nat_cmp i j }
    ensures method { (b : List ℕ) → IsFramed b → TablesHold b → (i j : ℕ) (m n : _) → MethodStands b i m → MethodStands b j n → key_cmp (method_ref_key m) (method_ref_key n) ≡ nat_cmp i j }
{}

/// A name has one row.
pub fn row_of_a_name_is_one()
    ensures name { (b : List ℕ) → IsFramed b → TablesHold b → (i j : ℕ) (name : Name) → NameStands b i name → NameStands b j name → i ≡ j }
    ensures proto { (b : List ℕ) → IsFramed b → TablesHold b → (i j : ℕ) (p : Proto) → ProtoStands b i p → ProtoStands b j p → i ≡ j }
{}

/// A union holds what one of the two sets holds.
#[tactic(auto, using(crate::proofs::FileLemmas::union_members))]
pub fn unions_hold_both()
    ensures { (ks js : List Key) (k : Key) → is_member (add_all ks js) k ≡ true ↔ ((is_member ks k ≡ true) ⊎ (is_member js k ≡ true)) }
{}
