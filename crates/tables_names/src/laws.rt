//! Laws over the definitions, for the proofs of crates above.
ghost use Rattle.tables_names.specs.Rank.{IndexIsAtLeastRank};
ghost use Rattle.tables_names.specs.inner.Rank.{KeysCompareAsIndices, SetsAreTheirMembers};
ghost use Rattle.tables_names.specs.inner.Needed.{NeededIsLeast, LeastIsNeeded};
ghost use Rattle.tables_names.specs.inner.Indices.{ClosedHaveRows, RisingTablesRise, LookUpsAnswer, MentionsHaveIndices};
ghost use Rattle.tables_names.specs.inner.Rows.{TypesRise, ProtosRise, FieldsRise, MethodsRise};

/// A table of a file is never shorter than what is needed.
#[tactic(auto, using(crate::proofs::RowLemmas::index_is_at_least_rank))]
pub fn index_is_at_least_rank()
    ensures { IndexIsAtLeastRank }
{}

/// Order by names is order by indices.
#[tactic(auto, using(crate::proofs::RowLemmas::keys_compare_as_indices))]
pub fn keys_compare_as_indices()
    ensures { KeysCompareAsIndices }
{}

/// Types that are sorted by index are sorted by name.
#[tactic(auto, using(crate::proofs::RowLemmas::types_rise))]
pub fn types_rise()
    ensures { TypesRise }
{}

/// Protos that are sorted by index are sorted by name.
#[tactic(auto, using(crate::proofs::RowLemmas::protos_rise))]
pub fn protos_rise()
    ensures { ProtosRise }
{}

/// Fields that are sorted by indices are sorted by name.
#[tactic(auto, using(crate::proofs::RowLemmas::fields_rise))]
pub fn fields_rise()
    ensures { FieldsRise }
{}

/// Methods that are sorted by indices are sorted by name.
#[tactic(auto, using(crate::proofs::RowLemmas::methods_rise))]
pub fn methods_rise()
    ensures { MethodsRise }
{}

/// The order of additions doesn't matter.
#[tactic(auto, using(crate::proofs::RowLemmas::sets_are_their_members))]
pub fn sets_are_their_members()
    ensures { SetsAreTheirMembers }
{}

/// The needed names of a program are the least sets that hold what it mentions and with each name its parts, and no other
/// rising sets are.
pub fn needed_is_least()
    ensures least { NeededIsLeast }
    ensures only { LeastIsNeeded }
{}

/// Each name that a program mentions has an index among those that it needs.
#[tactic(auto, using(crate::proofs::IndexLemmas::mentions_have_indices))]
pub fn mentions_have_indices()
    ensures { MentionsHaveIndices }
{}

/// Beside each name that is held its parts have indices, so that its row can be written.
#[tactic(auto, using(crate::proofs::IndexLemmas::closed_have_rows))]
pub fn closed_have_rows()
    ensures { ClosedHaveRows }
{}

/// In sets that rise by names the rows rise by indices.
#[tactic(auto, using(crate::proofs::IndexLemmas::rising_tables_rise))]
pub fn rising_tables_rise()
    ensures { RisingTablesRise }
{}

/// A look-up of a name in a table of at most 4294967296 names finds it.
#[tactic(auto, using(crate::proofs::IndexLemmas::look_ups_answer))]
pub fn look_ups_answer()
    ensures { LookUpsAnswer }
{}
