//! The numbers of kept rows.
ghost use Rattle.std.specs.Prelude.{◌≡◌, ◌↔◌, ◌+◌, ◌-◌, ◌<◌, IsTrue, Some, length, slice_get};
ghost use Rattle.file_renumber.specs.inner.Numbers.{column_of, IsKept};

use crate::column::is_kept;
use dex_base::Seed;
use dex_insn::IndexKind;
use std::marker::Model;

/// For each row of the five tables, how many kept ones are before it, and after the last row of a table how many there are.
/// Its model is these numbers.
pub struct Numbers {
    pub(crate) strings: Vec<u32>,
    pub(crate) types: Vec<u32>,
    pub(crate) protos: Vec<u32>,
    pub(crate) fields: Vec<u32>,
    pub(crate) methods: Vec<u32>,
    pub(crate) seed: Seed,
}

// As that of `Marks`.
impl Drop for Numbers {
    fn drop(self) {
        let Numbers {
            strings: _,
            types: _,
            protos: _,
            fields: _,
            methods: _,
            seed: _,
        } = self;
    }
}

impl Model for Numbers {
    ghost use Rattle.file_renumber.specs.inner.Marked.{Columns};

    ghost Value = { Columns };

    ghost view = { λ n. record { strings = n.strings.items; types = n.types.items; protos = n.protos.items; fields = n.fields.items; methods = n.methods.items } };
}

impl Numbers {
    /// The seed of hashes, for callers that hash what is written by these numbers.
    ///
    /// ```
    /// let mut handlers = IndexSet::with_hasher(alloc, numbers.seed());
    /// ```
    pub fn seed(&self) -> Seed {
        self.seed
    }

    /// The numbers of the table of these names.
    fn column(&self, kind: IndexKind) -> &[u32]
        ensures { result.now ≡ column_of self.now kind }
    {
        match kind {
            IndexKind::String => &self.strings,
            IndexKind::Type => &self.types,
            IndexKind::Field => &self.fields,
            IndexKind::Method => &self.methods,
        }
    }

    /// The number of a kept row of the table of these names: its row in a file of the kept ones alone.
    ///
    /// ```
    /// let index = marks.number().of(IndexKind::Type, 5);
    /// ```
    pub fn of(&self, kind: IndexKind, index: u32) -> u32
        requires { index < length (column_of self.now kind) }
        ensures { slice_get (column_of self.now kind) index ≡ Some result }
    {
        self.column(kind)[index as usize]
    }

    /// The number of a kept row of proto_ids.
    ///
    /// ```
    /// let index = marks.number().proto(2);
    /// ```
    pub fn proto(&self, index: u32) -> u32
        requires { index < length self.now.protos }
        ensures { slice_get self.now.protos index ≡ Some result }
    {
        self.protos[index as usize]
    }

    /// Whether a row of the table of these names is kept.
    ///
    /// ```
    /// assert!(rt; !marks.number().keeps(IndexKind::Type, 5)); // nothing mentions it
    /// ```
    pub fn keeps(&self, kind: IndexKind, index: u32) -> bool
        requires { index + 1 < length (column_of self.now kind) }
        ensures { IsTrue result ↔ IsKept (column_of self.now kind) index }
    {
        is_kept(self.column(kind), index)
    }

    /// Whether a row of proto_ids is kept.
    ///
    /// ```
    /// assert!(rt; !marks.number().keeps_proto(2)); // no method that is kept has it
    /// ```
    pub fn keeps_proto(&self, index: u32) -> bool
        requires { index + 1 < length self.now.protos }
        ensures { IsTrue result ↔ IsKept self.now.protos index }
    {
        is_kept(&self.protos, index)
    }

    /// How many rows of the table of these names are kept.
    ///
    /// ```
    /// let count = marks.number().count(IndexKind::String);
    /// ```
    pub fn count(&self, kind: IndexKind) -> u32
        requires { 0 < length (column_of self.now kind) }
        ensures { slice_get (column_of self.now kind) (length (column_of self.now kind) - 1) ≡ Some result }
    {
        let column = self.column(kind);
        column[column.len() - 1]
    }

    /// How many rows of proto_ids are kept.
    ///
    /// ```
    /// let count = marks.number().count_protos();
    /// ```
    pub fn count_protos(&self) -> u32
        requires { 0 < length self.now.protos }
        ensures { slice_get self.now.protos (length self.now.protos - 1) ≡ Some result }
    {
        self.protos[self.protos.len() - 1]
    }
}
