//! The program that a file means, class by class.
ghost use Rattle.std.specs.Prelude.{◌≡◌, ◌≢◌, ◌<◌, ◌++◌, ◌∷◌, [], List, IfOk, IfErr, IfSome, IfNone, OnOk, OnErr};
ghost use Rattle.dex_base.specs.Fault.{memory};
ghost use Rattle.program_types.specs.Content as content;
ghost use Rattle.program_types.specs.View as view;
ghost use Rattle.file_classes.specs.inner.Reading.{AreCodesOf};
ghost use Rattle.file_read.specs.Means.{Means};
ghost use Rattle.file_read.specs.Refused.{IsRefused};
ghost use Rattle.file_read.specs.inner.ByClass.{IsReader, HasRead, rows_left};

use bumpalo::Bump;
use dex_base::Fault;
use dex_container::{Sections, open};
use file_classes::{Codes, Head, Statics, class_count, read_class_at, read_heads, read_statics};
use program_types::Class;
use std::alloc::Global;
use tables_rows::Tables;

/// A file whose classes are read one after the other, for callers that need one at a time: names, members and static values of all of
/// them lie in one arena, their code in one that the caller may empty between two classes.
#[derive(Drop)]
pub struct ClassReader<'a> {
    sections: Sections<'a>,
    tables: Tables<'a>,
    heads: &'a [Head<'a, 'a>],
    statics: &'a [Statics<'a>],
    /// The row of the next class.
    row: u32,
    /// The first fault of registers before that row, which is returned if no code of a later row has another.
    past: Option<Fault>,
}

impl<'a> ClassReader<'a> {
    /// All of a file but its code, before its first class: refuses what `read` refuses for another reason than code, with the same
    /// fault.
    ///
    /// ```
    /// use bumpalo::Bump;
    /// use dex_file::write;
    /// use dex_program::Program;
    /// use file_classes::Codes;
    /// use file_read::ClassReader;
    ///
    /// let arena = Bump::new(alloc);
    /// let file = write(alloc, &Program { classes: &[] })?;
    /// let mut reader = ClassReader::begin(alloc, &arena, &file)?;
    /// assert!(rt; reader.next_class(&mut Codes::new(alloc, &arena))?.is_none());
    /// ```
    pub fn begin(alloc: Global, arena: &'a Bump, bytes: &'a [u8]) -> Result<ClassReader<'a>, Fault>
        ensures reader { IfOk result IsReader }
        ensures bytes { IfOk result (λ r. r.sections ≡ bytes.now) }
        ensures none { IfOk result (λ r. HasRead r []) }
        ensures refused { IfErr result (λ e. e ≢ memory → IsRefused bytes.now e) }
    {
        let sections = open(bytes)?;
        let tables = Tables::read(alloc, arena, &sections)?;
        let heads = read_heads(alloc, arena, arena, &sections, &tables)?;
        let statics = read_statics(alloc, arena, arena, &sections, &tables, heads)?;
        Ok(ClassReader {
            sections,
            tables,
            heads,
            statics,
            row: 0,
            past: None,
        })
    }

    /// Returns the next class, its code in the arena of `codes`, but for what was read into it already; `None` after the last, and then
    /// the file means the program of all returned classes. Refuses what `read` refuses for its code, with the same fault: of registers
    /// after the last class, otherwise at the class that has it. The reader is as it was if no class is returned.
    ///
    /// ```
    /// use bumpalo::Bump;
    /// use dex_file::write;
    /// use dex_listing::parse;
    /// use file_classes::Codes;
    /// use file_read::ClassReader;
    ///
    /// let arena = Bump::new(alloc);
    /// let file = write(alloc, &parse(alloc, &arena, b"dex 035 listing 2\nclass LA; 0x1\nend class\n")?)?;
    /// let mut reader = ClassReader::begin(alloc, &arena, &file)?;
    /// let mut codes = Codes::new(alloc, &arena);
    /// assert_eq!(rt; reader.next_class(&mut codes)?.unwrap().flags, 1);
    /// assert!(rt; reader.next_class(&mut codes)?.is_none());
    /// ```
    pub fn next_class<'c>(&mut self, codes: &mut Codes<'c>) -> Result<Option<Class<'c>>, Fault>
    where
        'a: 'c,
        requires reader { IsReader self.old }
        requires codes { AreCodesOf self.old.sections codes.old }
        ensures codes { OnOk result (AreCodesOf self.old.sections codes.new) }
        ensures reader { OnOk result (IsReader self.new) }
        ensures bytes { self.new.sections ≡ self.old.sections }
        ensures next { IfOk result (λ x. IfSome x (λ one. (classes : List content.Class) → HasRead self.old classes → HasRead self.new (classes ++ view.class one ∷ []))) }
        ensures fewer { IfOk result (λ x. IfSome x (λ _. rows_left self.new < rows_left self.old)) }
        ensures whole { IfOk result (λ x. IfNone x ((classes : List content.Class) → HasRead self.old classes → Means self.old.sections classes)) }
        ensures refused { IfErr result (λ e. e ≢ memory → IsRefused self.old.sections e) }
        ensures kept { OnErr result (self.new ≡ self.old) }
        ensures same { IfOk result (λ x. IfNone x (self.new ≡ self.old)) }
    {
        if self.row >= class_count(&self.sections) {
            return match self.past {
                Some(fault) => Err(fault),
                None => Ok(None),
            };
        }
        let found = read_class_at(
            codes,
            &self.sections,
            &self.tables,
            self.heads,
            self.statics,
            self.row,
        )?;
        self.row += 1;
        self.past = self.past.or(found.past);
        Ok(Some(found.class))
    }
}
