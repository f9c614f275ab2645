//! The rows of class_defs, word by word ("class_def_item").
ghost use Rattle.std.specs.Prelude.{◌<◌, IfOk, IsOkUnless};
ghost use Rattle.dex_base.specs.Fault.{memory};
ghost use Rattle.file_strip.specs.inner.Words.{AreClassWords};

use dex_base::Fault;
use dex_container::Sections;
use file_classes::{class_count, class_word};
use std::alloc::Global;

/// Word j of each row.
pub(crate) fn class_words(alloc: Global, sections: &Sections<'_>, j: u32) -> Result<Vec<u32>, Fault>
    requires word { j < 8 }
    ensures ok { IfOk result (λ words. AreClassWords sections.now j words.items) }
    ensures memory { IsOkUnless result memory }
{
    let count = class_count(sections);
    let mut words = Vec::with_capacity(alloc, count as usize)?;
    for i in 0..count {
        words.push(class_word(sections, i, j))?;
    }
    Ok(words)
}
