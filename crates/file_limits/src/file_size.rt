//! How many bytes a file takes at most.
//! Page: "Dalvik Executable format", "File layout".
ghost use Rattle.std.specs.Prelude.{◌<◌, ◌↔◌, map, IsTrue};
ghost use Rattle.file_layout.specs.Sections.{wide_all};
ghost use Rattle.program_types.specs.View as view;
ghost use Rattle.file_limits.specs.inner.Sum.{IsSum};
ghost use Rattle.file_limits.specs.Wide.{wide_class, wide_data, wide_names, wide_of};

use crate::code_sizes::bodies_size;
use crate::sums::{plus, times};
use crate::text_sizes::{list_size, protos_size, strings_size};
use crate::value_sizes::values_size;
use program_types::{Class, Program};
use tables_names::Ranks;

/// How many bytes the members of a class take at most.
fn data_size(class: &Class<'_>) -> u64
    ensures { IsSum result (wide_data (view.class class.now)) }
{
    let fields = plus(
        times(class.statics.len(), 10),
        times(class.instances.len(), 10),
    );
    let methods = plus(
        times(class.directs.len(), 15),
        times(class.virtuals.len(), 15),
    );
    plus(plus(20, fields), methods)
}

/// How many bytes what a class adds to a file takes at most.
fn class_size(class: &Class<'_>) -> u64
    ensures { IsSum result (wide_class (view.class class.now)) }
{
    let data = plus(plus(32, list_size(class.interfaces)), data_size(class));
    let values = plus(data, plus(5, values_size(class.values)));
    plus(
        values,
        plus(bodies_size(class.directs), bodies_size(class.virtuals)),
    )
}

/// How many bytes what all classes add to a file takes at most.
fn classes_size(classes: &[Class<'_>]) -> u64
    ensures { IsSum result (wide_all wide_class (map view.class classes.now)) }
{
    let mut sum: u64 = 0;
    for class in classes {
        sum = plus(sum, class_size(class));
    }
    sum
}

/// How many bytes the header and the names take at most.
fn names_size(ranks: &Ranks<'_>) -> u64
    ensures { IsSum result (wide_names ranks.now) }
{
    let texts = plus(112, strings_size(ranks.strings()));
    let types = plus(texts, times(ranks.types().len(), 4));
    let protos = plus(types, protos_size(ranks.protos()));
    let fields = plus(protos, times(ranks.fields().len(), 8));
    plus(fields, times(ranks.methods().len(), 8))
}

/// Whether the file of a program of these names could take more than 4294967295 bytes, if nothing in it were shared and each
/// LEB128 number took five bytes.
pub fn is_too_big(ranks: &Ranks<'_>, program: &Program<'_>) -> bool
    ensures { IsTrue result ↔ (4294967295 < wide_of ranks.now (view.program program.now)) }
{
    let all = plus(names_size(ranks), classes_size(program.classes));
    plus(all, 163) > 4294967295
}
