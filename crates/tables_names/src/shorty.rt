//! The index of a prototype's shorty ("Dalvik Executable format": shorty_idx of proto_id_item), found without spelling it.
ghost use Rattle.std.specs.Prelude.{◌≡◌, ◌<◌, length, map};
ghost use Rattle.std.proofs.Common.{get_or, nat_cmp};
ghost use Rattle.std.specs.Cmp.Lexicographic.{slice_cmp};
ghost use Rattle.program_types.specs.Key.{text_key};
ghost use Rattle.program_types.specs.Shorty.{shorty};
ghost use Rattle.program_types.specs.View.{str, proto};
ghost use Rattle.tables_names.specs.Keys.{key_of_str};
ghost use Rattle.tables_names.specs.Rank.{Rising, LookUpAnswers};

use program_types::{Proto, Str, letter};
use std::cmp::Ordering;

/// The letter of the return type, and then of the parameters.
fn letter_at(name: &Proto<'_>, i: usize) -> u16
    requires { i < length (shorty (proto name.now)) }
    ensures { result ≡ get_or (shorty (proto name.now)) i 0 }
{
    if i == 0 {
        letter(name.ret)
    } else {
        letter(name.params[i - 1])
    }
}

/// How a text compares with the shorty of a prototype.
fn cmp_shorty(text: Str<'_>, name: &Proto<'_>) -> Ordering
    ensures { result ≡ slice_cmp nat_cmp (str text.entry) (shorty (proto name.now)) }
{
    let (m, n) = (text.units.len(), name.params.len() + 1);
    for i in 0..m.min(n) {
        match text.units[i].cmp(&letter_at(name, i)) {
            Ordering::Equal => {}
            unequal => return unequal,
        }
    }
    m.cmp(&n)
}

/// The index of a prototype's shorty among strings that rise. Takes no memory.
pub(crate) fn index_of_shorty(strings: &[Str<'_>], name: &Proto<'_>) -> Option<u32>
    requires { Rising (map key_of_str strings.now) }
    ensures { LookUpAnswers (map key_of_str strings.now) (text_key (shorty (proto name.now))) result }
{
    let found = strings.binary_search_by(
        |text: &Str<'_>| -> Ordering
            ensures { result ≡ slice_cmp nat_cmp (str text.now) (shorty (proto name.entry.now)) }
        { cmp_shorty(*text, name) },
    );
    match found {
        Ok(at) => u32::try_from(at).ok(),
        Err(_) => None,
    }
}
