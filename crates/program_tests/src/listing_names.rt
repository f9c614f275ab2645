//! Names made from texts: which texts spell one.

use bumpalo::Bump;
use dex_base::Fault;
use dex_names::{field, method, proto, text, ty};
use dex_samples::{Case, all_hold};
use std::alloc::Global;
use std::test::Fail;

/// What a text is to be.
#[derive(Clone, Copy)]
enum Kind {
    Text,
    Type,
    Proto,
    Field,
    Method,
}

/// Whether the text spells one.
fn is_spelled(arena: &Bump, kind: Kind, name_text: &str) -> Result<bool, Fault> {
    match kind {
        Kind::Text => Ok(text(arena, name_text)?.is_some()),
        Kind::Type => Ok(ty(arena, name_text)?.is_some()),
        Kind::Proto => Ok(proto(arena, name_text)?.is_some()),
        Kind::Field => Ok(field(arena, name_text)?.is_some()),
        Kind::Method => Ok(method(arena, name_text)?.is_some()),
    }
}

/// What a text is to be, the text, and whether it spells one.
struct Spelled(Kind, &'static str, bool);

impl Case for Spelled {
    fn name(&self) -> &'static str {
        self.1
    }

    fn holds(&self, alloc: Global) -> Result<bool, Fault> {
        let arena = Bump::new(alloc);
        Ok(is_spelled(&arena, self.0, self.1)? == self.2)
    }
}

#[rattlefmt::skip]
#[test]
fn a_text_spells_a_name_or_none(rt: HostRuntime) -> Result<(), Fail> {
    static CASES: [Spelled; 10] = [
        Spelled(Kind::Text, "caf\\u00e9", true),
        Spelled(Kind::Text, "caf\\u00e", false),
        Spelled(Kind::Type, "[[Ljava/lang/String;", true),
        Spelled(Kind::Type, "java.lang.String", false),
        Spelled(Kind::Proto, "([Ljava/lang/String;J)V", true),
        Spelled(Kind::Proto, "(I)", false),
        Spelled(Kind::Field, "LHello;->name:Ljava/lang/String;", true),
        Spelled(Kind::Field, "LHello;->name", false),
        Spelled(Kind::Method, "LHello;->get(Z)I", true),
        Spelled(Kind::Method, "LHello;.get(Z)I", false),
    ];
    all_hold(rt.alloc(), &CASES)
}
