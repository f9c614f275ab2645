//! Short forms of prototypes.

use bumpalo::Bump;
use dex_base::Fault;
use dex_samples::{Case, all_hold, proto, text};
use program_types::shorty_of;
use std::alloc::Global;
use std::test::Fail;

/// What the prototype is, its return type, its parameters, its short form.
struct Shortened(
    &'static str,
    &'static str,
    &'static [&'static str],
    &'static str,
);

impl Case for Shortened {
    fn name(&self) -> &'static str {
        self.0
    }

    fn holds(&self, alloc: Global) -> Result<bool, Fault> {
        let arena = Bump::new(alloc);
        is_shortened_so(alloc, &arena, self)
    }
}

fn is_shortened_so(alloc: Global, arena: &Bump, case: &Shortened) -> Result<bool, Fault> {
    let types = proto(arena, case.1, case.2)?;
    let shorty = shorty_of(alloc, arena, types.ret, types.params)?;
    Ok(shorty == text(arena, case.3)?)
}

#[rattlefmt::skip]
#[test]
fn references_are_one_letter_and_the_return_type_comes_first(rt: HostRuntime) -> Result<(), Fail> {
    static CASES: [Shortened; 3] = [
        Shortened("(I[JLA;)V", "V", &["I", "[J", "LA;"], "VILL"),
        Shortened("()[J", "[J", &[], "L"),
        Shortened("(ZBSCIJFD)V", "V", &["Z", "B", "S", "C", "I", "J", "F", "D"], "VZBSCIJFD"),
    ];
    all_hold(rt.alloc(), &CASES)
}
