//! How a test is told, at its end and once.

use dex_base::Fault;
use std::alloc::Global;
use std::test::Fail;

/// A row of a test's table.
pub trait Case {
    /// What the case is called.
    fn name(&self) -> &'static str;

    /// Whether it is as it is to be, or the fault that was met before.
    fn holds(&self, alloc: Global) -> Result<bool, Fault>;
}

fn first_wrong<C: Case>(alloc: Global, cases: &[C]) -> Result<Option<&'static str>, Fault> {
    for case in cases {
        if !case.holds(alloc)? {
            return Ok(Some(case.name()));
        }
    }
    Ok(None)
}

/// Passes where all cases hold. Fails with the name of the first one that doesn't.
pub fn all_hold<C: Case>(alloc: Global, cases: &[C]) -> Result<(), Fail> {
    none_wrong(first_wrong(alloc, cases))
}

/// Passes where no case is wrong. Fails with what the first wrong one is called, or with the fault that was met before.
pub fn none_wrong(wrong: Result<Option<&str>, Fault>) -> Result<(), Fail> {
    match wrong {
        Ok(None) => Ok(()),
        Ok(Some(what)) => Err(Fail::new(what)),
        Err(fault) => Err(Fail::from(fault)),
    }
}

/// Passes where the one thing that a test asks is so.
pub fn is_so(so: Result<bool, Fault>) -> Result<(), Fail> {
    match so {
        Ok(true) => Ok(()),
        Ok(false) => Err(Fail::new("it is not so")),
        Err(fault) => Err(Fail::from(fault)),
    }
}
