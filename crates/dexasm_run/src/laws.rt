//! Laws of outputs and outcomes, each the contract of a function that does nothing else.
ghost use Rattle.dexasm_run.specs.Once.{OneAnswer, OneOutcome};
ghost use Rattle.dexasm_run.specs.inner.Once.{ListedAndAssembledIsStripped};

/// A job has one output for its input bytes.
pub fn one_answer()
    ensures { OneAnswer }
{}

/// What is listed of a file and assembled is what is stripped of it.
pub fn listed_and_assembled_is_stripped()
    ensures { ListedAndAssembledIsStripped }
{}

/// A job has one outcome for its input bytes, unless memory runs out: an output, or a refusal with its number and its place.
pub fn one_outcome()
    ensures { OneOutcome }
{}
