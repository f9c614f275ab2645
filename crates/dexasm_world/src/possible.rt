//! A law of the trait `World`: its clauses about a successful and about a failed call can be satisfied whatever files there are. So the
//! theorems about all worlds are not empty.
ghost use Rattle.dexasm_world.specs.inner.Possible.{CanBegin, CanDress, CanFail, CanKeep, CanMake, CanMove, CanAppend, CanRemove};

/// For each call there is an outcome that its clauses allow.
pub fn each_call_is_possible()
    ensures make { CanMake }
    ensures dress { CanDress }
    ensures put { CanAppend }
    ensures keep { CanKeep }
    ensures replace { CanMove }
    ensures remove { CanRemove }
    ensures begin { CanBegin }
    ensures fail { CanFail }
{}
