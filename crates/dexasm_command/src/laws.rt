//! The meaning of the exit status: laws of the definitions, each the contract of a function that does nothing else.
ghost use Rattle.dexasm_command.specs.Statuses.{FourMeans, NoOther, OneMeans, OutIsNeverLost, ThreeMeans, TwoMeans, ZeroMeans};

/// The meaning of each status.
pub fn statuses_have_meanings()
    ensures zero { ZeroMeans }
    ensures one { OneMeans }
    ensures two { TwoMeans }
    ensures three { ThreeMeans }
    ensures four { FourMeans }
    ensures no_other { NoOther }
{}

/// Whatever the status, OUT isn't lost.
pub fn out_is_never_lost()
    ensures { OutIsNeverLost }
{}
