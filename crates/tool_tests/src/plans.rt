//! What words ask for, and what is told of wrong ones.

use dex_base::Fault;
use dex_samples::{Case, all_hold};
use dexasm_command::{Job, plan, usage_status};
use std::alloc::Global;
use std::test::Fail;

/// What words mean.
enum Meaning {
    // the job, FILE, OUT
    Plan(Job, Option<&'static str>, Option<&'static str>),
    // they are refused, or ask for help, with this status
    Status(u8),
}

struct PlanCase(&'static [&'static str], Meaning);

impl Case for PlanCase {
    fn name(&self) -> &'static str {
        last_of(self.0)
    }

    fn holds(&self, alloc: Global) -> Result<bool, Fault> {
        Ok(match (plan(alloc, self.0), &self.1) {
            (Ok(made), Meaning::Plan(job, file, output)) => {
                made.job == *job && is_same(made.file, *file) && is_same(made.output, *output)
            }
            (Err(error), Meaning::Status(status)) => usage_status(&error) == *status,
            _ => false,
        })
    }
}

fn is_same(one: Option<&str>, other: Option<&str>) -> bool {
    match one {
        Some(text) => other.is_some_and(|it| it == text),
        None => other.is_none(),
    }
}

fn last_of(words: &'static [&'static str]) -> &'static str {
    match words.last() {
        Some(word) => word,
        None => "no words",
    }
}

#[rattlefmt::skip]
#[test]
fn words_request_a_job_or_have_their_status(rt: HostRuntime) -> Result<(), Fail> {
    static CASES: [PlanCase; 27] = [
        PlanCase(&["dexasm", "check"], Meaning::Plan(Job::Check, None, None)),
        PlanCase(&["dexasm", "list"], Meaning::Plan(Job::List, None, None)),
        PlanCase(&["dexasm", "assemble"], Meaning::Plan(Job::Assemble { align: false }, None, None)),
        PlanCase(&["dexasm", "assemble", "--align"], Meaning::Plan(Job::Assemble { align: true }, None, None)),
        PlanCase(&["dexasm", "strip"], Meaning::Plan(Job::Strip, None, None)),
        PlanCase(&["dexasm", "check", "a.dex"], Meaning::Plan(Job::Check, Some("a.dex"), None)),
        PlanCase(&["dexasm", "list", "--output", "a.txt"], Meaning::Plan(Job::List, None, Some("a.txt"))),
        PlanCase(
            &["dexasm", "assemble", "a.txt", "--align", "--output=a.dex"],
            Meaning::Plan(Job::Assemble { align: true }, Some("a.txt"), Some("a.dex")),
        ),
        PlanCase(
            &["dexasm", "assemble", "--output", "a.dex", "--", "--align"],
            Meaning::Plan(Job::Assemble { align: false }, Some("--align"), Some("a.dex")),
        ),
        PlanCase(
            &["dexasm", "strip", "--output", "b.dex", "a.dex"],
            Meaning::Plan(Job::Strip, Some("a.dex"), Some("b.dex")),
        ),
        PlanCase(&["dexasm", "strip", "list", "--output="], Meaning::Plan(Job::Strip, Some("list"), Some(""))),
        PlanCase(&["dexasm", "list", "-o", "-", "-"], Meaning::Plan(Job::List, Some("-"), Some("-"))),
        // Help, and wrong words.
        PlanCase(&["dexasm", "--help"], Meaning::Status(0)),
        PlanCase(&["dexasm", "-h"], Meaning::Status(0)),
        PlanCase(&["dexasm", "check", "--help"], Meaning::Status(0)),
        PlanCase(&["dexasm", "assemble", "a.txt", "-h"], Meaning::Status(0)),
        PlanCase(&["dexasm"], Meaning::Status(2)),
        PlanCase(&[], Meaning::Status(2)),
        PlanCase(&["dexasm", "help"], Meaning::Status(2)),
        PlanCase(&["dexasm", "dump"], Meaning::Status(2)),
        PlanCase(&["dexasm", "--align", "assemble"], Meaning::Status(2)),
        PlanCase(&["dexasm", "check", "--align"], Meaning::Status(2)),
        PlanCase(&["dexasm", "list", "--align"], Meaning::Status(2)),
        PlanCase(&["dexasm", "strip", "--align"], Meaning::Status(2)),
        PlanCase(&["dexasm", "assemble", "--align=true"], Meaning::Status(2)),
        PlanCase(&["dexasm", "check", "a.dex", "b.dex"], Meaning::Status(2)),
        PlanCase(&["dexasm", "list", "--output"], Meaning::Status(2)),
    ];
    all_hold(rt.alloc(), &CASES)
}
