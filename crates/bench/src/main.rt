//! The work that `bench/*/run` time beside plain Rust: `bench NAME WORD ..`, where NAME is `codecs`, `insns`, `needed`,
//! `tables`, `code` or `listing`, and the words are those of the file of that name; `bench puts` and `bench calls`, whose requests for
//! memory tools/try memory refuses; and `bench example`, which runs crates/example. `bench all` does each but `calls` once, on little;
//! `tables`, `code`, `calls` and `example` read the file on standard input.
//!
//! docs/MAP.md has this crate's place among the others.
#![tactic(auto)]

mod calls;
mod code;
mod codecs;
mod examples;
mod insns;
mod listing;
mod needed;
mod puts;
mod tables;
mod words;

use std::alloc::Global;
use std::io::Read;
use std::{env, io};

fn main(rt: HostRuntime) -> io::Result<()> {
    let given: Vec<String> = env::args(&rt)?.collect(rt.alloc())?;
    let mut words = Vec::new(rt.alloc());
    for word in given.iter().skip(2) {
        words.push(word.as_str())?;
    }
    let name = match given.get(1) {
        Some(name) => name.as_str(),
        None => "",
    };
    let mut bytes = Vec::new(rt.alloc());
    if matches!(name, "all" | "tables" | "code" | "calls" | "example") {
        rt.stdin().read_to_end(&mut bytes)?;
    }
    run(&rt, name, &words, &bytes)
}

/// Does what is named with these words, on these bytes.
fn run(
    rt: &(impl Print + Alloc<A = Global>),
    name: &str,
    words: &[&str],
    bytes: &[u8],
) -> io::Result<()> {
    match name {
        "codecs" => codecs::run(rt, words),
        "insns" => insns::run(rt, words),
        "needed" => needed::run(rt, words),
        "puts" => puts::run(rt),
        "calls" => calls::run(rt, words, bytes),
        "tables" => tables::run(rt, words, bytes),
        "code" => code::run(rt, words, bytes),
        "listing" => listing::run(rt, words),
        "example" => examples::run(rt, bytes),
        "all" => run_all(rt, bytes),
        _ => println!(rt;
            "bench codecs|insns|needed|puts|calls|tables|code|listing|example|all WORD .."
        ),
    }
}

/// Does each once, on little.
fn run_all(rt: &(impl Print + Alloc<A = Global>), bytes: &[u8]) -> io::Result<()> {
    codecs::run(rt, &["all", "2"])?;
    insns::run(rt, &["1", "2"])?;
    needed::run(rt, &["method", "200", "mentions"])?;
    puts::run(rt)?;
    tables::run(rt, &["1"], bytes)?;
    code::run(rt, &["1"], bytes)?;
    listing::run(rt, &["all", "1"])?;
    examples::run_assembled(rt)
}
