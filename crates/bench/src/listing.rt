//! Reads or prints a generated listing, and prints the sum of what it gave: `listing WORK ROUNDS CLASSES`, where WORK is
//! `parse`, `print` or `all`, and CLASSES how many classes the listing has. bench/listing/run times it beside
//! bench/listing/plain.rs, and tools/try memory refuses its requests for memory.

use crate::words::{number, word};
use bumpalo::Bump;
use dex_base::Fault;
use listing_parse::parse;
use listing_print::print_1;
use program_types::Program;
use std::alloc::{AllocError, Global};
use std::io;

/// The default number of classes of the listing.
const CLASSES: u32 = 2000;

/// A class: fields with values, a method with a loop and a call, and one with a sum.
fn put_class(alloc: Global, text: &mut Vec<u8>, i: u32) -> Result<(), AllocError> {
    let class = format!(in alloc;
        "class Lp/C{i}; 0x1\nsuper Ljava/lang/Object;\nsource \"C{i}.java\"\nstatic a I 0x9 = int {i}\nstatic b Ljava/lang/String; 0x9 = string \"text {i}\"\ninstance c [J 0x2\n"
    )?;
    text.extend_from_slice(class.as_bytes())?;
    let front = format!(in alloc;
        "direct m (I)V 0x9\ncode 4 1 2\n0: const/16 v0 100\n1: add-int v1 v0 v3\n2: if-eqz v1 @5\n3: const-string v2 \"a text of number {i}\"\n"
    )?;
    text.extend_from_slice(front.as_bytes())?;
    text.extend_from_slice(
        b"4: invoke-static { v1 v2 } Lp/Called;->n(ILjava/lang/String;)V\n5: add-int/lit8 v1 v1 -1\n6: if-nez v1 @3\n7: return-void\nend code\n",
    )?;
    text.extend_from_slice(
        b"virtual v (J)I 0x1\ncode 4 3 0\n0: move-wide v0 v2\n1: long-to-int v0 v0\n2: return v0\nend code\nend class\n",
    )
}

/// The whole listing.
fn listing(alloc: Global, classes: u32) -> Result<Vec<u8>, AllocError> {
    let mut text = Vec::from_slice(alloc, b"dex 035\n")?;
    for i in 0..classes {
        put_class(alloc, &mut text, i)?;
    }
    Ok(text)
}

/// How many members and instructions a program has.
pub fn size_of(whole: &Program<'_>) -> u64 {
    let mut sum: u64 = 0;
    for class in whole.classes {
        sum = sum
            .wrapping_add(class.statics.len() as u64)
            .wrapping_add(class.instances.len() as u64);
        for method in class.directs {
            if let Some(code) = method.code {
                sum = sum.wrapping_add(code.insns.len() as u64);
            }
        }
        for method in class.virtuals {
            if let Some(code) = method.code {
                sum = sum.wrapping_add(code.insns.len() as u64);
            }
        }
    }
    sum
}

/// Reads the text so many times.
fn parsed(alloc: Global, text: &[u8], rounds: u32) -> Result<u64, Fault> {
    let mut sum: u64 = 0;
    for _ in 0..rounds {
        let arena = Bump::new(alloc);
        let whole = parse(alloc, &arena, text)?;
        sum = sum.wrapping_add(size_of(&whole));
    }
    Ok(sum)
}

/// Prints the program of the text so many times.
fn printed(alloc: Global, text: &[u8], rounds: u32) -> Result<u64, Fault> {
    let arena = Bump::new(alloc);
    let whole = parse(alloc, &arena, text)?;
    let mut sum: u64 = 0;
    for _ in 0..rounds {
        sum = sum.wrapping_add(print_1(alloc, &whole)?.len() as u64);
    }
    Ok(sum)
}

/// Prints what a work gave.
fn show(rt: &impl Print, work: &str, sum: Result<u64, Fault>) -> io::Result<()> {
    match sum {
        Ok(sum) => println!(rt; "{work} {sum}"),
        Err(fault) => println!(rt; "refused {} at {}", fault.code, fault.place),
    }
}

/// Runs the command of these words.
pub fn run(rt: &(impl Print + Alloc<A = Global>), words: &[&str]) -> io::Result<()> {
    let (work, rounds) = (word(words, 0), number(words, 1));
    let classes = if words.len() > 2 {
        number(words, 2)
    } else {
        CLASSES
    };
    let Ok(text) = listing(rt.alloc(), classes) else {
        return println!(rt; "no memory");
    };
    let all = work == "all";
    if all || work == "parse" {
        show(rt, "parse", parsed(rt.alloc(), text.as_slice(), rounds))?;
    }
    if all || work == "print" {
        show(rt, "print", printed(rt.alloc(), text.as_slice(), rounds))?;
    }
    Ok(())
}
