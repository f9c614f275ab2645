//! The functions of crates/example: `example` runs them on the file on standard input, and `all` on the file of the listing below.

use crate::calls::output_of;
use dex_base::Fault;
use dexasm_world::Job;
use std::alloc::Global;
use std::io;

static LISTING: &[u8] = b"dex 035 listing 2
class LHello; 0x1
super Ljava/lang/Object;
direct get (Z)I 0x9
code 2 1 0
const/16 v0 41
if-eqz v1 :L3
add-int/lit8 v0 v0 -1
:L3
return v0
end code
end class
";

/// The first byte behind the header in which two files differ.
fn first_change(one: &[u8], other: &[u8]) -> usize {
    for at in 112..one.len().min(other.len()) {
        if one[at] != other[at] {
            return at;
        }
    }
    0
}

/// What `shown` returns, the length of what `rewritten` returns, and where what `patched` returns differs from that.
fn report(alloc: Global, file: &[u8]) -> Result<String, Fault> {
    let mut text = example::shown(alloc, file)?;
    let rewritten = example::rewritten(alloc, file)?;
    let patched = example::patched(alloc, file)?;
    let at = first_change(&rewritten, &patched);
    writeln!(
        text,
        "rewritten: {} bytes, patched at {at}",
        rewritten.len()
    )?;
    Ok(text)
}

fn put(rt: &impl Print, report: Result<String, Fault>) -> io::Result<()> {
    match report {
        Ok(text) => print!(rt; "{text}"),
        Err(fault) => println!(rt; "refused {} at {}", fault.code, fault.place),
    }
}

/// Runs them on a file.
pub fn run(rt: &(impl Print + Alloc<A = Global>), file: &[u8]) -> io::Result<()> {
    put(rt, report(rt.alloc(), file))
}

fn report_assembled(alloc: Global) -> Result<String, Fault> {
    let file = output_of(alloc, Job::Assemble { align: false }, LISTING)?;
    report(alloc, &file)
}

/// Runs them on the file of a listing.
pub fn run_assembled(rt: &(impl Print + Alloc<A = Global>)) -> io::Result<()> {
    put(rt, report_assembled(rt.alloc()))
}
