//! From a program to its file, and from a file to one without slack.
//! Page: "Dalvik Executable format", "File layout".
ghost use Rattle.std.specs.Prelude.{◌≡◌, ◌≢◌, ◌≤◌, ℕ, List, IfOk, IfErr, IsOkUnless, OnOk};
ghost use Rattle.dex_base.specs.Fault.{memory};
ghost use Rattle.dex_base.specs.Fields.{AreBytes};
ghost use Rattle.file_read.specs.Means.{Means};
ghost use Rattle.file_limits.specs.Limits.{Fits, IsLowestLimit};
ghost use Rattle.program_types.specs.View as view;
ghost use Rattle.program_rules.specs.WellFormed.{WellFormed};
ghost use Rattle.file_write.specs.Written.{IsFileOf, IsStripped, IsStripRefused};

use dex_base::{Fault, Seed, are_bytes};
use dex_container::open;
use file_put::assemble;
use file_read::check_framed;
use file_strip::strip_framed;
use program_types::Program;
use std::alloc::Global;

/// The file of a well-formed program (Dalvik Executable format, version 035). It means the program, has no slack, and its tables hold
/// exactly the names that the program needs.
///
/// Programs that exceed a limit of the format are refused, with the lowest-numbered fault, at its place: for 80 and 81 how many are
/// needed, for 82 to 89 the class's number, for 90 it is 0. No file at all means a program that is refused with 80 to 88. 255 is out of
/// memory.
///
/// ```
/// use bumpalo::Bump;
/// use dex_file::{read, write};
/// use dex_listing::parse;
///
/// let arena = Bump::new(alloc);
/// let listed = parse(alloc, &arena, b"dex 035 listing 2\nclass LA; 0x1\nend class\n")?;
/// let file = write(alloc, &listed)?; // what `parse` returns is well formed
/// assert_eq!(rt; read(alloc, &arena, &file)?.classes.len(), 1);
/// ```
pub fn write(alloc: Global, program: &Program<'_>) -> Result<Vec<u8>, Fault>
    requires formed { WellFormed (view.program program.now) }
    ensures file { IfOk result (λ file. IsFileOf (view.program program.now) file.items) }
    ensures fits { OnOk result (Fits (view.program program.now)) }
    ensures only { Fits (view.program program.now) → IsOkUnless result memory }
    ensures refused { IfErr result (λ e. e ≢ memory → IsLowestLimit (view.program program.now) e) }
    ensures vain { IfErr result (λ e. e.code ≤ 88 → (b : List ℕ) → AreBytes b → ¬ Means b (view.program program.now)) }
{
    write_seeded(alloc, Seed::fixed(), program)
}

/// Returns the file of a well-formed program, as `write` does. Hashes begin with this seed, on which no result depends: a random one for
/// untrusted programs, whose names could be chosen to collide with a known seed.
///
/// ```
/// use dex_base::Seed;
/// use dex_file::write_seeded;
/// use dex_program::Program;
///
/// let file = write_seeded(alloc, Seed::new(0x5eed), &Program { classes: &[] })?;
/// assert_eq!(rt; file.len(), 140);
/// ```
pub fn write_seeded(alloc: Global, seed: Seed, program: &Program<'_>) -> Result<Vec<u8>, Fault>
    requires formed { WellFormed (view.program program.now) }
    ensures file { IfOk result (λ file. IsFileOf (view.program program.now) file.items) }
    ensures fits { OnOk result (Fits (view.program program.now)) }
    ensures only { Fits (view.program program.now) → IsOkUnless result memory }
    ensures refused { IfErr result (λ e. e ≢ memory → IsLowestLimit (view.program program.now) e) }
    ensures vain { IfErr result (λ e. e.code ≤ 88 → (b : List ℕ) → AreBytes b → ¬ Means b (view.program program.now)) }
{
    Ok(assemble(alloc, seed, program)?)
}

/// The file of what a file means: without names that nothing needs, debugging information, annotations and slack.
///
/// It goes by the rows of the file that came in: no name is read, and no program held. Its five tables of names are no longer than
/// those of that file. Refused are bytes that `read` refuses, and programs whose handlers are too far in the order of first
/// use (89) or that are too big (90), as `write` refuses them.
///
/// ```
/// use dex_file::{strip, write};
/// use dex_program::Program;
///
/// let file = write(alloc, &Program { classes: &[] })?;
/// assert!(rt; strip(alloc, &file)?.as_slice() == file.as_slice()); // it has nothing to spare
/// ```
pub fn strip(alloc: Global, bytes: &[u8]) -> Result<Vec<u8>, Fault>
    ensures ok { IfOk result (λ file. IsStripped bytes.now file.items) }
    ensures only { (p : _) → Means bytes.now p → Fits p → IfErr result (λ e. e ≡ memory) }
    ensures refused { IfErr result (λ e. e ≢ memory → IsStripRefused bytes.now e) }
{
    strip_seeded(alloc, Seed::fixed(), bytes)
}

/// Returns the file of the program that a file means, as `strip` does. Hashes begin with this seed, on which no result depends: a random
/// one for untrusted files, whose items could be chosen to collide with a known seed.
///
/// ```
/// use dex_base::Seed;
/// use dex_file::{strip_seeded, write};
/// use dex_program::Program;
///
/// let file = write(alloc, &Program { classes: &[] })?;
/// assert!(rt; strip_seeded(alloc, Seed::new(0x5eed), &file)?.as_slice() == file.as_slice());
/// ```
pub fn strip_seeded(alloc: Global, seed: Seed, bytes: &[u8]) -> Result<Vec<u8>, Fault>
    ensures ok { IfOk result (λ file. IsStripped bytes.now file.items) }
    ensures only { (p : _) → Means bytes.now p → Fits p → IfErr result (λ e. e ≡ memory) }
    ensures refused { IfErr result (λ e. e ≢ memory → IsStripRefused bytes.now e) }
{
    are_bytes(bytes);
    let sections = open(bytes)?;
    check_framed(alloc, &sections)?;
    Ok(strip_framed(alloc, seed, &sections)?)
}
