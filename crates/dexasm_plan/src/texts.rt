//! The texts of the help. tools/generate makes the manual page docs/man/dexasm.1 from them, too.

/// The version of the tool, its crates and its manual pages; CHANGELOG.md has a section for it.
pub(crate) const VERSION: &str = "0.7.0-dev";

/// The first line of the help, which `--version` prints.
pub(crate) const HEAD: &str = "dexasm 0.7.0-dev";

/// The tool: what it does.
pub(crate) const TOOL: &str =
    "Checks, lists, assembles and strips .dex files (Dalvik Executable, version 035)";

/// More on it.
pub(crate) const TOOL_MORE: &str = "\
A .dex file holds the classes of an Android program. Only version 035 is read and written.
Without FILE, or if FILE is -, it reads standard input; without --output, or if OUT is -,
it writes to standard output. A .dex file is not written to a terminal.

Exit status: 0 success, 1 the file or the listing is refused, 2 usage error,
3 reading or writing failed, 4 out of memory.

Example: dexasm check classes.dex";

/// The subcommand check: what it does.
pub(crate) const CHECK: &str = "Checks whether a .dex file keeps every rule of its format";

/// More on it.
pub(crate) const CHECK_MORE: &str = "\
Reads the whole file: header, map and checksums, the tables of names, classes, static values
and code. Prints ok, or the violated rule and its byte offset.
Annotations and debug information are ignored. The format is Dalvik Executable, version 035.

Example: dexasm check classes.dex";

/// The subcommand list: what it does.
pub(crate) const LIST: &str = "Disassembles: prints the program of a .dex file as a listing";

/// More on it.
pub(crate) const LIST_MORE: &str = "\
A listing is plain text: a line for each class, member and instruction, and labels at branch
targets (its first line is 'dex 035 listing 2'). You can edit it, and turn it back into a file
with 'dexasm assemble'. Annotations and debug information are not listed. A file that violates
a rule of its format (Dalvik Executable, version 035) is refused.

Example: dexasm list classes.dex --output classes.txt";

/// The subcommand assemble: what it does.
pub(crate) const ASSEMBLE: &str = "Assembles: turns a listing into a .dex file";

/// More on it.
pub(crate) const ASSEMBLE_MORE: &str = "\
Writes the listed program, and nothing else, as a .dex file (Dalvik Executable, version 035).
Payloads (the tables of switches and the data of arrays) must have even addresses; otherwise
the listing is refused or, with --align, a nop is put before each.

Example: dexasm assemble classes.txt --output classes.dex";

/// The subcommand strip: what it does.
pub(crate) const STRIP: &str =
    "Rewrites a .dex file without the parts that its program does not need";

/// More on it.
pub(crate) const STRIP_MORE: &str = "\
Keeps classes, members, static values and code. Drops annotations (programs that read them at
run time will miss them), debug information with line numbers, and unneeded names. The format
is Dalvik Executable, version 035.

Example: dexasm strip classes.dex --output small.dex";

/// FILE.
pub(crate) const FILE: &str = "Read FILE instead of standard input (use ./- for a file named -)";

/// -o, --output OUT.
pub(crate) const OUTPUT: &str =
    "Write to OUT instead of standard output; OUT is replaced only when the output is complete";

/// --align.
pub(crate) const ALIGN: &str = "Put a nop before each payload at an odd address";
