//! The fault of a text, and its place: its line, or the class where a rule of programs is broken.

use crate::listing_faults::Within::{Arrays, Code, InPlaceOf, Labels, Members, Text};
use bumpalo::Bump;
use dex_base::{Fault, fault};
use dex_samples::{Case, all_hold};
use listing_parse::parse;
use std::alloc::Global;
use std::test::Fail;

/// What a text is put into.
#[derive(Clone, Copy)]
enum Within {
    /// It is the listing.
    Text,
    /// It stands between two instructions of a code.
    Code,
    /// It stands among the members of a class, behind a static field.
    Members,
    /// It is the code of a method, in a listing of the second form.
    Labels,
    /// It stands in place of this line of a listing of one class with one method, or that is taken away.
    InPlaceOf(usize),
    /// It isn't put there: the value of a static field is so many arrays, each in the next.
    Arrays(u32),
}

/// What a text is put into, the text, its fault and the place of that: 0 at 0 where the listing is read.
struct Refused(Within, &'static str, u16, u64);

impl Case for Refused {
    fn name(&self) -> &'static str {
        match (self.0, self.1) {
            (InPlaceOf(1), "") => "the first line is taken away",
            (_, "") => "no text, or the last line is taken away",
            (_, text) => text,
        }
    }

    fn holds(&self, alloc: Global) -> Result<bool, Fault> {
        let mut text = Vec::new(alloc);
        put_listing(&mut text, self.0, self.1)?;
        Ok(is_refused(alloc, &text, self.2, self.3))
    }
}

fn is_refused(alloc: Global, text: &[u8], code: u16, place: u64) -> bool {
    let arena = Bump::new(alloc);
    match parse(alloc, &arena, text) {
        Ok(_) => code == 0,
        Err(fault) => fault.code == code && fault.place == place,
    }
}

fn put_listing(out: &mut Vec<u8>, within: Within, text: &str) -> Result<(), Fault> {
    match within {
        InPlaceOf(number) => put_lines(out, number, text),
        Arrays(depth) => put_arrays(out, depth),
        within => put_between(out, around(within), text),
    }
}

/// What stands before and after the text.
fn around(within: Within) -> (&'static str, &'static str) {
    match within {
        Code => (
            "dex 035\nclass LA; 0x1\ndirect m ()V 0x9\ncode 65535 0 0\n0: nop\n",
            "\n2: return-void\nend code\nend class\n",
        ),
        Members => ("dex 035\nclass LA; 0x1\nstatic a I 0x9\n", "\nend class\n"),
        Labels => (
            "dex 035 listing 2\nclass LA; 0x1\nsuper Ljava/lang/Object;\ndirect m ()V 0x9\ncode 1 0 0\n",
            "\nend code\nend class\n",
        ),
        _ => ("", ""),
    }
}

fn put_between(out: &mut Vec<u8>, around: (&str, &str), text: &str) -> Result<(), Fault> {
    out.extend_from_slice(around.0.as_bytes())?;
    out.extend_from_slice(text.as_bytes())?;
    out.extend_from_slice(around.1.as_bytes())?;
    Ok(())
}

/// A listing of one class with one method, line by line.
static LINES: [&str; 8] = [
    "dex 035",
    "class LA; 0x1",
    "super Ljava/lang/Object;",
    "direct m ()V 0x9",
    "code 1 0 0",
    "0: return-void",
    "end code",
    "end class",
];

fn put_lines(out: &mut Vec<u8>, number: usize, text: &str) -> Result<(), Fault> {
    for (i, kept) in LINES.iter().enumerate() {
        let line = if i.saturating_add(1) == number {
            text
        } else {
            *kept
        };
        put_line(out, line)?;
    }
    Ok(())
}

fn put_line(out: &mut Vec<u8>, line: &str) -> Result<(), Fault> {
    if line.is_empty() {
        return Ok(());
    }
    put_between(out, ("", "\n"), line)
}

fn put_arrays(out: &mut Vec<u8>, depth: u32) -> Result<(), Fault> {
    out.extend_from_slice(b"dex 035\nclass LA; 0x1\nstatic a [I 0x9 =")?;
    put_times(out, b" array {", depth)?;
    put_times(out, b" }", depth)?;
    out.extend_from_slice(b"\nend class\n")?;
    Ok(())
}

fn put_times(out: &mut Vec<u8>, text: &[u8], times: u32) -> Result<(), Fault> {
    for _ in 0..times {
        out.extend_from_slice(text)?;
    }
    Ok(())
}

#[rattlefmt::skip]
#[test]
fn texts_are_refused_at_their_lowest_line_and_rules_are_checked_after_all_lines(rt: HostRuntime) -> Result<(), Fail> {
    static CASES: [Refused; 74] = [
        // Texts are refused at their lowest line.
        Refused(Text, "", fault::LINE_NOT_ENDED, 0),
        Refused(Text, "\n# only a comment\n  \n", fault::LINE_NOT_ENDED, 3),
        Refused(Text, "dex 035", 0, 0),
        Refused(Text, "  dex   035  \n\n# end\n", 0, 0),
        Refused(Text, "# first\n\ndex 035\n", 0, 0),
        Refused(Text, "dex 036\n", fault::LINE_WORD, 1),
        Refused(Text, "class LA; 0x1\n", fault::LINE_ORDER, 1),
        Refused(Text, "0: nop\n", fault::LINE_ORDER, 1),
        Refused(Text, "nop\n", fault::LINE_WORD, 1),
        Refused(Text, ":a\n", fault::LINE_WORD, 1),
        Refused(Text, "dex 035\ndex 035\n", fault::LINE_ORDER, 2),
        Refused(Text, "dex 035\ndex 035 listing 2\n", fault::LINE_WORD, 2),
        Refused(Text, "dex 035\nclass LA; 0x1\n", fault::LINE_NOT_ENDED, 2),
        Refused(Text, "dex 035\nclass LA; 0x1\nend class\n", 0, 0),
        Refused(Text, "dex 035\nclass LA; 0x1\n\n", fault::LINE_NOT_ENDED, 3),
        Refused(Text, "dex 035\nclass LA 0x1\n", fault::LINE_NAME, 2),
        Refused(Text, "dex 035\nclass LA; 0x100000000\n", fault::LINE_NUMBER, 2),
        Refused(Text, "dex 035\nclass LA; 0x1\nsuper LB;\n# again\nsuper LC;\n", fault::LINE_TWICE, 5),
        Refused(Text, "dex 035\nclass LA; 0x1\nimplements LB;\nimplements LB;\n", fault::LINE_TWICE, 4),
        Refused(Text, "dex 035\nclass LA; 0x1\nsource \"a\"\nsource \"b\"\n", fault::LINE_TWICE, 4),
        Refused(Text, "dex 035\nclass LA; 0x1\ncode 0 0 0\n", fault::LINE_ORDER, 3),
        Refused(
            Text, "dex 035\nclass LA; 0x1\ndirect m ()V 0x9\n# between\ncode 0 0 0\n0: goto @1\nend code\nbad\n",
            fault::LINE_WORD, 8,
        ),
        Refused(
            Text, "dex 035\nclass LA; 0x1\ndirect m ()V 0x9\n# between\ncode 0 0 0\n0: goto @1\nend code\n",
            fault::LINE_NOT_ENDED, 7,
        ),
        Refused(
            Text,
            "dex 035\nclass LA; 0x1\ndirect m ()V 0x9\n# between\ncode 0 0 0\n0: goto @1\nend code\nend class\n",
            fault::LINE_TARGET, 6,
        ),
        // The first line tells the form.
        Refused(Text, "dex 035 listing 2", 0, 0),
        Refused(Text, "\n# first\ndex 035  listing 2\n", 0, 0),
        Refused(Text, "dex 035 listing 1\n", fault::LINE_WORD, 1),
        Refused(Text, "dex 035 listing 3\n", fault::LINE_WORD, 1),
        Refused(Text, "dex 035 listing\n", fault::LINE_WORD, 1),
        Refused(Text, "dex 036 listing 2\n", fault::LINE_WORD, 1),
        Refused(Text, "dex 035 listing 2\ndex 035 listing 2\n", fault::LINE_ORDER, 2),
        Refused(Text, "dex 035 listing 2\ndex 035\n", fault::LINE_ORDER, 2),
        Refused(
            Text, "dex 035 listing 2\nclass LA; 0x1\nsuper Ljava/lang/Object;\ndirect m ()V 0x9\n:a\ncode 1 0 0\n",
            fault::LINE_ORDER, 5,
        ),
        Refused(Text, "dex 035 listing 2\n:a\n", fault::LINE_ORDER, 2),
        Refused(Text, "dex 035 listing 2\n:@\n", fault::LINE_ORDER, 2),
        Refused(Text, "dex 035 listing 2\nclass LA; 0x1\ndirect m ()V 0x9\ncode 1 0 0\n:a\n", fault::LINE_NOT_ENDED, 5),
        // Rules are asked after all lines.
        Refused(Text, "dex 035\nclass I 0x1\nend class\n", fault::PROGRAM_NAME, 0),
        Refused(Text, "dex 035\nclass LA; 0x1\nend class\nclass [LB; 0x1\nend class\n", fault::PROGRAM_NAME, 1),
        Refused(Text, "dex 035\nclass LA; 0x1\nsuper [LB;\nend class\n", fault::PROGRAM_NAME, 0),
        Refused(Text, "dex 035\nclass LA; 0x1\ndirect m (V)V 0x1\nend class\n", fault::PROGRAM_NAME, 0),
        Refused(Text, "dex 035\nclass LA; 0x1\nstatic f I 0x9 = field I->g:I\nend class\n", fault::PROGRAM_NAME, 0),
        Refused(Text, "dex 035\nclass LA; 0x1\nend class\nclass LA; 0x1\nend class\n", fault::PROGRAM_CLASS_ORDER, 1),
        Refused(Text, "dex 035\nclass LA; 0x1\nsuper LA;\nend class\n", fault::PROGRAM_CLASS_ORDER, 0),
        Refused(
            Text, "dex 035\nclass LA; 0x1\nsuper LB;\nend class\nclass LB; 0x1\nend class\n",
            fault::PROGRAM_CLASS_ORDER, 0,
        ),
        Refused(Text, "dex 035\nclass LB; 0x1\nend class\nclass LA; 0x1\nsuper LB;\nend class\n", 0, 0),
        Refused(
            Text, "dex 035\nclass LA; 0x1\ndirect m ()V 0x1\ncode 0 0 0\nend code\nend class\n",
            fault::PROGRAM_OPERAND, 0,
        ),
        Refused(
            Text,
            "dex 035\nclass LA; 0x1\ndirect m ()V 0x1\ncode 1 0 0\n0: sparse-switch v0 @2\n1: return-void\n2: sparse-switch-payload 1 @1 1 @1\nend code\nend class\n",
            fault::PROGRAM_OPERAND, 0,
        ),
        Refused(
            Text,
            "dex 035\nclass LA; 0x1\ndirect m ()V 0x1\ncode 1 0 0\n0: packed-switch v0 @2\n1: return-void\n2: packed-switch-payload 1 @2\nend code\nend class\n",
            fault::PROGRAM_TARGET, 0,
        ),
        Refused(
            Text,
            "dex 035\nclass LA; 0x1\ndirect m ()V 0x1\ncode 1 0 0\n0: packed-switch v0 @1\n1: return-void\nend code\nend class\n",
            fault::PROGRAM_PAYLOAD_USE, 0,
        ),
        Refused(
            Text,
            "dex 035\nclass LA; 0x1\ndirect m ()V 0x1\ncode 1 0 0\n0: return-void\ntry @0 @0\ncatchall @0\nend code\nend class\n",
            fault::PROGRAM_TRY, 0,
        ),
        Refused(
            Text,
            "dex 035\nclass LA; 0x1\ndirect m ()V 0x1\ncode 1 0 0\n0: return-void\ntry @0 @1\nend code\nend class\n",
            fault::PROGRAM_TRY, 0,
        ),
        Refused(
            Text,
            "dex 035\nclass LA; 0x1\ndirect m ()V 0x1\ncode 1 0 0\n0: nop\n1: return-void\ntry @0 @2\ncatchall @0\ntry @1 @2\ncatchall @0\nend code\nend class\n",
            fault::PROGRAM_TRY, 0,
        ),
        Refused(
            Text,
            "dex 035\nclass LA; 0x1\nsuper Ljava/lang/Object;\ndirect m ()V 0x9\ncode 1 0 0\n0: return v1\nend code\nend class\n",
            fault::PROGRAM_REGISTER, 0,
        ),
        Refused(
            Text, "dex 035\nclass LA; 0x1\ndirect m ()V 0x9\ncode 1 2 0\n0: return-void\nend code\nend class\n",
            fault::PROGRAM_REGISTER, 0,
        ),
        Refused(
            Text,
            "dex 035\nclass LA; 0x1\ndirect m ()V 0x1\ncode 1 0 0\n0: goto @0\nend code\nend class\nclass LB; 0x1\nend class\nclass LB; 0x1\nend class\n",
            fault::PROGRAM_TARGET, 0,
        ),
        Refused(Text, "dex 035\nclass I 0x1\nend class\nbad\n", fault::LINE_WORD, 4),
        Refused(Text, "dex 035\nclass I 0x1\n", fault::LINE_NOT_ENDED, 2),
        // A listing with one line changed.
        Refused(InPlaceOf(6), "0: return-void", 0, 0),
        Refused(InPlaceOf(6), "1: return-void", fault::LINE_ORDER, 6),
        Refused(InPlaceOf(6), "0: return-void v0", fault::LINE_WORD, 6),
        Refused(InPlaceOf(6), "0: goto @1", fault::LINE_TARGET, 6),
        Refused(InPlaceOf(6), "0: goto @0", fault::PROGRAM_TARGET, 0),
        Refused(InPlaceOf(6), "0: goto @4294967296", fault::LINE_NUMBER, 6),
        Refused(InPlaceOf(4), "direct m ()Q 0x9", fault::LINE_NAME, 4),
        Refused(InPlaceOf(4), "direct m (V)V 0x9", fault::PROGRAM_NAME, 0),
        Refused(InPlaceOf(5), "code 65536 0 0", fault::LINE_NUMBER, 5),
        Refused(InPlaceOf(3), "super Ljava/lang/Object;\nsuper Ljava/lang/Object;", fault::LINE_TWICE, 4),
        Refused(InPlaceOf(8), "", fault::LINE_NOT_ENDED, 7),
        Refused(InPlaceOf(1), "", fault::LINE_ORDER, 1),
        // Two faults in one line, and in one class.
        Refused(InPlaceOf(6), "super Q", fault::LINE_ORDER, 6),
        Refused(InPlaceOf(4), "direct m ()Q 4294967296", fault::LINE_NAME, 4),
        Refused(InPlaceOf(6), "0: const-class v256 Q", fault::LINE_NUMBER, 6),
        Refused(InPlaceOf(4), "static a I 0x9\nstatic a I 4294967296", fault::LINE_NUMBER, 5),
        Refused(InPlaceOf(3), "super LA;\ndirect n (V)V 0x9", fault::PROGRAM_NAME, 0),
    ];
    all_hold(rt.alloc(), &CASES)
}

#[rattlefmt::skip]
#[test]
fn lines_of_code_are_refused(rt: HostRuntime) -> Result<(), Fail> {
    static CASES: [Refused; 88] = [
        // One line among three instructions, which is line 6 of the text.
        Refused(Code, "1: nop", 0, 0),
        Refused(Code, "0x1: nop", 0, 0),
        Refused(Code, "01: nop", 0, 0),
        Refused(Code, "2: nop", fault::LINE_ORDER, 6),
        Refused(Code, "99999999999999999999999999: nop", fault::LINE_ORDER, 6),
        Refused(Code, "x: nop", fault::LINE_WORD, 6),
        Refused(Code, "-1: nop", fault::LINE_WORD, 6),
        Refused(Code, "1a: nop", fault::LINE_WORD, 6),
        Refused(Code, "@0", fault::LINE_WORD, 6),
        Refused(Code, "1: no-such", fault::LINE_WORD, 6),
        Refused(Code, "1: nop v0", fault::LINE_WORD, 6),
        Refused(Code, "1: move v0 v1", 0, 0),
        Refused(Code, "1: move v0xf V1", fault::LINE_NUMBER, 6),
        Refused(Code, "1: move v15 v16", fault::LINE_NUMBER, 6),
        Refused(Code, "1: move v0", fault::LINE_WORD, 6),
        Refused(Code, "1: move v0 v1 v2", fault::LINE_WORD, 6),
        Refused(Code, "1: const/4 v0 -8", 0, 0),
        Refused(Code, "1: const/4 v0 -9", fault::LINE_NUMBER, 6),
        Refused(Code, "1: const/4 v0 8", fault::LINE_NUMBER, 6),
        Refused(Code, "1: const/4 v0 -0x8", 0, 0),
        Refused(Code, "1: const/16 v255 -32768", 0, 0),
        Refused(Code, "1: const/16 v256 0", fault::LINE_NUMBER, 6),
        Refused(Code, "1: goto @1", fault::PROGRAM_TARGET, 0),
        Refused(Code, "1: goto @0", 0, 0),
        Refused(Code, "1: goto/32 @1", 0, 0),
        Refused(Code, "1: goto @3", fault::LINE_TARGET, 6),
        Refused(Code, "1: goto 1", fault::LINE_NUMBER, 6),
        Refused(Code, "1: goto \"a\"", fault::LINE_WORD, 6),
        Refused(Code, "1: goto @4294967295", fault::LINE_TARGET, 6),
        Refused(Code, "1: goto @4294967296", fault::LINE_NUMBER, 6),
        Refused(Code, "1: const-string v0 \"a # b\"", 0, 0),
        Refused(Code, "1: const-string v0 \"a\\x\"", fault::LINE_WORD, 6),
        Refused(Code, "1: const-string v0 \"a\"b", fault::LINE_WORD, 6),
        Refused(Code, "1: const-string v0 \"a", fault::LINE_WORD, 6),
        Refused(Code, "1: const-string v0 a", fault::LINE_WORD, 6),
        Refused(Code, "1: new-instance v0 LB;", 0, 0),
        Refused(Code, "1: new-instance v0 \"LB;\"", fault::LINE_WORD, 6),
        Refused(Code, "1: new-instance v0 LB", fault::LINE_NAME, 6),
        Refused(Code, "1: iget v0 v1 LB;->f:I", 0, 0),
        Refused(Code, "1: iget v0 v1 LB;.f:I", fault::LINE_NAME, 6),
        Refused(Code, "1: iget v0 v1 LB;->\\u0066:I", 0, 0),
        Refused(Code, "1: invoke-static { } LB;->f()V", 0, 0),
        Refused(Code, "1: invoke-static { v0 v1 v2 v3 v4 } LB;->f(IJ[[LC;)V", 0, 0),
        Refused(Code, "1: invoke-static { v0 v1 v2 v3 v4 v5 } LB;->f()V", fault::LINE_WORD, 6),
        Refused(Code, "1: invoke-static { { } LB;->f()V", fault::LINE_NUMBER, 6),
        Refused(Code, "1: invoke-static { } } LB;->f()V", fault::LINE_WORD, 6),
        Refused(Code, "1: invoke-static/range v0 255 LB;->f()V", 0, 0),
        Refused(Code, "1: packed-switch-payload -1 @0 @2", fault::PROGRAM_PAYLOAD_USE, 0),
        Refused(Code, "1: packed-switch-payload -1 @0 @3", fault::LINE_TARGET, 6),
        Refused(Code, "1: sparse-switch-payload 1 @0 2", fault::LINE_WORD, 6),
        Refused(Code, "1: array-payload 2 00ff", 0, 0),
        Refused(Code, "1: array-payload 3 00ffff", fault::PROGRAM_OPERAND, 0),
        Refused(Code, "1: array-payload 2 00ffff", fault::PROGRAM_OPERAND, 0),
        Refused(Code, "1: goto/16 @1", fault::PROGRAM_TARGET, 0),
        Refused(Code, "1: array-payload 2 00f", fault::LINE_NUMBER, 6),
        Refused(Code, "1: array-payload 2", 0, 0),
        Refused(Code, "catch LE; @0", fault::LINE_ORDER, 6),
        // Lines of the second form, in place of the one instruction, which is line 6.
        Refused(Labels, "return-void", 0, 0),
        Refused(Labels, "goto :x", fault::LINE_TARGET, 6),
        Refused(Labels, "goto @0", fault::LINE_NAME, 6),
        Refused(Labels, "0: return-void", fault::LINE_WORD, 6),
        Refused(Labels, ":a b", fault::LINE_WORD, 6),
        Refused(Labels, ":a\n:a\nreturn-void", fault::LINE_TWICE, 7),
        Refused(Labels, ":a\nreturn-void\n:a", fault::LINE_TWICE, 8),
        Refused(Labels, "return-void\n:a", 0, 0),
        Refused(Labels, ":a\nreturn-void", 0, 0),
        Refused(Labels, ":\nreturn-void", fault::LINE_NAME, 6),
        Refused(Labels, ":a-b\nreturn-void", fault::LINE_NAME, 6),
        Refused(Labels, ":abcdefghijklmnopqrstuvwxyz0123456\nreturn-void", fault::LINE_NAME, 6),
        Refused(Labels, "@0\nreturn-void", fault::LINE_WORD, 6),
        Refused(Labels, "goto :a-b\n:a", fault::LINE_NAME, 6),
        Refused(Labels, "goto \"a\"", fault::LINE_WORD, 6),
        Refused(Labels, "goto v0", fault::LINE_NAME, 6),
        Refused(Labels, "goto 1\n:a", fault::LINE_NAME, 6),
        Refused(Labels, "return-void\ngoto :a\n:a", fault::LINE_TARGET, 7),
        Refused(Labels, "return-void\nreturn-void :a\n:a", fault::LINE_WORD, 7),
        Refused(Labels, "return-void\ntry :a :a\n:a", fault::LINE_ORDER, 8),
        Refused(Labels, "return-void\n:a\ntry :a :a\ncatchall :a", fault::LINE_TARGET, 8),
        Refused(Labels, ":s\nreturn-void\n:a\ntry :s :a\ncatchall :a", fault::LINE_TARGET, 10),
        Refused(Labels, ":s\nreturn-void\n:a\ntry :s :a\ncatchall :s", 0, 0),
        Refused(Labels, ":s\nreturn-void\ntry :s :b\ncatchall :s", fault::LINE_TARGET, 8),
        Refused(Labels, ":s\nreturn-void\ntry :s :@1\ncatchall :s", fault::LINE_NAME, 8),
        Refused(Labels, "goto :a\nconst/4 v16 0\n:a\nreturn-void", fault::LINE_NUMBER, 7),
        Refused(Labels, "goto :a\nend code\ndirect n ()V 0x9\ncode 1 0 0\n:a\nreturn-void", fault::LINE_TARGET, 6),
        Refused(Labels, "try :a :a", fault::LINE_TARGET, 6),
        Refused(Labels, "nop\ndex 035", fault::LINE_ORDER, 7),
        Refused(Labels, "nop\ndex 035 listing 2", fault::LINE_ORDER, 7),
        Refused(Labels, "goto/32 :a\n  # :a\n:a\nreturn-void", 0, 0),
    ];
    all_hold(rt.alloc(), &CASES)
}

#[rattlefmt::skip]
#[test]
fn members_are_refused_and_values_are_nested_64_deep(rt: HostRuntime) -> Result<(), Fail> {
    static CASES: [Refused; 34] = [
        // One line among members, which is line 4; a static field is given before.
        Refused(Members, "static a J 0x9", 0, 0),
        Refused(Members, "static a I 0x1", fault::LINE_TWICE, 4),
        Refused(Members, "instance a I 0x1", 0, 0),
        Refused(Members, "static b I 9 = int 5", 0, 0),
        Refused(Members, "static b I 0x9 =", fault::LINE_WORD, 4),
        Refused(Members, "static b I 0x9 = 5", fault::LINE_WORD, 4),
        Refused(Members, "static b I 0x9 = int", fault::LINE_WORD, 4),
        Refused(Members, "static b I 0x9 = int }", fault::LINE_NUMBER, 4),
        Refused(Members, "static b I 0x9 = int 2147483648", fault::LINE_NUMBER, 4),
        Refused(Members, "static b I 0x9 = byte -128", 0, 0),
        Refused(Members, "static b I 0x9 = byte 128", fault::LINE_NUMBER, 4),
        Refused(Members, "static b I 0x9 = char 65535", 0, 0),
        Refused(Members, "static b I 0x9 = char -0", fault::LINE_NUMBER, 4),
        Refused(Members, "static b I 0x9 = short -0", 0, 0),
        Refused(Members, "static b I 0x9 = long -9223372036854775808", 0, 0),
        Refused(Members, "static b I 0x9 = float 3F800000", 0, 0),
        Refused(Members, "static b I 0x9 = float 3f80000", fault::LINE_NUMBER, 4),
        Refused(Members, "static b I 0x9 = double 3ff0000000000000", 0, 0),
        Refused(Members, "static b I 0x9 = string \"\"", 0, 0),
        Refused(Members, "static b I 0x9 = enum LA;->a:I", 0, 0),
        Refused(Members, "static b I 0x9 = array { }", 0, 0),
        Refused(Members, "static b I 0x9 = array { null true array { false } }", 0, 0),
        Refused(Members, "static b I 0x9 = array { int }", fault::LINE_WORD, 4),
        Refused(Members, "static b I 0x9 = array { int 1", fault::LINE_WORD, 4),
        Refused(Members, "static b I 0x9 = null null", fault::LINE_WORD, 4),
        Refused(Members, "static b V 0x9", fault::PROGRAM_NAME, 0),
        Refused(Members, "static <init> I 0x9", 0, 0),
        Refused(Members, "static <> I 0x9", fault::LINE_NAME, 4),
        Refused(Members, "direct m ()V 0x9", 0, 0),
        Refused(Members, "direct m ()V", fault::LINE_WORD, 4),
        Refused(Members, "direct m (V 0x9", fault::LINE_NAME, 4),
        Refused(Members, "super LB;", fault::LINE_ORDER, 4),
        // Values, each in the next.
        Refused(Arrays(64), "64 arrays", 0, 0),
        Refused(Arrays(65), "65 arrays", fault::PROGRAM_VALUES, 0),
    ];
    all_hold(rt.alloc(), &CASES)
}
