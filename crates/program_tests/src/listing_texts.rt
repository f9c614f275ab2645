//! Texts that are read and printed again, in either form.

use bumpalo::Bump;
use dex_base::Fault;
use dex_samples::types::{A, INT};
use dex_samples::{Case, all_hold, is_so};
use listing_parse::parse;
use listing_print::{print, print_1};
use program_types::{Class, Member, Program, Str, Value};
use std::alloc::Global;
use std::test::Fail;

/// In which form a program is printed.
#[derive(Clone, Copy)]
enum Form {
    First,
    Second,
}

/// What is printed of a text's program.
#[derive(Clone, Copy)]
enum Want {
    Itself,
    Text(&'static str),
    /// This text, of whose program the text is printed in the first form.
    BothWays(&'static str),
}

/// The form in which the program of a text is printed, the text, and what is printed.
struct Printed(Form, &'static str, Want);

impl Case for Printed {
    fn name(&self) -> &'static str {
        match self.2 {
            Want::BothWays(text) => text,
            _ => self.1,
        }
    }

    fn holds(&self, alloc: Global) -> Result<bool, Fault> {
        match self.2 {
            Want::Itself => is_printed(alloc, self.0, self.1, self.1),
            Want::Text(text) => is_printed(alloc, self.0, self.1, text),
            Want::BothWays(text) => Ok(
                is_printed(alloc, self.0, self.1, text)?
                    && is_printed(alloc, Form::First, text, self.1)?,
            ),
        }
    }
}

fn is_printed(alloc: Global, form: Form, text: &str, want: &str) -> Result<bool, Fault> {
    let printed = bytes_printed(alloc, form, text)?;
    Ok(printed.as_slice() == want.as_bytes())
}

fn bytes_printed(alloc: Global, form: Form, text: &str) -> Result<Vec<u8>, Fault> {
    let arena = Bump::new(alloc);
    let whole = parse(alloc, &arena, text.as_bytes())?;
    match form {
        Form::First => print_1(alloc, &whole),
        Form::Second => print(alloc, &whole),
    }
}

#[rattlefmt::skip]
#[test]
fn texts_come_back_with_labels_and_members_in_their_order(rt: HostRuntime) -> Result<(), Fail> {
    static CASES: [Printed; 15] = [
        Printed(Form::First, "dex 035\n", Want::Itself),
        Printed(
            Form::First,
            "dex 035\nclass LA; 0x1\nsuper Ljava/lang/Object;\ndirect m ()V 0x9\ncode 1 0 0\n0: return-void\nend code\nend class\n",
            Want::Itself,
        ),
        Printed(
            Form::First,
            "dex 035\nclass LA; 0x0\nimplements LD;\nimplements LC;\nsource \"\\\"\\\\\\u00e9\\u000a\\ud800#\"\nend class\nclass LB; 0xffffffff\nend class\n",
            Want::Itself,
        ),
        Printed(
            Form::First,
            "dex 035\nclass LA; 0x1\nstatic a Z 0x9 = false\nstatic b [I 0x9 = array { byte -1 short -2 char 65535 int 4 long -9223372036854775808 float 3f800000 double 3ff0000000000000 string \"s\" type [LA; field LA;->a:Z method LA;->m(I)V enum LA;->a:Z array { } null true false }\nstatic c I 0x9\ninstance d\\u00e9 LA; 0x2\ndirect <init> ()V 0x10001\nvirtual v (I[[JLA;)LA; 0x1\nend class\n",
            Want::Itself,
        ),
        Printed(
            Form::First,
            "dex 035\nclass LA; 0x1\ndirect m ()V 0x9\ncode 65535 1 2\n0: move v0 v15\n1: const/4 v1 -8\n2: throw v255\n3: goto @4\n4: goto/16 @0\n5: move/from16 v1 v65534\n6: if-eqz v1 @0\n7: const/16 v1 -32768\n8: const/high16 v1 32767\n9: const-string v2 \"a b\"\n10: add-int v1 v2 v3\n11: add-int/lit8 v1 v2 -128\n12: if-eq v1 v2 @0\n13: add-int/lit16 v1 v2 -1\n14: iget v1 v2 LA;->f:I\n15: goto/32 @15\n16: move/16 v65534 v0\n17: const v1 -2147483648\n18: fill-array-data v1 @23\n19: const-string/jumbo v1 \"\"\n20: invoke-static { v0 v1 v2 v3 v15 } LA;->m(IJ)V\n21: invoke-static/range v65535 0 LA;->m()V\n22: const-wide v1 -9223372036854775808\n23: array-payload 4 00010203fffefdfc\n24: return-void\nend code\nend class\n",
            Want::Itself,
        ),
        Printed(
            Form::First,
            "dex 035\nclass LA; 0x1\ndirect m ()V 0x9\ncode 1 0 0\n0: packed-switch v0 @3\n1: sparse-switch v0 @4\n2: return-void\n3: packed-switch-payload -1 @0 @2\n4: sparse-switch-payload -5 @0 7 @2\n5: array-payload 1\ntry @0 @1\ncatch LE; @2\ncatch LF; @1\ncatchall @0\ntry @1 @3\ncatchall @2\nend code\nvirtual n ()V 0x1\nend class\n",
            Want::Itself,
        ),
        // Words that stand in slots of several kinds, each more than once: `I` as a name, a type and a part of
        // both, a field as what an instruction names, as a value and as a constant.
        Printed(
            Form::First,
            "dex 035\nclass LA; 0x1\nsuper Ljava/lang/Object;\nstatic I I 0x9 = type I\nstatic J J 0x9 = type I\nstatic a I 0x9 = array { type I enum LA;->I:I field LA;->I:I enum LA;->I:I field LA;->I:I method LA;->I(I)I method LA;->I(I)I string \"I\" type LA; }\nstatic b I 0x9 = array { enum LA;->J:J field LA;->J:J type J }\ndirect I (I)I 0x9\ncode 1 1 1\n0: invoke-static { v0 } LA;->I(I)I\n1: sget v0 LA;->I:I\n2: invoke-static { v0 } LA;->J(I)I\n3: sput v0 LA;->I:I\n4: check-cast v0 LA;\n5: const-class v0 LA;\n6: const-string v0 \"LA;\"\n7: invoke-static { v0 } LA;->I(I)I\n8: return v0\nend code\ndirect J (I)I 0x9\ncode 1 1 1\n0: invoke-static { v0 } LA;->J(I)I\n1: return v0\nend code\nend class\n",
            Want::Itself,
        ),
        // Members are put in their order, and a field without a value before one with a value has its zero.
        Printed(
            Form::First,
            "# in any order\ndex 035\nclass  LA;   1\nsource \"a\"\nsuper LB;\nvirtual b ()V 1\nvirtual a ()V 1\n  static z I 0x9 = int 007\nstatic y J 0x9\nstatic x Z 0x9\nstatic zz I 0x0\ndirect c ()V 0x1\ncode 0 0 0\n0x0: return-void\nend code\nend class",
            Want::Text("dex 035\nclass LA; 0x1\nsuper LB;\nsource \"a\"\nstatic x Z 0x9 = false\nstatic y J 0x9 = long 0\nstatic z I 0x9 = int 7\nstatic zz I 0x0\ndirect c ()V 0x1\ncode 0 0 0\n0: return-void\nend code\nvirtual a ()V 0x1\nvirtual b ()V 0x1\nend class\n"),
        ),
        Printed(
            Form::First, "dex 035\nclass LA; 0x1\nstatic b I 0x9 = int 7\nstatic a I 0x9\nend class\n",
            Want::Text("dex 035\nclass LA; 0x1\nstatic a I 0x9 = int 0\nstatic b I 0x9 = int 7\nend class\n"),
        ),
        // What is named has a label, and both forms say the same.
        Printed(Form::Second, "dex 035\n", Want::BothWays("dex 035 listing 2\n")),
        Printed(
            Form::Second,
            "dex 035\nclass LA; 0x1\nsuper Ljava/lang/Object;\ndirect m ()V 0x9\ncode 1 0 0\n0: return-void\nend code\nend class\n",
            Want::BothWays("dex 035 listing 2\nclass LA; 0x1\nsuper Ljava/lang/Object;\ndirect m ()V 0x9\ncode 1 0 0\nreturn-void\nend code\nend class\n"),
        ),
        Printed(
            Form::Second,
            "dex 035\nclass LA; 0x1\ndirect m ()V 0x9\ncode 1 0 0\n0: const/4 v0 0\n1: if-eqz v0 @3\n2: goto @1\n3: return-void\ntry @1 @3\ncatchall @3\nend code\nend class\n",
            Want::BothWays("dex 035 listing 2\nclass LA; 0x1\ndirect m ()V 0x9\ncode 1 0 0\nconst/4 v0 0\n:L1\nif-eqz v0 :L3\ngoto :L1\n:L3\nreturn-void\ntry :L1 :L3\ncatchall :L3\nend code\nend class\n"),
        ),
        Printed(
            Form::Second,
            "dex 035\nclass LA; 0x1\ndirect m ()V 0x9\ncode 2 0 0\n0: packed-switch v0 @4\n1: sparse-switch v1 @5\n2: fill-array-data v0 @6\n3: return-void\n4: packed-switch-payload -1 @0 @2\n5: sparse-switch-payload -5 @0 7 @2\n6: array-payload 1 00\ntry @0 @1\ncatch LE; @2\ncatch LF; @1\ncatchall @0\ntry @1 @7\ncatchall @2\nend code\nvirtual n ()V 0x1\ncode 1 0 0\n0: goto/32 @0\nend code\nend class\n",
            Want::BothWays("dex 035 listing 2\nclass LA; 0x1\ndirect m ()V 0x9\ncode 2 0 0\n:L0\npacked-switch v0 :L4\n:L1\nsparse-switch v1 :L5\n:L2\nfill-array-data v0 :L6\nreturn-void\n:L4\npacked-switch-payload -1 :L0 :L2\n:L5\nsparse-switch-payload -5 :L0 7 :L2\n:L6\narray-payload 1 00\n:L7\ntry :L0 :L1\ncatch LE; :L2\ncatch LF; :L1\ncatchall :L0\ntry :L1 :L7\ncatchall :L2\nend code\nvirtual n ()V 0x1\ncode 1 0 0\n:L0\ngoto/32 :L0\nend code\nend class\n"),
        ),
        // Operands are spelled in other ways than they are printed.
        Printed(
            Form::Second,
            "dex 035 listing 2\nclass LA; 0x1\ndirect m ()V 0x9\ncode 300 1 5\n:a\n move  v0x0 v015\nmove/from16 v255 v0256 \nadd-int v00 v1 v0x2\nconst/4 v1 -0x8\nadd-int/lit8 v1 v2  0x7f\nif-eq v1 v0x2 :a \ninvoke-static { v0  v01 v0x2 } LA;->m(III)V\ninvoke-static {  } LA;->m()V\ninvoke-static/range v0x10 03 LA;->m(III)V\nsget v0x1 LA;->f:I\ngoto  :a\nend code\nend class\n",
            Want::Text("dex 035 listing 2\nclass LA; 0x1\ndirect m ()V 0x9\ncode 300 1 5\n:L0\nmove v0 v15\nmove/from16 v255 v256\nadd-int v0 v1 v2\nconst/4 v1 -8\nadd-int/lit8 v1 v2 127\nif-eq v1 v2 :L0\ninvoke-static { v0 v1 v2 } LA;->m(III)V\ninvoke-static { } LA;->m()V\ninvoke-static/range v16 3 LA;->m(III)V\nsget v1 LA;->f:I\ngoto :L0\nend code\nend class\n"),
        ),
        // Labels of any name and number are read.
        Printed(
            Form::Second,
            "dex 035 listing 2\n# two names for one place, one unused, one of 32 characters, and one name in two codes\nclass LA; 0x1\ndirect m ()V 0x9\ncode 1 0 0\n:here\n  :Z_9  \ngoto/32 :Z_9\n:unused\nif-eqz v0 :abcdefghijklmnopqrstuvwxyz012345\n:abcdefghijklmnopqrstuvwxyz012345\n# between\ngoto :here\n:end\ntry :here :end\ncatchall :Z_9\nend code\ndirect n ()V 0x9\ncode 1 0 0\nnop\n:here\ngoto/32 :here\nend code\nend class\n",
            Want::Text("dex 035 listing 2\nclass LA; 0x1\ndirect m ()V 0x9\ncode 1 0 0\n:L0\ngoto/32 :L0\nif-eqz v0 :L2\n:L2\ngoto :L0\n:L3\ntry :L0 :L3\ncatchall :L0\nend code\ndirect n ()V 0x9\ncode 1 0 0\nnop\n:L1\ngoto/32 :L1\nend code\nend class\n"),
        ),
    ];
    all_hold(rt.alloc(), &CASES)
}

/// A quote, a backslash, an e with an acute accent and a line feed.
static UNITS: [u16; 4] = [0x22, 0x5c, 0xe9, 0x0a];

/// A class with a string of these units.
static WITH_UNITS: &str =
    "dex 035\nclass LA; 0x1\nstatic s I 0x9 = string \"\\\"\\\\\\u00e9\\u000a\"\nend class\n";

/// A class whose one field has the units as its value.
const NAMED: Class<'static> = Class {
    ty: A,
    flags: 1,
    superclass: None,
    interfaces: &[],
    source: None,
    statics: &[Member {
        name: Str { units: &[0x73] },
        ty: INT,
        flags: 9,
    }],
    values: &[Value::Text(Str {
        units: &[0x22, 0x5c, 0xe9, 0x0a],
    })],
    instances: &[],
    directs: &[],
    virtuals: &[],
};

static CLASSES: [Class<'static>; 1] = [NAMED];

/// Whether the program of that class is printed so.
fn are_units_printed(alloc: Global) -> Result<bool, Fault> {
    let bytes = print_1(alloc, &Program { classes: &CLASSES })?;
    Ok(bytes.as_slice() == WITH_UNITS.as_bytes())
}

/// Whether the units are read from that text.
fn are_units_read(alloc: Global) -> Result<bool, Fault> {
    let arena = Bump::new(alloc);
    let program = parse(alloc, &arena, WITH_UNITS.as_bytes())?;
    for class in program.classes {
        for value in class.values {
            if let Value::Text(text) = value {
                return Ok(text.units == UNITS.as_slice());
            }
        }
    }
    Ok(false)
}

fn are_units_read_and_printed(alloc: Global) -> Result<bool, Fault> {
    Ok(are_units_read(alloc)? && are_units_printed(alloc)?)
}

#[test]
fn escaped_units_are_read_and_printed(rt: HostRuntime) -> Result<(), Fail> {
    is_so(are_units_read_and_printed(rt.alloc()))
}
