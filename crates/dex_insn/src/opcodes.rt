//! The opcodes of version 035.
//! Page: "Dalvik bytecode", "Summary of bytecode set".

use crate::opcode::{Format, IndexKind, Opcode};

/// A row: mnemonic, format, and where the format has an index the table that it is in.
macro_rules! row {
    ($mnemonic:literal $format:ident) => {
        Some(Opcode { mnemonic: $mnemonic, format: Format::$format, index: None })
    };
    ($mnemonic:literal $format:ident $table:ident) => {
        Some(Opcode { mnemonic: $mnemonic, format: Format::$format, index: Some(IndexKind::$table) })
    };
}

/// Each opcode's row: `None` if it is unused.
#[rattlefmt::skip]
pub static OPCODES: [Option<Opcode<&str>>; 256] = [
    row!("nop" F10x), // 00
    row!("move" F12x), // 01
    row!("move/from16" F22x), // 02
    row!("move/16" F32x), // 03
    row!("move-wide" F12x), // 04
    row!("move-wide/from16" F22x), // 05
    row!("move-wide/16" F32x), // 06
    row!("move-object" F12x), // 07
    row!("move-object/from16" F22x), // 08
    row!("move-object/16" F32x), // 09
    row!("move-result" F11x), // 0a
    row!("move-result-wide" F11x), // 0b
    row!("move-result-object" F11x), // 0c
    row!("move-exception" F11x), // 0d
    row!("return-void" F10x), // 0e
    row!("return" F11x), // 0f
    row!("return-wide" F11x), // 10
    row!("return-object" F11x), // 11
    row!("const/4" F11n), // 12
    row!("const/16" F21s), // 13
    row!("const" F31i), // 14
    row!("const/high16" F21h), // 15
    row!("const-wide/16" F21s), // 16
    row!("const-wide/32" F31i), // 17
    row!("const-wide" F51l), // 18
    row!("const-wide/high16" F21h), // 19
    row!("const-string" F21c String), // 1a
    row!("const-string/jumbo" F31c String), // 1b
    row!("const-class" F21c Type), // 1c
    row!("monitor-enter" F11x), // 1d
    row!("monitor-exit" F11x), // 1e
    row!("check-cast" F21c Type), // 1f
    row!("instance-of" F22c Type), // 20
    row!("array-length" F12x), // 21
    row!("new-instance" F21c Type), // 22
    row!("new-array" F22c Type), // 23
    row!("filled-new-array" F35c Type), // 24
    row!("filled-new-array/range" F3rc Type), // 25
    row!("fill-array-data" F31t), // 26
    row!("throw" F11x), // 27
    row!("goto" F10t), // 28
    row!("goto/16" F20t), // 29
    row!("goto/32" F30t), // 2a
    row!("packed-switch" F31t), // 2b
    row!("sparse-switch" F31t), // 2c
    row!("cmpl-float" F23x), // 2d
    row!("cmpg-float" F23x), // 2e
    row!("cmpl-double" F23x), // 2f
    row!("cmpg-double" F23x), // 30
    row!("cmp-long" F23x), // 31
    row!("if-eq" F22t), // 32
    row!("if-ne" F22t), // 33
    row!("if-lt" F22t), // 34
    row!("if-ge" F22t), // 35
    row!("if-gt" F22t), // 36
    row!("if-le" F22t), // 37
    row!("if-eqz" F21t), // 38
    row!("if-nez" F21t), // 39
    row!("if-ltz" F21t), // 3a
    row!("if-gez" F21t), // 3b
    row!("if-gtz" F21t), // 3c
    row!("if-lez" F21t), // 3d
    None, // 3e
    None, // 3f
    None, // 40
    None, // 41
    None, // 42
    None, // 43
    row!("aget" F23x), // 44
    row!("aget-wide" F23x), // 45
    row!("aget-object" F23x), // 46
    row!("aget-boolean" F23x), // 47
    row!("aget-byte" F23x), // 48
    row!("aget-char" F23x), // 49
    row!("aget-short" F23x), // 4a
    row!("aput" F23x), // 4b
    row!("aput-wide" F23x), // 4c
    row!("aput-object" F23x), // 4d
    row!("aput-boolean" F23x), // 4e
    row!("aput-byte" F23x), // 4f
    row!("aput-char" F23x), // 50
    row!("aput-short" F23x), // 51
    row!("iget" F22c Field), // 52
    row!("iget-wide" F22c Field), // 53
    row!("iget-object" F22c Field), // 54
    row!("iget-boolean" F22c Field), // 55
    row!("iget-byte" F22c Field), // 56
    row!("iget-char" F22c Field), // 57
    row!("iget-short" F22c Field), // 58
    row!("iput" F22c Field), // 59
    row!("iput-wide" F22c Field), // 5a
    row!("iput-object" F22c Field), // 5b
    row!("iput-boolean" F22c Field), // 5c
    row!("iput-byte" F22c Field), // 5d
    row!("iput-char" F22c Field), // 5e
    row!("iput-short" F22c Field), // 5f
    row!("sget" F21c Field), // 60
    row!("sget-wide" F21c Field), // 61
    row!("sget-object" F21c Field), // 62
    row!("sget-boolean" F21c Field), // 63
    row!("sget-byte" F21c Field), // 64
    row!("sget-char" F21c Field), // 65
    row!("sget-short" F21c Field), // 66
    row!("sput" F21c Field), // 67
    row!("sput-wide" F21c Field), // 68
    row!("sput-object" F21c Field), // 69
    row!("sput-boolean" F21c Field), // 6a
    row!("sput-byte" F21c Field), // 6b
    row!("sput-char" F21c Field), // 6c
    row!("sput-short" F21c Field), // 6d
    row!("invoke-virtual" F35c Method), // 6e
    row!("invoke-super" F35c Method), // 6f
    row!("invoke-direct" F35c Method), // 70
    row!("invoke-static" F35c Method), // 71
    row!("invoke-interface" F35c Method), // 72
    None, // 73
    row!("invoke-virtual/range" F3rc Method), // 74
    row!("invoke-super/range" F3rc Method), // 75
    row!("invoke-direct/range" F3rc Method), // 76
    row!("invoke-static/range" F3rc Method), // 77
    row!("invoke-interface/range" F3rc Method), // 78
    None, // 79
    None, // 7a
    row!("neg-int" F12x), // 7b
    row!("not-int" F12x), // 7c
    row!("neg-long" F12x), // 7d
    row!("not-long" F12x), // 7e
    row!("neg-float" F12x), // 7f
    row!("neg-double" F12x), // 80
    row!("int-to-long" F12x), // 81
    row!("int-to-float" F12x), // 82
    row!("int-to-double" F12x), // 83
    row!("long-to-int" F12x), // 84
    row!("long-to-float" F12x), // 85
    row!("long-to-double" F12x), // 86
    row!("float-to-int" F12x), // 87
    row!("float-to-long" F12x), // 88
    row!("float-to-double" F12x), // 89
    row!("double-to-int" F12x), // 8a
    row!("double-to-long" F12x), // 8b
    row!("double-to-float" F12x), // 8c
    row!("int-to-byte" F12x), // 8d
    row!("int-to-char" F12x), // 8e
    row!("int-to-short" F12x), // 8f
    row!("add-int" F23x), // 90
    row!("sub-int" F23x), // 91
    row!("mul-int" F23x), // 92
    row!("div-int" F23x), // 93
    row!("rem-int" F23x), // 94
    row!("and-int" F23x), // 95
    row!("or-int" F23x), // 96
    row!("xor-int" F23x), // 97
    row!("shl-int" F23x), // 98
    row!("shr-int" F23x), // 99
    row!("ushr-int" F23x), // 9a
    row!("add-long" F23x), // 9b
    row!("sub-long" F23x), // 9c
    row!("mul-long" F23x), // 9d
    row!("div-long" F23x), // 9e
    row!("rem-long" F23x), // 9f
    row!("and-long" F23x), // a0
    row!("or-long" F23x), // a1
    row!("xor-long" F23x), // a2
    row!("shl-long" F23x), // a3
    row!("shr-long" F23x), // a4
    row!("ushr-long" F23x), // a5
    row!("add-float" F23x), // a6
    row!("sub-float" F23x), // a7
    row!("mul-float" F23x), // a8
    row!("div-float" F23x), // a9
    row!("rem-float" F23x), // aa
    row!("add-double" F23x), // ab
    row!("sub-double" F23x), // ac
    row!("mul-double" F23x), // ad
    row!("div-double" F23x), // ae
    row!("rem-double" F23x), // af
    row!("add-int/2addr" F12x), // b0
    row!("sub-int/2addr" F12x), // b1
    row!("mul-int/2addr" F12x), // b2
    row!("div-int/2addr" F12x), // b3
    row!("rem-int/2addr" F12x), // b4
    row!("and-int/2addr" F12x), // b5
    row!("or-int/2addr" F12x), // b6
    row!("xor-int/2addr" F12x), // b7
    row!("shl-int/2addr" F12x), // b8
    row!("shr-int/2addr" F12x), // b9
    row!("ushr-int/2addr" F12x), // ba
    row!("add-long/2addr" F12x), // bb
    row!("sub-long/2addr" F12x), // bc
    row!("mul-long/2addr" F12x), // bd
    row!("div-long/2addr" F12x), // be
    row!("rem-long/2addr" F12x), // bf
    row!("and-long/2addr" F12x), // c0
    row!("or-long/2addr" F12x), // c1
    row!("xor-long/2addr" F12x), // c2
    row!("shl-long/2addr" F12x), // c3
    row!("shr-long/2addr" F12x), // c4
    row!("ushr-long/2addr" F12x), // c5
    row!("add-float/2addr" F12x), // c6
    row!("sub-float/2addr" F12x), // c7
    row!("mul-float/2addr" F12x), // c8
    row!("div-float/2addr" F12x), // c9
    row!("rem-float/2addr" F12x), // ca
    row!("add-double/2addr" F12x), // cb
    row!("sub-double/2addr" F12x), // cc
    row!("mul-double/2addr" F12x), // cd
    row!("div-double/2addr" F12x), // ce
    row!("rem-double/2addr" F12x), // cf
    row!("add-int/lit16" F22s), // d0
    row!("rsub-int" F22s), // d1
    row!("mul-int/lit16" F22s), // d2
    row!("div-int/lit16" F22s), // d3
    row!("rem-int/lit16" F22s), // d4
    row!("and-int/lit16" F22s), // d5
    row!("or-int/lit16" F22s), // d6
    row!("xor-int/lit16" F22s), // d7
    row!("add-int/lit8" F22b), // d8
    row!("rsub-int/lit8" F22b), // d9
    row!("mul-int/lit8" F22b), // da
    row!("div-int/lit8" F22b), // db
    row!("rem-int/lit8" F22b), // dc
    row!("and-int/lit8" F22b), // dd
    row!("or-int/lit8" F22b), // de
    row!("xor-int/lit8" F22b), // df
    row!("shl-int/lit8" F22b), // e0
    row!("shr-int/lit8" F22b), // e1
    row!("ushr-int/lit8" F22b), // e2
    None, // e3
    None, // e4
    None, // e5
    None, // e6
    None, // e7
    None, // e8
    None, // e9
    None, // ea
    None, // eb
    None, // ec
    None, // ed
    None, // ee
    None, // ef
    None, // f0
    None, // f1
    None, // f2
    None, // f3
    None, // f4
    None, // f5
    None, // f6
    None, // f7
    None, // f8
    None, // f9
    None, // fa
    None, // fb
    None, // fc
    None, // fd
    None, // fe
    None, // ff
];
