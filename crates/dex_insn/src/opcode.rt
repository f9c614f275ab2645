//! What an opcode determines: the format of its instructions, the table of their index, and its mnemonic.
//! Pages: "Dalvik bytecode", "Dalvik Executable instruction formats".

ghost use Rattle.std.specs.Prelude.{◌≡◌};

/// An instruction format, by its ID on the page "Dalvik Executable instruction formats".
///
/// The digits are the number of 16-bit units and the greatest number of registers; the letter is the kind of the other operand.
#[rattlefmt::skip]
#[derive(Clone, Copy, PartialEq, Eq)]
pub enum Format {
    F10x, F12x, F11n, F11x, F10t,
    F20t, F22x, F21t, F21s, F21h, F21c, F23x, F22b, F22t, F22s, F22c,
    F30t, F32x, F31i, F31t, F31c, F35c, F3rc,
    F51l,
}

impl Format {
    ghost use Rattle.dex_insn.specs.Opcodes.{units_of};

    /// How many 16-bit units an instruction of the format has: the first digit of its ID.
    ///
    /// ```
    /// use dex_insn::Format;
    ///
    /// assert_eq!(rt; Format::F31t.units(), 3);
    /// ```
    pub fn units(self) -> usize
        ensures { result ≡ units_of self }
    {
        match self {
            Format::F10x | Format::F12x | Format::F11n | Format::F11x | Format::F10t => 1,
            Format::F51l => 5,
            Format::F30t
            | Format::F32x
            | Format::F31i
            | Format::F31t
            | Format::F31c
            | Format::F35c
            | Format::F3rc => 3,
            _ => 2,
        }
    }
}

/// A table of names of the file, in which the index in an instruction or a value is a row.
#[derive(Clone, Copy, PartialEq, Eq)]
pub enum IndexKind {
    /// `string_ids`
    String,
    /// `type_ids`
    Type,
    /// `field_ids`
    Field,
    /// `method_ids`
    Method,
}

/// A row of the opcode table, with a mnemonic of type `M`.
#[derive(Clone, Copy)]
pub struct Opcode<M> {
    pub mnemonic: M,
    pub format: Format,
    /// The table of its index: `None` where the format has no index.
    pub index: Option<IndexKind>,
}
