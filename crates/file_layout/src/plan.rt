//! The plan of a file: how many rows each table has, and the offsets of the parts of the data section.
//! Page: "Dalvik Executable format", "File layout".
ghost use Rattle.std.specs.Prelude.{◌≡◌, ◌<◌, ◌^◌};
ghost use Rattle.file_layout.specs.inner.Plan.{type_ids_begin, proto_ids_begin, field_ids_begin, method_ids_begin, class_defs_begin, tables_end};

/// How many bytes the header takes, after which the tables begin.
pub(crate) const HEADER_SIZE: u32 = 112;

/// How many rows each table has.
#[derive(Clone, Copy)]
pub struct Rows {
    pub strings: u32,
    pub types: u32,
    pub protos: u32,
    pub fields: u32,
    pub methods: u32,
    pub classes: u32,
}

/// The items of one kind in the data section: how many there are, and from which byte to which they extend. In a part without
/// items only `end` counts, which is the end of the part before it.
#[derive(Clone, Copy)]
pub struct Part {
    pub items: u32,
    pub begin: u32,
    pub end: u32,
}

/// The tables and the parts of the data section, in the order of the file: `type_list`, `code_item`,
/// `string_data_item`, `encoded_array_item`, `class_data_item`.
#[derive(Clone, Copy)]
pub struct Plan {
    pub rows: Rows,
    pub lists: Part,
    pub codes: Part,
    pub strings: Part,
    pub arrays: Part,
    pub datas: Part,
}

impl Rows {
    /// The byte at which `type_ids` begins, after the header and `string_ids`.
    pub fn type_ids_begin(self) -> u32
        requires { tables_end self < 2 ^ 32 }
        ensures { result ≡ type_ids_begin self }
    {
        HEADER_SIZE + 4 * self.strings
    }

    /// The byte at which `proto_ids` begins, after `type_ids`.
    pub fn proto_ids_begin(self) -> u32
        requires { tables_end self < 2 ^ 32 }
        ensures { result ≡ proto_ids_begin self }
    {
        self.type_ids_begin() + 4 * self.types
    }

    /// The byte at which `field_ids` begins, after `proto_ids`.
    pub fn field_ids_begin(self) -> u32
        requires { tables_end self < 2 ^ 32 }
        ensures { result ≡ field_ids_begin self }
    {
        self.proto_ids_begin() + 12 * self.protos
    }

    /// The byte at which `method_ids` begins, after `field_ids`.
    pub fn method_ids_begin(self) -> u32
        requires { tables_end self < 2 ^ 32 }
        ensures { result ≡ method_ids_begin self }
    {
        self.field_ids_begin() + 8 * self.fields
    }

    /// The byte at which `class_defs` begins, after `method_ids`.
    pub fn class_defs_begin(self) -> u32
        requires { tables_end self < 2 ^ 32 }
        ensures { result ≡ class_defs_begin self }
    {
        self.method_ids_begin() + 8 * self.methods
    }

    /// The byte at which the tables end and the data section begins.
    pub fn tables_end(self) -> u32
        requires { tables_end self < 2 ^ 32 }
        ensures { result ≡ tables_end self }
    {
        self.class_defs_begin() + 32 * self.classes
    }
}
