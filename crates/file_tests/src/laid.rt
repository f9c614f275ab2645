//! Files laid by hand: their data and their rows in, the finished file out.

ghost use Rattle.std.specs.Prelude.{◌≡◌};
ghost use Rattle.file_layout.specs.inner.Plan.{IsPlanned, tables_end};

use dex_base::Fault;
use dex_samples::{Case, ONE_CLASS, WITHOUT_CLASSES, all_hold};
use file_layout::{Part, Plan, Rows, finish, pad};
use std::alloc::Global;
use std::test::Fail;

/// The plan of the file without classes: no row and no item.
fn plan_without_classes() -> Plan
    ensures planned { IsPlanned result }
    ensures tables { tables_end result.rows ≡ 112 }
    ensures end { result.datas.end ≡ 112 }
{
    let none = Part {
        items: 0,
        begin: 112,
        end: 112,
    };
    Plan {
        rows: Rows {
            strings: 0,
            types: 0,
            protos: 0,
            fields: 0,
            methods: 0,
            classes: 0,
        },
        lists: none,
        codes: none,
        strings: none,
        arrays: none,
        datas: none,
    }
}

/// The file without classes: header and map.
fn laid_without_classes(alloc: Global) -> Result<Vec<u8>, Fault> {
    let mut file = Vec::from_slice(alloc, &[0; 112])?;
    finish(alloc, &mut file, &plan_without_classes(), &[])?;
    Ok(file)
}

/// The data of the file of one class: a code item, four texts, class data.
static DATA: [u8; 57] = [
    0x01, 0x00, 0x00, 0x00, 0x00, 0x00, 0x00, 0x00, 0x00, 0x00, 0x00, 0x00, 0x01, 0x00, 0x00, 0x00,
    0x0e, 0x00, 0x03, 0x4c, 0x41, 0x3b, 0x00, 0x12, 0x4c, 0x6a, 0x61, 0x76, 0x61, 0x2f, 0x6c, 0x61,
    0x6e, 0x67, 0x2f, 0x4f, 0x62, 0x6a, 0x65, 0x63, 0x74, 0x3b, 0x00, 0x01, 0x56, 0x00, 0x01, 0x6d,
    0x00, 0x00, 0x00, 0x01, 0x00, 0x00, 0x09, 0xc0, 0x01,
];

/// The rows of its tables: string_ids, type_ids, proto_ids, method_ids, class_defs.
static ROWS: [u8; 80] = [
    0xd2, 0x00, 0x00, 0x00, 0xd7, 0x00, 0x00, 0x00, 0xeb, 0x00, 0x00, 0x00, 0xee, 0x00, 0x00, 0x00,
    0x00, 0x00, 0x00, 0x00, 0x01, 0x00, 0x00, 0x00, 0x02, 0x00, 0x00, 0x00, 0x02, 0x00, 0x00, 0x00,
    0x02, 0x00, 0x00, 0x00, 0x00, 0x00, 0x00, 0x00, 0x00, 0x00, 0x00, 0x00, 0x03, 0x00, 0x00, 0x00,
    0x00, 0x00, 0x00, 0x00, 0x01, 0x00, 0x00, 0x00, 0x01, 0x00, 0x00, 0x00, 0x00, 0x00, 0x00, 0x00,
    0xff, 0xff, 0xff, 0xff, 0x00, 0x00, 0x00, 0x00, 0xf1, 0x00, 0x00, 0x00, 0x00, 0x00, 0x00, 0x00,
];

/// The plan of the file of one class: where its code item, its texts and its class data stand.
fn plan_of_one_class() -> Plan
    ensures planned { IsPlanned result }
    ensures tables { tables_end result.rows ≡ 192 }
    ensures end { result.datas.end ≡ 249 }
{
    Plan {
        rows: Rows {
            strings: 4,
            types: 3,
            protos: 1,
            fields: 0,
            methods: 1,
            classes: 1,
        },
        lists: Part {
            items: 0,
            begin: 192,
            end: 192,
        },
        codes: Part {
            items: 1,
            begin: 192,
            end: 210,
        },
        strings: Part {
            items: 4,
            begin: 210,
            end: 241,
        },
        arrays: Part {
            items: 0,
            begin: 241,
            end: 241,
        },
        datas: Part {
            items: 1,
            begin: 241,
            end: 249,
        },
    }
}

/// The file of one class, from its data and its rows.
fn laid_one_class(alloc: Global, data: &[u8; 57], rows: &[u8; 80]) -> Result<Vec<u8>, Fault> {
    let mut file = Vec::from_slice(alloc, &[0; 192])?;
    file.extend_from_slice(data)?;
    finish(alloc, &mut file, &plan_of_one_class(), rows)?;
    Ok(file)
}

/// So many ones, padded.
fn padded(alloc: Global, length: usize) -> Result<Vec<u8>, Fault> {
    let mut bytes = vec![in alloc; 1u8; length]?;
    pad(&mut bytes)?;
    Ok(bytes)
}

/// What is laid.
#[derive(Clone, Copy)]
enum Made {
    WithoutClasses,
    OneClass,
    // so many ones, with zeros after them
    Padded(usize),
}

fn bytes_of(alloc: Global, made: Made) -> Result<Vec<u8>, Fault> {
    match made {
        Made::WithoutClasses => laid_without_classes(alloc),
        Made::OneClass => laid_one_class(alloc, &DATA, &ROWS),
        Made::Padded(length) => padded(alloc, length),
    }
}

/// The bytes that are wanted.
#[derive(Clone, Copy)]
enum Want {
    WithoutClasses,
    OneClass,
    Bytes(&'static [u8]),
}

fn is_wanted(bytes: &[u8], want: Want) -> bool {
    match want {
        Want::WithoutClasses => bytes == WITHOUT_CLASSES.as_slice(),
        Want::OneClass => bytes == ONE_CLASS.as_slice(),
        Want::Bytes(want) => bytes == want,
    }
}

/// A name for the case, what is laid, and its bytes.
struct Laid(&'static str, Made, Want);

impl Case for Laid {
    fn name(&self) -> &'static str {
        self.0
    }

    fn holds(&self, alloc: Global) -> Result<bool, Fault> {
        let bytes = bytes_of(alloc, self.1)?;
        Ok(is_wanted(&bytes, self.2))
    }
}

#[rattlefmt::skip]
#[test]
fn files_are_laid_with_zeros_only_for_alignment(rt: HostRuntime) -> Result<(), Fail> {
    static CASES: [Laid; 8] = [
        Laid("the file without classes", Made::WithoutClasses, Want::WithoutClasses),
        Laid("the file of one class", Made::OneClass, Want::OneClass),
        Laid("no byte", Made::Padded(0), Want::Bytes(&[])),
        Laid("one byte", Made::Padded(1), Want::Bytes(&[1, 0, 0, 0])),
        Laid("two bytes", Made::Padded(2), Want::Bytes(&[1, 1, 0, 0])),
        Laid("three bytes", Made::Padded(3), Want::Bytes(&[1, 1, 1, 0])),
        Laid("four bytes", Made::Padded(4), Want::Bytes(&[1, 1, 1, 1])),
        Laid("five bytes", Made::Padded(5), Want::Bytes(&[1, 1, 1, 1, 1, 0, 0, 0])),
    ];
    all_hold(rt.alloc(), &CASES)
}
