//! Code items that are read from files: their instructions, their tries, and their faults.

use crate::codes_as_numbers::{insns_as_number, tries_as_number};
use bumpalo::Bump;
use code_read::read_code;
use dex_base::{Fault, fault, push_words};
use dex_container::open;
use dex_samples::{
    ALL_TO_0, Case, NOTHING, Rows, TryItem, all_hold, file_of, item_of, item_of_tries, length,
};
use program_types::Code;
use std::alloc::Global;
use std::test::Fail;
use tables_rows::Tables;

// Where the code item begins.
const CODE_AT: u32 = 180;

const ITEM_AT: u64 = CODE_AT as u64;

const INSNS: u64 = ITEM_AT + 16;

/// The strings `I`, `LA;`, `V`, `Z`, `a` and `b`, the types `I`, `LA;`, `V` and `Z`, the prototype `()V`, the field `LA;->a:I` and the
/// method `LA;->b()V`. The data section begins at 180, with the code.
#[rattlefmt::skip]
static CODED: Rows<'static> = Rows {
    strings: &[b"\x01I\0", b"\x03LA;\0", b"\x01V\0", b"\x01Z\0", b"\x01a\0", b"\x01b\0"],
    types: &[0, 1, 2, 3],
    protos: &[(2, 2, None)],
    fields: &[(1, 0, 4)],
    methods: &[(1, 0, 5)],
    ..NOTHING
};

/// A code item.
#[derive(Clone, Copy)]
enum Item {
    // of 256 registers, no ins, no outs, no tries: these units
    Units(&'static [u8]),
    // .. with these try_items, and this list of handlers
    Tries(&'static [u8], &'static [TryItem], &'static [u8]),
    // of so many registers and ins, no outs, no tries, these units
    Registers(u16, u16, &'static [u8]),
    // these bytes, as the item that is looked for at this place
    At(u32, &'static [u8]),
}

/// What is told of it.
#[derive(Clone, Copy)]
enum Want {
    Insns(u64),
    Tries(u64),
    // 0 at 0 where there is none
    Fault((u16, u64)),
}

/// A name for the case, the item, and what is told of it.
struct Read(&'static str, Item, Want);

impl Case for Read {
    fn name(&self) -> &'static str {
        self.0
    }

    fn holds(&self, alloc: Global) -> Result<bool, Fault> {
        let item = bytes_of(alloc, self.1)?;
        is_in_a_file_so(alloc, &item, self)
    }
}

fn bytes_of(alloc: Global, item: Item) -> Result<Vec<u8>, Fault> {
    match item {
        Item::Units(units) => item_of(alloc, 256, 0, units, &[]),
        Item::Tries(units, tries, list) => item_of_tries(alloc, 256, units, tries, list),
        Item::Registers(registers, ins, units) => of_registers(alloc, registers, ins, units),
        Item::At(_, bytes) => Ok(Vec::from_slice(alloc, bytes)?),
    }
}

fn of_registers(alloc: Global, registers: u16, ins: u16, units: &[u8]) -> Result<Vec<u8>, Fault> {
    let mut item = Vec::from_slice(alloc, &registers.to_le_bytes())?;
    put_rest(&mut item, ins, units)?;
    Ok(item)
}

fn put_rest(item: &mut Vec<u8>, ins: u16, units: &[u8]) -> Result<(), Fault> {
    item.extend_from_slice(&ins.to_le_bytes())?;
    push_words(item, &[0, 0, length(units.len() / 2)])?;
    item.extend_from_slice(units)?;
    Ok(())
}

fn is_in_a_file_so(alloc: Global, item: &[u8], case: &Read) -> Result<bool, Fault> {
    let file = file_of(
        alloc,
        &Rows {
            codes: item,
            ..CODED
        },
    )?;
    Ok(is_read_so(alloc, &file, case))
}

fn is_read_so(alloc: Global, file: &[u8], case: &Read) -> bool {
    let arena = Bump::new(alloc);
    let off = match case.1 {
        Item::At(off, _) => off,
        _ => CODE_AT,
    };
    match read_at(alloc, &arena, file, off) {
        Ok(code) => is_wanted(&code, case.2),
        Err(found) => is_fault(&found, case.2),
    }
}

fn read_at<'a>(alloc: Global, arena: &'a Bump, file: &[u8], off: u32) -> Result<Code<'a>, Fault> {
    let sections = open(file)?;
    let tables = Tables::read(alloc, arena, &sections)?;
    read_code(alloc, arena, &tables, &sections, off)
}

fn is_wanted(code: &Code<'_>, want: Want) -> bool {
    match want {
        Want::Insns(as_number) => insns_as_number(code) == as_number,
        Want::Tries(as_number) => tries_as_number(code) == as_number,
        Want::Fault(fault) => fault == (0, 0),
    }
}

fn is_fault(found: &Fault, want: Want) -> bool {
    match want {
        Want::Fault((code, place)) => found.code == code && found.place == place,
        _ => false,
    }
}

/// const/4 v0, if-eqz, goto back to it, return-void: at 0, 1, 3 and 4.
const LOOP: &[u8] = &[0x12, 0, 0x38, 0, 3, 0, 0x28, 0xfe, 0x0e, 0];

/// const-wide, and return-void
const WIDE: &[u8] = &[0x18, 0, 0, 0, 0, 0, 0, 0, 0, 0, 0x0e, 0];

/// return-void, eight times
const EIGHT: &[u8] = &[
    0x0e, 0, 0x0e, 0, 0x0e, 0, 0x0e, 0, 0x0e, 0, 0x0e, 0, 0x0e, 0, 0x0e, 0,
];

#[rattlefmt::skip]
#[test]
fn instructions_and_tries_are_read(rt: HostRuntime) -> Result<(), Fail> {
    static CASES: [Read; 13] = [
        // Instructions as numbers of five digits, one after the other.
        Read("const/4 v0, -1", Item::Units(&[0x12, 0xf0]), Want::Insns(21_801)),
        Read("goto/32 to itself", Item::Units(&[0x2a, 0, 0, 0, 0, 0]), Want::Insns(34_200)),
        Read(
            "a switch whose target is itself",
            Item::Units(&[0x2b, 0, 4, 0, 0, 0, 0, 0, 0, 1, 1, 0, 7, 0, 0, 0, 0, 0, 0, 0]),
            Want::Insns(443021000057001),
        ),
        Read(
            "a switch whose target is the nop after it",
            Item::Units(&[0x2b, 0, 4, 0, 0, 0, 0, 0, 0, 1, 1, 0, 0, 0, 0, 0, 3, 0, 0, 0]),
            Want::Insns(443021000050002),
        ),
        // The handlers of each try as three digits each, then its catch-all, its end and its begin.
        Read(
            "a try of the first unit of const-wide, of 5", Item::Tries(WIDE, &[(0, 1, 1)], ALL_TO_0),
            Want::Tries(10),
        ),
        Read("a try of const-wide", Item::Tries(WIDE, &[(0, 5, 1)], ALL_TO_0), Want::Tries(10)),
        Read(
            "a try of const-wide and return-void", Item::Tries(WIDE, &[(0, 6, 1)], ALL_TO_0),
            Want::Tries(20),
        ),
        Read(
            "a handler of Z at 5 and a catch-all at 7",
            Item::Tries(EIGHT, &[(0, 2, 1)], &[1, 0x7f, 3, 5, 7]), Want::Tries(905_720),
        ),
        Read(
            "a handler of LA; and no catch-all", Item::Tries(EIGHT, &[(1, 2, 1)], &[1, 1, 1, 5]),
            Want::Tries(765_931),
        ),
        Read(
            "units 1 to 3 of a loop", Item::Tries(LOOP, &[(1, 3, 1)], &[1, 0, 4]),
            Want::Tries(331),
        ),
        Read(
            "the first unit of if-eqz", Item::Tries(LOOP, &[(1, 1, 1)], &[1, 0, 4]),
            Want::Tries(321),
        ),
        Read("both units of if-eqz", Item::Tries(LOOP, &[(1, 2, 1)], &[1, 0, 4]), Want::Tries(321)),
        Read(
            "units 1 to 4 of a loop", Item::Tries(LOOP, &[(1, 4, 1)], &[1, 0, 4]),
            Want::Tries(341),
        ),
    ];
    all_hold(rt.alloc(), &CASES)
}

#[rattlefmt::skip]
#[test]
fn places_tries_and_registers_have_their_fault(rt: HostRuntime) -> Result<(), Fail> {
    static CASES: [Read; 23] = [
        // An item stands aligned in its section.
        Read(
            "it is there", Item::At(CODE_AT, &[1, 0, 0, 0, 0, 0, 0, 0, 0, 0, 0, 0, 1, 0, 0, 0, 0x0e, 0]),
            Want::Fault((0, 0)),
        ),
        Read(
            "it is misaligned", Item::At(182, &[1, 0, 0, 0, 0, 0, 0, 0, 0, 0, 0, 0, 1, 0, 0, 0, 0x0e, 0]),
            Want::Fault((fault::CODE_PLACE, 182)),
        ),
        Read(
            "it is outside", Item::At(0, &[1, 0, 0, 0, 0, 0, 0, 0, 0, 0, 0, 0, 1, 0, 0, 0, 0x0e, 0]),
            Want::Fault((fault::CODE_PLACE, 0)),
        ),
        Read(
            "its units are cut", Item::At(CODE_AT, &[1, 0, 0, 0, 0, 0, 0, 0, 0, 0, 0, 0, 1, 0, 0, 0, 0x0e]),
            Want::Fault((fault::CODE_PLACE, 180)),
        ),
        Read(
            "its head is cut", Item::At(CODE_AT, &[1, 0, 0, 0, 0, 0, 0, 0, 0, 0, 0, 0, 1, 0, 0]),
            Want::Fault((fault::CODE_PLACE, 180)),
        ),
        // A loop of 5 units with one try, which begins 28 bytes after the item, and a list of handlers 36 bytes
        // after it.
        Read(
            "all is well",
            Item::Tries(LOOP, &[(1, 3, 1)], &[1, 0, 4]),
            Want::Fault((0, 0)),
        ),
        Read(
            "a count of 0",
            Item::Tries(LOOP, &[(1, 0, 1)], &[1, 0, 4]),
            Want::Fault((fault::TRY, 208)),
        ),
        Read(
            "a count of 5",
            Item::Tries(LOOP, &[(1, 5, 1)], &[1, 0, 4]),
            Want::Fault((fault::TRY, 208)),
        ),
        Read(
            "handler_off 0",
            Item::Tries(LOOP, &[(1, 3, 0)], &[1, 0, 4]),
            Want::Fault((fault::HANDLER, 216)),
        ),
        Read(
            "a catch-all inside if-eqz",
            Item::Tries(LOOP, &[(1, 3, 1)], &[1, 0, 2]),
            Want::Fault((fault::HANDLER, 216)),
        ),
        // Registers are among those of the code.
        Read("no registers and none named", Item::Registers(0, 0, &[0x0e, 0]), Want::Fault((0, 0))),
        Read("ins past the registers", Item::Registers(1, 2, &[0x0e, 0]), Want::Fault((fault::REGISTER, ITEM_AT))),
        Read(
            "ins before instructions", Item::Registers(1, 2, &[0x0f, 1, 0x0e, 0]),
            Want::Fault((fault::REGISTER, ITEM_AT)),
        ),
        Read("the last register", Item::Registers(2, 2, &[0x0f, 1]), Want::Fault((0, 0))),
        Read("the one after it", Item::Registers(1, 1, &[0x0f, 1]), Want::Fault((fault::REGISTER, INSNS))),
        Read(
            "the first of two instructions", Item::Registers(1, 0, &[0x0f, 0, 0x0f, 1, 0x0f, 2]),
            Want::Fault((fault::REGISTER, INSNS + 2)),
        ),
        Read("an invocation of none", Item::Registers(0, 0, &[0x77, 0, 0, 0, 0xff, 0xff]), Want::Fault((0, 0))),
        Read("the last but one of all", Item::Registers(65535, 0, &[0x77, 1, 0, 0, 0xfe, 0xff]), Want::Fault((0, 0))),
        Read(
            "past the last of all", Item::Registers(65535, 0, &[0x77, 2, 0, 0, 0xfe, 0xff]),
            Want::Fault((fault::REGISTER, INSNS)),
        ),
        Read(
            "registers that aren't among those counted", Item::Registers(1, 0, &[0x71, 0x10, 0, 0, 0x20, 0x03]),
            Want::Fault((0, 0)),
        ),
        Read(
            "the second of two", Item::Registers(1, 0, &[0x71, 0x20, 0, 0, 0x10, 0x00]),
            Want::Fault((fault::REGISTER, INSNS)),
        ),
        Read("a literal is none", Item::Registers(1, 0, &[0x12, 0x70]), Want::Fault((0, 0))),
        Read(
            "an if of two", Item::Registers(4, 0, &[0x32, 0x43, 2, 0, 0x0e, 0]),
            Want::Fault((fault::REGISTER, INSNS)),
        ),
    ];
    all_hold(rt.alloc(), &CASES)
}
