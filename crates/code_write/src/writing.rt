//! Writing a code item.

ghost use Rattle.std.specs.Prelude.{◌≡◌, ◌<◌, IfOk, OnOk, OnErr, IsOkUnless};
ghost use Rattle.dex_base.specs.Fault.{memory};
ghost use Rattle.dex_base.specs.Grammar.{Appends};
ghost use Rattle.program_types.specs.View as view;
ghost use Rattle.program_types.specs.Formed.{IsFormed};
ghost use Rattle.program_types.specs.Mentions.{names_of_insn};
ghost use Rattle.std.specs.List.{flat_map};
ghost use Rattle.tables_names.specs.Closure.{NameRanks};
ghost use Rattle.tables_names.specs.Noted.{AreRanks};
ghost use Rattle.code_write.specs.Fits.{FitsCode, CanBePut};
ghost use Rattle.code_write.specs.Packs.{PacksCode};

use crate::begins::Begins;
use crate::handlers::lay_handlers;
use crate::insns::put_insns;
use crate::items::{put_head, put_items, put_padding};
use crate::mentioned::indices_of;
use crate::sizes::starts_of;
use code_rules::origins_of;
use dex_base::Fault;
use program_types::Code;
use std::alloc::Global;
use tables_names::Ranks;

/// The bytes of the code item of a code, as [`put_code`] appends them, where what its instructions name has these indices, one
/// by one. It fails only when out of memory.
pub fn make_item(
    alloc: Global,
    ranks: &Ranks<'_>,
    indices: &[usize],
    code: &Code<'_>,
) -> Result<Vec<u8>, Fault>
    requires indices { AreRanks ranks.now (flat_map names_of_insn (view.code code.now).insns) indices.now }
    requires formed { IsFormed (view.code code.now) }
    requires fits { FitsCode (NameRanks ranks.now) (view.code code.now) }
    requires ranked { CanBePut (NameRanks ranks.now) (view.code code.now) }
    ensures ok { IfOk result (λ item. PacksCode (NameRanks ranks.now) item.items (view.code code.now)) }
    ensures memory { IsOkUnless result memory }
{
    let all = starts_of(alloc, code.insns)?;
    let size = all.end as u32;
    let origins = origins_of(alloc, code.insns)?;
    let starts = Begins { list: &all.starts };
    let laid = lay_handlers(alloc, ranks, &starts, code.tries)?;
    let mut item = Vec::with_capacity(alloc, 16 + 2 * size as usize)?;
    put_head(&mut item, code, size)?;
    put_insns(&mut item, ranks, indices, &starts, &origins, code.insns)?;
    put_padding(&mut item, size, code.tries.len())?;
    put_items(&mut item, &starts, size, code.tries, &laid.offsets)?;
    item.extend_from_slice(&laid.bytes)?;
    Ok(item)
}

/// Appends the code item of a code that is well formed and fits (see [`fits`](crate::fits)): no padding before it,
/// the shortest LEB128 numbers, debug_info_off 0, and each handler once, in the order of first use by the tries. It fails only when out of
/// memory, and leaves the Vec as it was.
///
/// Page: "Dalvik Executable format", "code_item".
///
/// ```
/// use dex_code::put_code;
/// use dex_program::{Code, Insn};
/// use dex_tables::Needed;
///
/// let code = Code { registers: 0, ins: 0, outs: 0, insns: &[Insn::I10x { op: 0x0e }], tries: &[] }; // return-void
/// let ranks = Needed::new(alloc).freeze()?; // of a code that names nothing
/// let mut out = Vec::new(alloc);
/// put_code(&mut out, &ranks, &code)?;
/// assert_eq!(rt; out.len(), 18);
/// ```
pub fn put_code(out: &mut Vec<u8>, ranks: &Ranks<'_>, code: &Code<'_>) -> Result<(), Fault>
    requires formed { IsFormed (view.code code.now) }
    requires fits { FitsCode (NameRanks ranks.now) (view.code code.now) }
    requires ranked { CanBePut (NameRanks ranks.now) (view.code code.now) }
    ensures ok { OnOk result (Appends (PacksCode (NameRanks ranks.now)) out.old.items out.new.items (view.code code.now)) }
    ensures err { OnErr result (out.new.items ≡ out.old.items) }
    ensures memory { IsOkUnless result memory }
{
    let alloc = *out.allocator();
    let indices = indices_of(alloc, ranks, code.insns)?;
    let item = make_item(alloc, ranks, &indices, code)?;
    out.extend_from_slice(&item)?;
    Ok(())
}
