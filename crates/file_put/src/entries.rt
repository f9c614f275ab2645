//! The entries of class data.
//! Page: "Dalvik Executable format", "encoded_field", "encoded_method".
ghost use Rattle.std.specs.Prelude.{OnOk, IsOkUnless};
ghost use Rattle.dex_base.specs.Fault.{memory};
ghost use Rattle.dex_base.specs.Grammar.{Appends};
ghost use Rattle.dex_base.specs.Leb128.{Spells, Shortest};
ghost use Rattle.file_classes.specs.ClassData.{SpellsFieldEntry, SpellsMethodEntry};

use dex_base::{Fault, put_uleb};

/// Appends a field's entry: how far its index is from that of the entry before, and its flags.
///
/// It fails only when out of memory.
pub fn put_field(out: &mut Vec<u8>, step: u32, flags: u32) -> Result<(), Fault>
    ensures ok { OnOk result (Appends (SpellsFieldEntry (Shortest Spells)) out.old.items out.new.items (step, flags)) }
    ensures memory { IsOkUnless result memory }
{
    put_uleb(out, step)?;
    put_uleb(out, flags)
}

/// Appends a method's entry: the same, and the place of its body.
///
/// It fails only when out of memory.
pub fn put_method(out: &mut Vec<u8>, step: u32, flags: u32, code: u32) -> Result<(), Fault>
    ensures ok { OnOk result (Appends (SpellsMethodEntry (Shortest Spells)) out.old.items out.new.items (step, (flags, code))) }
    ensures memory { IsOkUnless result memory }
{
    put_uleb(out, step)?;
    put_uleb(out, flags)?;
    put_uleb(out, code)
}
