//! dex_tables.
ghost use Rattle.std.specs.Prelude.{All, map};
ghost use Rattle.dex_base.specs.Descriptor.{IsDescriptor};
ghost use Rattle.program_types.specs.View.{desc};

use bumpalo::Bump;
use dex_base::Fault;
use dex_container::Sections;
use dex_program::{Desc, FieldRef, MethodRef, Proto, Str};
use dex_tables::{Needed, Ranks, Row, Tables};
use std::alloc::Global;

/// What `Row` is asked of.
pub fn row<N: Row>(name: N) -> N {
    name
}

/// Each of the five kinds of names is a row.
pub fn rows<'a>(
    text: Str<'a>,
    ty: Desc<'a>,
    proto: Proto<'a>,
    field: FieldRef<'a>,
    method: MethodRef<'a>,
) {
    let _ = row(text);
    let _ = row(ty);
    let _ = row(proto);
    let _ = row(field);
    let _ = row(method);
}

pub fn tables_read<'a>(
    alloc: Global,
    arena: &'a Bump,
    sections: &Sections<'_>,
) -> Result<Tables<'a>, Fault> {
    Tables::read(alloc, arena, sections)
}

pub fn string_at<'a>(tables: &Tables<'a>, row: u32) -> Option<Str<'a>> {
    tables.string(row)
}

pub fn type_at<'a>(tables: &Tables<'a>, row: u32) -> Option<Desc<'a>> {
    tables.type_(row)
}

pub fn proto_at<'a>(tables: &Tables<'a>, row: u32) -> Option<&'a Proto<'a>> {
    tables.proto(row)
}

pub fn field_at<'a>(tables: &Tables<'a>, row: u32) -> Option<&'a FieldRef<'a>> {
    tables.field(row)
}

pub fn method_at<'a>(tables: &Tables<'a>, row: u32) -> Option<&'a MethodRef<'a>> {
    tables.method(row)
}

pub fn types_listed<'a>(
    alloc: Global,
    tables: &Tables<'a>,
    arena: &'a Bump,
    sections: &Sections<'_>,
    off: u32,
) -> Result<Option<&'a [Desc<'a>]>, Fault> {
    tables.type_list(alloc, arena, sections, off)
}

pub fn nothing_needed<'a>(alloc: Global) -> Needed<'a> {
    Needed::new(alloc)
}

pub fn string_added<'a>(needed: &mut Needed<'a>, name: Str<'a>) -> Result<(), Fault> {
    needed.add_string(name)
}

pub fn type_added<'a>(needed: &mut Needed<'a>, name: Desc<'a>) -> Result<(), Fault> {
    needed.add_type(name)
}

pub fn proto_added<'a>(
    needed: &mut Needed<'a>,
    arena: &'a Bump,
    name: &Proto<'a>,
) -> Result<(), Fault>
    requires ret { IsDescriptor (desc name.now.ret) }
    requires params { All IsDescriptor (map desc name.now.params.now) }
{
    needed.add_proto(arena, name)
}

pub fn field_added<'a>(needed: &mut Needed<'a>, name: &FieldRef<'a>) -> Result<(), Fault> {
    needed.add_field(name)
}

pub fn method_added<'a>(
    needed: &mut Needed<'a>,
    arena: &'a Bump,
    name: &MethodRef<'a>,
) -> Result<(), Fault>
    requires ret { IsDescriptor (desc name.now.proto.now.ret) }
    requires params { All IsDescriptor (map desc name.now.proto.now.params.now) }
{
    needed.add_method(arena, name)
}

pub fn frozen<'a>(needed: Needed<'a>) -> Result<Ranks<'a>, Fault> {
    needed.freeze()
}

pub fn ranks_of<'a>(
    ranks: &Ranks<'a>,
    text: Str<'a>,
    ty: Desc<'a>,
    proto: &Proto<'a>,
    field: &FieldRef<'a>,
    method: &MethodRef<'a>,
) -> [Option<u32>; 5] {
    [
        ranks.index_of_string(text),
        ranks.index_of_type(ty),
        ranks.index_of_proto(proto),
        ranks.index_of_field(field),
        ranks.index_of_method(method),
    ]
}

pub fn string_ranked<'a>(ranks: &Ranks<'a>, rank: u32) -> Option<Str<'a>> {
    ranks.string(rank)
}

pub fn type_ranked<'a>(ranks: &Ranks<'a>, rank: u32) -> Option<Desc<'a>> {
    ranks.type_(rank)
}

pub fn proto_ranked<'a>(ranks: &Ranks<'a>, rank: u32) -> Option<Proto<'a>> {
    ranks.proto(rank)
}

pub fn field_ranked<'a>(ranks: &Ranks<'a>, rank: u32) -> Option<FieldRef<'a>> {
    ranks.field(rank)
}

pub fn method_ranked<'a>(ranks: &Ranks<'a>, rank: u32) -> Option<MethodRef<'a>> {
    ranks.method(rank)
}
