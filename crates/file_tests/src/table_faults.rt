//! The faults of the five tables, each by a file that breaks one rule, and which of two is answered.

use crate::fault_case::FaultCase;
use crate::fault_case::Query::Rows;
use crate::made::Made::{Both, Named, One};
use dex_base::fault;
use dex_samples::all_hold;
use std::test::Fail;

#[rattlefmt::skip]
#[test]
fn each_rule_of_strings_and_types_has_its_fault(rt: HostRuntime) -> Result<(), Fail> {
    static CASES: [FaultCase; 31] = [
        // Type row 1 made string 0, as row 0. The shorty of `()V` made `m`. The string `m` made `U`, below the
        // `V` before it; its size made 2, but a byte 00 is no unit. The places of the string `LA;` and of the
        // parameters made 192, in the section of code items. The map's entry of strings made one of debug_info,
        // and that of class data made to begin at the end byte of `m`.
        FaultCase(Rows, "the file as it is", One(0x7f, &[0x00, 0x00]), (0, 0)),
        FaultCase(Rows, "a type as before", One(0x84, &[0x00, 0x00]), (fault::TYPE_ORDER, 132)),
        FaultCase(Rows, "another shorty", One(0x8c, &[0x03, 0x00]), (fault::SHORTY, 140)),
        FaultCase(Rows, "a lower string", One(0xef, &[0x55, 0x00]), (fault::STRING_ORDER, 124)),
        FaultCase(Rows, "a string of two units", One(0xee, &[0x02, 0x6d]), (fault::STRING_SPELLING, 124)),
        FaultCase(Rows, "a string among code", One(0x70, &[0xc0, 0x00]), (fault::STRING_PLACE, 112)),
        FaultCase(Rows, "parameters among code", One(0x94, &[0xc0, 0x00]), (fault::PARAMETER_LIST, 140)),
        FaultCase(Rows, "no section of strings", One(0x154, &[0x03, 0x20]), (fault::STRING_PLACE, 112)),
        FaultCase(Rows, "a section one byte shorter", One(0x168, &[0xf0, 0x00]), (fault::STRING_SPELLING, 124)),
        // At 388 stands `b`, 01 62 00, and then 00. Two bytes of it are changed at 388 or 389. All other
        // changes are of a row.
        FaultCase(Rows, "an offset below the section", Named(112, 343), (fault::STRING_PLACE, 112)),
        FaultCase(Rows, "the section's end", Named(152, 392), (fault::STRING_PLACE, 152)),
        FaultCase(Rows, "an offset past the file", Named(154, 0xffff), (fault::STRING_PLACE, 152)),
        FaultCase(Rows, "the section's last byte: no end byte", Named(152, 391), (fault::STRING_SPELLING, 152)),
        FaultCase(Rows, "a size of 2 for one unit", Named(388, 0x6202), (fault::STRING_SPELLING, 152)),
        FaultCase(Rows, "an end byte of 55", Named(389, 0x5562), (fault::STRING_SPELLING, 152)),
        FaultCase(Rows, "`a` in two bytes", Named(389, 0xa1c1), (fault::STRING_SPELLING, 152)),
        FaultCase(Rows, "U+00E1 in two bytes", Named(389, 0xa1c3), (0, 0)),
        FaultCase(Rows, "no unit, the size in two bytes", Named(388, 0x0080), (fault::STRING_ORDER, 152)),
        FaultCase(Rows, "a string: the string before", Named(152, 385), (fault::STRING_ORDER, 152)),
        FaultCase(Rows, "a string: a lower string", Named(152, 352), (fault::STRING_ORDER, 152)),
        FaultCase(Rows, "the beginning of the string before", Named(136, 365), (fault::STRING_ORDER, 136)),
        FaultCase(Rows, "a string that the next one equals", Named(132, 372), (fault::STRING_ORDER, 136)),
        // At 355 stands `LA;`, 03 4c 41 3b 00, and at 381 `[I`, 02 5b 49 00; the changes at 357 and 382 are of
        // these.
        FaultCase(Rows, "no such string", Named(164, 11), (fault::TYPE_INDEX, 164)),
        FaultCase(Rows, "a string 65536 higher", Named(174, 1), (fault::TYPE_INDEX, 172)),
        FaultCase(Rows, "`<init>`", Named(156, 0), (fault::TYPE_TEXT, 156)),
        FaultCase(Rows, "`VI`", Named(168, 5), (fault::TYPE_TEXT, 168)),
        FaultCase(Rows, "`[V`", Named(382, 0x565b), (fault::TYPE_TEXT, 172)),
        FaultCase(Rows, "`LA/`", Named(357, 0x2f41), (fault::TYPE_TEXT, 160)),
        FaultCase(Rows, "a type: the string before", Named(160, 1), (fault::TYPE_ORDER, 160)),
        FaultCase(Rows, "a type: a lower string", Named(164, 1), (fault::TYPE_ORDER, 164)),
        FaultCase(Rows, "a lower string that is no descriptor", Named(172, 0), (fault::TYPE_TEXT, 172)),
    ];
    all_hold(rt.alloc(), &CASES)
}

#[rattlefmt::skip]
#[test]
fn each_rule_of_parameters_and_protos_has_its_fault(rt: HostRuntime) -> Result<(), Fail> {
    static CASES: [FaultCase; 26] = [
        // The place of the parameters is at 196 for `()V` (the row at 188), at 208 for `(I)V` (the row at 200)
        // and at 244 for `(LB;)V` (the row at 236). From 312 on stands 01 00 00 00 00 00 00 00, of `(I)V`, and
        // from 336 on 01 00 00 00 02 00 00 00, of `(LB;)V`. The last two bytes are in no list, but in the
        // section, which ends where that of the strings begins (488).
        FaultCase(Rows, "the section's end", Named(208, 344), (fault::PARAMETER_LIST, 200)),
        FaultCase(Rows, "an offset below the section", Named(208, 308), (fault::PARAMETER_LIST, 200)),
        FaultCase(Rows, "an offset past the file", Named(246, 0xffff), (fault::PARAMETER_LIST, 236)),
        FaultCase(Rows, "a list of size 0", Named(196, 316), (0, 0)),
        FaultCase(Rows, "a misaligned list of size 0", Named(196, 314), (fault::PARAMETER_LIST, 188)),
        FaultCase(Rows, "two types up to the section's end", Named(336, 2), (fault::SHORTY, 236)),
        FaultCase(Rows, "three types, one past the section", Named(336, 3), (fault::PARAMETER_LIST, 236)),
        FaultCase(Rows, "4294901761 types", Named(338, 0xffff), (fault::PARAMETER_LIST, 236)),
        FaultCase(Rows, "a list that ends with the section", Named(488, 342), (0, 0)),
        FaultCase(Rows, "a section one byte shorter", Named(488, 341), (fault::PARAMETER_LIST, 236)),
        FaultCase(Rows, "a size alone", Named(244, 340), (fault::PARAMETER_LIST, 236)),
        FaultCase(Rows, "no such type", Named(340, 5), (fault::PARAMETER_LIST, 236)),
        FaultCase(Rows, "a parameter V, and another shorty", Named(340, 3), (fault::PARAMETER_LIST, 236)),
        // The parameters of `(I)V` are at 316, those of `(I[I)V` at 324 and 326, of `(LA;)V` at 332, of
        // `(LB;)V` at 340.
        FaultCase(Rows, "no such shorty", Named(188, 11), (fault::PROTO_INDEX, 188)),
        FaultCase(Rows, "a shorty 65536 higher", Named(190, 1), (fault::PROTO_INDEX, 188)),
        FaultCase(Rows, "no such return type", Named(192, 5), (fault::PROTO_INDEX, 188)),
        FaultCase(Rows, "`V` for `()I`", Named(176, 4), (fault::SHORTY, 176)),
        FaultCase(Rows, "`V` for `()LA;`", Named(192, 1), (fault::SHORTY, 188)),
        FaultCase(Rows, "`V` for `(I)V`", Named(200, 4), (fault::SHORTY, 200)),
        FaultCase(Rows, "`VIL` for `(I)V`", Named(200, 6), (fault::SHORTY, 200)),
        FaultCase(Rows, "`VI` for `(LA;)V`", Named(316, 1), (fault::SHORTY, 200)),
        FaultCase(Rows, "`VIL` for `(II)V`", Named(326, 0), (fault::SHORTY, 212)),
        FaultCase(Rows, "`VIL` for `(ILA;)V`", Named(326, 1), (0, 0)),
        FaultCase(Rows, "`VL` for `(I)V`, which is lower", Named(340, 0), (fault::SHORTY, 236)),
        FaultCase(Rows, "the parameters before", Named(340, 1), (fault::PROTO_ORDER, 236)),
        FaultCase(Rows, "lower parameters", Named(332, 4), (fault::PROTO_ORDER, 236)),
    ];
    all_hold(rt.alloc(), &CASES)
}

#[rattlefmt::skip]
#[test]
fn each_rule_of_fields_and_methods_has_its_fault(rt: HostRuntime) -> Result<(), Fail> {
    static CASES: [FaultCase; 32] = [
        // The rows are `LA;->a:I` (248), `LA;->b:I` (256), `LA;->b:LA;` (264), `LB;->a:[I` (272).
        FaultCase(Rows, "a field: no such class", Named(256, 5), (fault::FIELD_INDEX, 256)),
        FaultCase(Rows, "no such type", Named(258, 5), (fault::FIELD_INDEX, 256)),
        FaultCase(Rows, "a field: no such name", Named(260, 11), (fault::FIELD_INDEX, 256)),
        FaultCase(Rows, "a name 65536 higher", Named(262, 1), (fault::FIELD_INDEX, 256)),
        FaultCase(Rows, "a field of an array class", Named(272, 4), (fault::FIELD_KIND, 272)),
        FaultCase(Rows, "a field of class I", Named(248, 0), (fault::FIELD_KIND, 248)),
        FaultCase(Rows, "a field of class V", Named(272, 3), (fault::FIELD_KIND, 272)),
        FaultCase(Rows, "a field of class I, lower", Named(272, 0), (fault::FIELD_KIND, 272)),
        FaultCase(Rows, "a field of type V", Named(274, 3), (fault::FIELD_KIND, 272)),
        FaultCase(Rows, "a field: the name `LA;`", Named(252, 2), (fault::FIELD_KIND, 248)),
        FaultCase(Rows, "the name `[I`", Named(276, 8), (fault::FIELD_KIND, 272)),
        FaultCase(Rows, "the name `<init>`", Named(252, 0), (0, 0)),
        FaultCase(Rows, "the field before", Named(260, 9), (fault::FIELD_ORDER, 256)),
        FaultCase(Rows, "a field: a lower class", Named(248, 2), (fault::FIELD_ORDER, 256)),
        FaultCase(Rows, "a lower name", Named(260, 0), (fault::FIELD_ORDER, 256)),
        FaultCase(Rows, "a lower name, a higher type", Named(268, 9), (fault::FIELD_ORDER, 264)),
        FaultCase(Rows, "the field after", Named(258, 1), (fault::FIELD_ORDER, 264)),
        FaultCase(Rows, "a higher type than the next", Named(258, 4), (fault::FIELD_ORDER, 264)),
        // The rows are `LA;-><init>()V` (280), `LA;->a()I` (288), `LA;->a(I)V` (296), `[I->a()I` (304).
        FaultCase(Rows, "a method: no such class", Named(288, 5), (fault::METHOD_INDEX, 288)),
        FaultCase(Rows, "no such proto", Named(290, 6), (fault::METHOD_INDEX, 288)),
        FaultCase(Rows, "a method: no such name", Named(292, 11), (fault::METHOD_INDEX, 288)),
        FaultCase(Rows, "a method of class I", Named(280, 0), (fault::METHOD_KIND, 280)),
        FaultCase(Rows, "a method of class V", Named(280, 3), (fault::METHOD_KIND, 280)),
        FaultCase(Rows, "a method of class I, lower", Named(304, 0), (fault::METHOD_KIND, 304)),
        FaultCase(Rows, "a method: the name `LA;`", Named(308, 2), (fault::METHOD_KIND, 304)),
        FaultCase(Rows, "the name `<init>` in an array class", Named(308, 0), (0, 0)),
        FaultCase(Rows, "the method before", Named(298, 0), (fault::METHOD_ORDER, 296)),
        FaultCase(Rows, "a method: a lower class", Named(280, 4), (fault::METHOD_ORDER, 288)),
        FaultCase(Rows, "a lower name, a higher proto", Named(300, 0), (fault::METHOD_ORDER, 296)),
        FaultCase(Rows, "the name before, a lower proto", Named(292, 0), (fault::METHOD_ORDER, 288)),
        FaultCase(Rows, "a higher proto than the next", Named(290, 4), (fault::METHOD_ORDER, 296)),
        FaultCase(Rows, "the class before, a lower proto", Named(304, 1), (fault::METHOD_ORDER, 304)),
    ];
    all_hold(rt.alloc(), &CASES)
}

#[rattlefmt::skip]
#[test]
fn the_first_fault_of_the_lowest_row_of_the_first_table_is_answered(rt: HostRuntime) -> Result<(), Fail> {
    static CASES: [FaultCase; 16] = [
        // The row at 188 is `()V`, at 236 `(LB;)V`, at 272 a field, at 304 a method; 314 and 338 are
        // misaligned.
        FaultCase(Rows, "26 of the shorty, 28", Both((188, 11), (196, 314)), (fault::PROTO_INDEX, 188)),
        FaultCase(Rows, "26 of the type, 28", Both((192, 5), (196, 314)), (fault::PROTO_INDEX, 188)),
        FaultCase(Rows, "28, 27", Both((188, 1), (196, 314)), (fault::PARAMETER_LIST, 188)),
        FaultCase(Rows, "28, 29", Both((240, 0), (244, 338)), (fault::PARAMETER_LIST, 236)),
        FaultCase(Rows, "27, 29", Both((240, 0), (236, 1)), (fault::SHORTY, 236)),
        FaultCase(Rows, "30 of the name, 31", Both((272, 0), (276, 11)), (fault::FIELD_INDEX, 272)),
        FaultCase(Rows, "33 of the name, 34", Both((304, 0), (308, 11)), (fault::METHOD_INDEX, 304)),
        FaultCase(Rows, "22, then 20", Both((136, 365), (152, 392)), (fault::STRING_ORDER, 136)),
        FaultCase(Rows, "25, then 23", Both((160, 1), (168, 11)), (fault::TYPE_ORDER, 160)),
        FaultCase(Rows, "27, then 26", Both((176, 4), (236, 11)), (fault::SHORTY, 176)),
        FaultCase(Rows, "32, then 30", Both((260, 9), (272, 5)), (fault::FIELD_ORDER, 256)),
        FaultCase(Rows, "35, then 33", Both((298, 0), (304, 5)), (fault::METHOD_ORDER, 296)),
        FaultCase(Rows, "a string, a type", Both((152, 385), (156, 11)), (fault::STRING_ORDER, 152)),
        FaultCase(Rows, "a type, a proto", Both((172, 11), (176, 11)), (fault::TYPE_INDEX, 172)),
        FaultCase(Rows, "a proto, a field", Both((244, 338), (248, 5)), (fault::PARAMETER_LIST, 236)),
        FaultCase(Rows, "a field, a method", Both((272, 4), (280, 5)), (fault::FIELD_KIND, 272)),
    ];
    all_hold(rt.alloc(), &CASES)
}
