//! Laws of rows and of the five tables of a file, each the contract of a function that does nothing.

ghost use Rattle.std.specs.Prelude.{◌≡◌, ℕ, ◌<◌, ◌⊎◌, List};
ghost use Rattle.program_types.specs.Content.{Units, Proto, OfText, OfDesc, OfField, OfMethod};
ghost use Rattle.tables_rows.specs.Stands.{StringStands, TypeStands, ProtoStands, NameStands};
ghost use Rattle.dex_base.specs.declared.fault.Fault.{Fault};
ghost use Rattle.dex_base.specs.Descriptor.{IsDescriptor, IsClass, IsArray, IsMemberName};
ghost use Rattle.dex_container.specs.Frame.{IsFramed};
ghost use Rattle.dex_container.specs.Where.{IsInSection};
ghost use Rattle.program_types.specs.Kinds.{void};
ghost use Rattle.program_types.specs.Shorty.{shorty};
ghost use Rattle.dex_container.specs.Layout.{size_of};
ghost use Rattle.dex_container.specs.Section as section;
ghost use Rattle.tables_rows.specs.RowFields.{string_place, type_string, proto_shorty, proto_return, proto_parameters, member_class, member_kind, member_name};
ghost use Rattle.tables_rows.specs.Sorted.{RowRises, StringIsBelow, TypeIsBelow, ProtoIsBelow, MemberIsBelow, TablesHold, AllRows};
ghost use Rattle.tables_rows.specs.TableFaults.{StringHolds, TypeHolds, ProtoHolds, FieldHolds, MethodHolds, ParametersAt, MemberIsIn, StringBreaks, TypeBreaks, ProtoBreaks, FieldBreaks, MethodBreaks, IsTableFault};

/// A row denotes one name.
pub fn row_denotes_one_name()
    ensures proto { (b : List ℕ) → IsFramed b → (i : ℕ) (p q : _) → ProtoStands b i p → ProtoStands b i q → p ≡ q }
    ensures string { (b : List ℕ) → IsFramed b → (i : ℕ) (s t : _) → NameStands b i (OfText s) → NameStands b i (OfText t) → s ≡ t }
    ensures ty { (b : List ℕ) → IsFramed b → (i : ℕ) (s t : _) → NameStands b i (OfDesc s) → NameStands b i (OfDesc t) → s ≡ t }
    ensures field { (b : List ℕ) → IsFramed b → (i : ℕ) (f g : _) → NameStands b i (OfField f) → NameStands b i (OfField g) → f ≡ g }
    ensures method { (b : List ℕ) → IsFramed b → (i : ℕ) (m n : _) → NameStands b i (OfMethod m) → NameStands b i (OfMethod n) → m ≡ n }
{}

/// A row that holds breaks no rule.
pub fn rows_that_hold_are_clear()
    ensures string { (b : List ℕ) (i code : ℕ) → StringHolds b i → ¬ StringBreaks b i code }
    ensures ty { (b : List ℕ) (i code : ℕ) → TypeHolds b i → ¬ TypeBreaks b i code }
    ensures proto { (b : List ℕ) (i code : ℕ) → ProtoHolds b i → ¬ ProtoBreaks b i code }
    ensures field { (b : List ℕ) (i code : ℕ) → FieldHolds b i → ¬ FieldBreaks b i code }
    ensures method { (b : List ℕ) (i code : ℕ) → MethodHolds b i → ¬ MethodBreaks b i code }
{}

/// A valid row keeps each rule of its table, also by itself.
pub fn rows_that_hold_keep_the_rules()
    ensures string { (b : List ℕ) (i : ℕ) → StringHolds b i → IsInSection b 0x2002 (string_place b i) × ((s : Units) × StringStands b i s) × RowRises StringIsBelow b i }
    ensures ty { (b : List ℕ) → IsFramed b → (i : ℕ) → TypeHolds b i
        → (type_string b i < size_of b section.string_ids) × ((t : Units) → StringStands b (type_string b i) t → IsDescriptor t) × RowRises TypeIsBelow b i }
    ensures proto { (b : List ℕ) → IsFramed b → (i : ℕ) → ProtoHolds b i
        → (proto_shorty b i < size_of b section.string_ids) × (proto_return b i < size_of b section.type_ids) × ((ts : List Units) × ParametersAt b (proto_parameters b i) ts)
        × ((p : Proto) (found : Units) → TypeStands b (proto_return b i) p.ret → ParametersAt b (proto_parameters b i) p.params → StringStands b (proto_shorty b i) found → found ≡ shorty p)
        × RowRises ProtoIsBelow b i }
    ensures field { (b : List ℕ) → IsFramed b → (i : ℕ) → FieldHolds b i
        → MemberIsIn b section.field_ids section.type_ids i × ((t : Units) → TypeStands b (member_class b section.field_ids i) t → IsClass t) × (¬ TypeStands b (member_kind b section.field_ids i) void)
        × ((s : Units) → StringStands b (member_name b section.field_ids i) s → IsMemberName s) × RowRises (MemberIsBelow 3) b i }
    ensures method { (b : List ℕ) → IsFramed b → (i : ℕ) → MethodHolds b i
        → MemberIsIn b section.method_ids section.proto_ids i × ((t : Units) → TypeStands b (member_class b section.method_ids i) t → IsClass t ⊎ IsArray t)
        × ((s : Units) → StringStands b (member_name b section.method_ids i) s → IsMemberName s) × RowRises (MemberIsBelow 4) b i }
{}

/// A row breaks one rule of its table.
pub fn rows_break_one_rule()
    ensures string { (b : List ℕ) (i m n : ℕ) → StringBreaks b i m → StringBreaks b i n → m ≡ n }
    ensures ty { (b : List ℕ) (i m n : ℕ) → TypeBreaks b i m → TypeBreaks b i n → m ≡ n }
    ensures proto { (b : List ℕ) (i m n : ℕ) → ProtoBreaks b i m → ProtoBreaks b i n → m ≡ n }
    ensures field { (b : List ℕ) (i m n : ℕ) → FieldBreaks b i m → FieldBreaks b i n → m ≡ n }
    ensures method { (b : List ℕ) (i m n : ℕ) → MethodBreaks b i m → MethodBreaks b i n → m ≡ n }
{}

/// The tables of a framed file are valid if and only if they have no fault.
pub fn tables_hold_without_fault()
    ensures hold { (b : List ℕ) → IsFramed b → ((e : Fault) → ¬ IsTableFault b e) → TablesHold b }
    ensures clear { (b : List ℕ) → IsFramed b → TablesHold b → (e : Fault) → ¬ IsTableFault b e }
{}

/// A row that no rule is broken at holds, where the tables before hold.
pub fn clear_rows_hold()
    ensures string { (b : List ℕ) → IsFramed b → (i : ℕ) → i < size_of b section.string_ids → ((code : ℕ) → ¬ StringBreaks b i code) → StringHolds b i }
    ensures ty { (b : List ℕ) → IsFramed b → (i : ℕ) → AllRows StringHolds b section.string_ids → i < size_of b section.type_ids → ((code : ℕ) → ¬ TypeBreaks b i code) → TypeHolds b i }
    ensures proto { (b : List ℕ) → IsFramed b → (i : ℕ) → AllRows StringHolds b section.string_ids → AllRows TypeHolds b section.type_ids → i < size_of b section.proto_ids → ((code : ℕ) → ¬ ProtoBreaks b i code) → ProtoHolds b i }
    ensures field { (b : List ℕ) → IsFramed b → (i : ℕ) → AllRows StringHolds b section.string_ids → AllRows TypeHolds b section.type_ids → i < size_of b section.field_ids → ((code : ℕ) → ¬ FieldBreaks b i code) → FieldHolds b i }
    ensures method { (b : List ℕ) → IsFramed b → (i : ℕ) → AllRows StringHolds b section.string_ids → AllRows TypeHolds b section.type_ids → AllRows ProtoHolds b section.proto_ids → i < size_of b section.method_ids → ((code : ℕ) → ¬ MethodBreaks b i code) → MethodHolds b i }
{}

/// The tables of a framed file are valid, or have a fault.
#[tactic(auto, using(crate::proofs::RowsBreak::tables_are_decided))]
pub fn tables_are_decided()
    ensures { (b : List ℕ) → IsFramed b → TablesHold b ⊎ ((e : Fault) × IsTableFault b e) }
{}

/// The tables have one fault: one number, at one place.
pub fn one_table_fault()
    ensures { (b : List ℕ) (e f : Fault) → IsTableFault b e → IsTableFault b f → e ≡ f }
{}
