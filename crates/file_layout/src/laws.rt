//! Laws of laid items and of finished files, each the contract of a function that does nothing else.

ghost use Rattle.std.specs.Prelude.{ℕ, ◌<◌, List};
ghost use Rattle.dex_container.specs.Frame.{IsFramed};
ghost use Rattle.dex_container.specs.Layout.{entry_count, kind_at};
ghost use Rattle.file_layout.specs.declared.plan.Plan.{Plan};
ghost use Rattle.file_layout.specs.inner.Header.{HasHeader};
ghost use Rattle.file_layout.specs.inner.Laws.{LaidItemsStay, LaidItemsStand, OneMoreItemIsLaid};
ghost use Rattle.file_layout.specs.inner.Once.{LayingsAreOne, WrittenIsOne};
ghost use Rattle.file_layout.specs.Parts.{IsWrittenKind};
ghost use Rattle.file_layout.specs.inner.Parts.{HasPart};
ghost use Rattle.file_layout.specs.inner.Plan.{IsWritten};
ghost use Rattle.file_layout.specs.inner.Sections.{IsItself, is_empty_list};

/// A file that is written by a plan is framed, the header has the plan's fields, each part is in the section of its kind, and the map
/// lists no other kinds than those that a written file has.
pub fn written_is_framed()
    ensures framed { (b : List ℕ) (p : Plan) (map : ℕ) → IsWritten b p map → IsFramed b }
    ensures header { (b : List ℕ) (p : Plan) (map : ℕ) → IsWritten b p map → HasHeader b p.rows map }
    ensures lists { (b : List ℕ) (p : Plan) (map : ℕ) → IsWritten b p map → HasPart b 0x1001 p.lists }
    ensures codes { (b : List ℕ) (p : Plan) (map : ℕ) → IsWritten b p map → HasPart b 0x2001 p.codes }
    ensures strings { (b : List ℕ) (p : Plan) (map : ℕ) → IsWritten b p map → HasPart b 0x2002 p.strings }
    ensures arrays { (b : List ℕ) (p : Plan) (map : ℕ) → IsWritten b p map → HasPart b 0x2005 p.arrays }
    ensures datas { (b : List ℕ) (p : Plan) (map : ℕ) → IsWritten b p map → HasPart b 0x2000 p.datas }
    ensures kinds { (b : List ℕ) (p : Plan) (map : ℕ) → IsWritten b p map → (i : ℕ) → i < entry_count b → IsWrittenKind (kind_at b i) }
{}

/// Items that are laid one after the other are laid so in any bytes that agree with theirs.
pub fn laid_items_stay()
    ensures { LaidItemsStay }
{}

/// With one more item after them, at the next offset that 4 divides, items are laid as before; a value without an item has
/// offset 0.
pub fn one_more_item_is_laid()
    ensures { OneMoreItemIsLaid }
{}

/// Items that are laid in a part are in the section of its kind, 4-aligned, each at the offset that refers to it.
pub fn laid_items_stand()
    ensures { LaidItemsStand }
{}

/// Lists of bytes that are laid from the same place on, equal ones in one item, are laid in one way.
pub fn layings_are_one()
    ensures { (align : ℕ) → LayingsAreOne {V = List ℕ} is_empty_list IsItself align }
{}

/// Files that are written by one plan and agree between the header and the map are one: plan and bytes decide header, map,
/// signature and checksum.
pub fn written_is_one()
    ensures { WrittenIsOne }
{}
