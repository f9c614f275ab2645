//! Laws of tables in memory beside the file that they were read from, each the contract of a function that does nothing. The law for
//! any grammar is in `proofs/Standing`: `At-one`, that one value is at a place if no encoding is a prefix of another one.
ghost use Rattle.std.specs.Prelude.{◌≡◌, ℕ, List};
ghost use Rattle.dex_container.specs.Frame.{IsFramed};
ghost use Rattle.tables_rows.specs.Names.{AreNamesOf, NameIsAt, TypeIsAt};
ghost use Rattle.tables_rows.specs.Stands.{ListAt, NameStands, TypesAt};

/// At most one list of types is at an offset.
pub fn type_list_is_one()
    ensures { (b : List ℕ) → IsFramed b → (off : ℕ) (xs ys : _) → TypesAt b off xs → TypesAt b off ys → xs ≡ ys }
{}

/// The file of tables: an index denotes a name in the file if and only if it does in the file's tables.
pub fn names_of_a_file_are_its_rows()
    ensures there { (b : List ℕ) (names : _) (i : ℕ) (n : _) → AreNamesOf b names → NameIsAt names i n → NameStands b i n }
    ensures only { (b : List ℕ) (names : _) (i : ℕ) (n : _) → IsFramed b → AreNamesOf b names → NameStands b i n → NameIsAt names i n }
    ensures one { (b : List ℕ) (x y : _) → IsFramed b → AreNamesOf b x → AreNamesOf b y → x ≡ y }
{}

/// A list of types is at an offset of a file if and only if it is by the types of the file's tables.
pub fn lists_of_a_file_are_of_its_rows()
    ensures there { (b : List ℕ) (names : _) (off : ℕ) (ts : _) → AreNamesOf b names → ListAt (TypeIsAt names.types) b off ts → TypesAt b off ts }
    ensures only { (b : List ℕ) (names : _) (off : ℕ) (ts : _) → IsFramed b → AreNamesOf b names → TypesAt b off ts → ListAt (TypeIsAt names.types) b off ts }
{}
