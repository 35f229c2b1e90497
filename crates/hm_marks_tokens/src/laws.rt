//! Laws of tokens and of what is written.
ghost use Rattle.std.specs.Prelude.{◌≡◌, ◌↔◌, ℕ, length, Bool, true, false, List, Some, [], ◌++◌};
ghost use Rattle.std.specs.List.{AllByRecursion};
ghost use Rattle.hm_marks_tokens.specs.Bytes.{has_quote};
ghost use Rattle.hm_marks_tokens.specs.Symbols.{Symbol as SeenSymbol, IsNextSymbol};
ghost use Rattle.hm_marks_tokens.specs.Attributes.{Attribute as SeenAttribute, AreAttributes, attributes_of, are_of_link, address_of, with_address};
ghost use Rattle.hm_marks_tokens.specs.Reading.{IsFolder, HasFolder, IsMisfit};
ghost use Rattle.hm_marks_tokens.specs.Grammar.{Contents, folder_symbols, IsListOf};
ghost use Rattle.hm_marks_tokens.specs.Lines.{Lines, IsLine, AreBehindName, AreRead, laid_list};

/// Bytes have at most one next symbol, and one rest behind it.
pub fn symbols_are_known()
    ensures { (titled : Bool) (bytes : List ℕ) (m n : SeenSymbol) (r s : List ℕ) → IsNextSymbol titled bytes m r → IsNextSymbol titled bytes n s → (m ≡ n) × (r ≡ s) }
{}

/// What `skip_folder` answers is all that may be answered: bytes begin with at most one folder, and else have one first symbol
/// that doesn't fit.
pub fn folders_are_known()
    ensures rest { (bytes r s : List ℕ) → IsFolder bytes r → IsFolder bytes s → r ≡ s }
    ensures misfit { (bytes r : List ℕ) (n : ℕ) → IsFolder bytes r → IsMisfit bytes n → ⊥ }
    ensures number { (bytes : List ℕ) (m n : ℕ) → IsMisfit bytes m → IsMisfit bytes n → m ≡ n }
{}

/// The folders that `skip_folder` finds are those of the grammar, each with as many symbols, and bytes begin with one of them at
/// most.
pub fn folders_are_of_the_grammar()
    ensures grammar { (bytes rest : List ℕ) → IsFolder bytes rest ↔ ((contents : Contents) × IsListOf bytes contents rest) }
    ensures count { (bytes rest : List ℕ) (n : ℕ) → HasFolder bytes rest n → (c : Contents) × (IsListOf bytes c rest × (n ≡ length (folder_symbols c))) }
    ensures contents { (bytes : List ℕ) (c d : Contents) (r s : List ℕ) → IsListOf bytes c r → IsListOf bytes d s → c ≡ d }
{}

/// The attributes that bytes are spelled by are those that are found.
pub fn attributes_are_found()
    ensures { (bytes : List ℕ) (attributes : List SeenAttribute) (ending : List ℕ) → AreAttributes bytes attributes ending → attributes_of bytes ≡ (attributes, ending) }
{}

/// Attributes may stand behind the name of a tag: there the tag goes on to its own `>`.
pub fn attributes_stand_in_tags()
    ensures { (bytes : List ℕ) (attributes : List SeenAttribute) (ending : List ℕ) → AreAttributes bytes attributes ending → AreBehindName bytes }
{}

/// Another address of a link, which has no `"`, is found in its place.
pub fn addresses_are_replaced()
    ensures link { (address bytes : List ℕ) → has_quote address ≡ false → are_of_link bytes ≡ true → are_of_link (with_address address bytes) ≡ true }
    ensures address { (address bytes : List ℕ) → has_quote address ≡ false → are_of_link bytes ≡ true → address_of (with_address address bytes) ≡ Some address }
{}

/// Lines that are written, and the end of their list, are read as their symbols again, but for white space at the end of notes,
/// whatever stands behind them.
pub fn lines_are_read()
    ensures { (n : ℕ) (lines : Lines) (rest : List ℕ) → AllByRecursion IsLine lines → AreRead (laid_list n lines ++ rest) lines rest }
{}
