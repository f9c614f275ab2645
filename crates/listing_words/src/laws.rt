//! Laws of words. None has code: the contract is the law.

ghost use Rattle.std.specs.Prelude.{◌≡◌, ℕ, ◌<◌, ◌^◌, List};
ghost use Rattle.std.specs.List.{AllByRecursion};
ghost use Rattle.listing_words.specs.Words.{Word, HasWords};
ghost use Rattle.listing_words.specs.inner.Words.{IsWritable, line_bytes};
ghost use Rattle.listing_words.specs.Numbers.{SpellsNatural, SpellsBits, SpellsElements};
ghost use Rattle.listing_words.specs.Names.{SpellsUnits};
ghost use Rattle.listing_words.specs.Written.{hex_digits, flags_text, elements_text, name_text};

/// A line has its words in one way, and a word its units.
pub fn words_are_read_one_way()
    ensures line { (line : List ℕ) (vs ws : List Word) → HasWords line vs → HasWords line ws → vs ≡ ws }
    ensures units { (word us vs : List ℕ) → SpellsUnits word us → SpellsUnits word vs → us ≡ vs }
    ensures natural { (word : List ℕ) (m n : ℕ) → SpellsNatural word m → SpellsNatural word n → m ≡ n }
    ensures elements { (word bs cs : List ℕ) → SpellsElements word bs → SpellsElements word cs → bs ≡ cs }
{}

/// What is written is read as what was written.
pub fn written_words_are_read_again()
    ensures line { (ws : List Word) → AllByRecursion IsWritable ws → HasWords (line_bytes ws) ws }
    ensures name { (us : List ℕ) → AllByRecursion (λ u. u < 2 ^ 16) us → SpellsUnits (name_text us) us }
    ensures bits { (width n : ℕ) → n < 16 ^ width → SpellsBits width (hex_digits width n) n }
    ensures flags { (n : ℕ) → n < 2 ^ 32 → SpellsNatural (flags_text n) n }
    ensures elements { (bs : List ℕ) → AllByRecursion (λ b. b < 256) bs → SpellsElements (elements_text bs) bs }
{}
