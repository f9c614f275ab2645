//! Laws of numbers, and of one spelling after another: functions that do nothing, whose contracts are the laws.

ghost use Rattle.std.specs.Prelude.{◌≡◌, ℕ, ◌<◌, List, ℤ, length, drop, map, All};
ghost use Rattle.dex_base.specs.Grammar.{Begins, NoneBegins, Takes, IsPrefixUnique, Pair, Each, Placed, Counted, Seen};
ghost use Rattle.dex_base.specs.Deciding.{DecidedFront};
ghost use Rattle.dex_base.specs.Leb128.{Spells, SpellsSigned, Shortest};

/// No encoding of an unsigned number is a prefix of another one, and it encodes one number.
pub fn uleb_is_prefix_unique()
    ensures { IsPrefixUnique Spells }
{}

/// "A prefix encodes it" and "it is at the front, followed by these bytes" are equivalent.
pub fn number_at_the_front_is_one()
    ensures takes { (bytes : List ℕ) (n len : ℕ) → Begins Spells bytes n len → Takes Spells bytes n (drop len bytes) }
    ensures one { (bytes r s : List ℕ) (m n : ℕ) → Takes Spells bytes m r → Takes Spells bytes n s → (m ≡ n) × (r ≡ s) }
    ensures none { (bytes rest : List ℕ) (n : ℕ) → NoneBegins Spells bytes → Takes Spells bytes n rest → ⊥ }
{}

/// No encoding of a signed number is a prefix of another one, and it encodes one number.
pub fn sleb_is_prefix_unique()
    ensures { IsPrefixUnique SpellsSigned }
{}

/// No encoding of a pair of numbers is a prefix of another one, and it encodes one pair; likewise for a value made from the
/// pair, here the pair with its second number first.
pub fn pair_is_prefix_unique()
    ensures pair { IsPrefixUnique (Pair Spells SpellsSigned) }
    ensures seen { IsPrefixUnique (Seen (λ (p : ℤ × ℕ). (p.1, p.0)) (Pair Spells SpellsSigned)) }
{}

/// No encoding of a counted list of pairs of numbers is a prefix of another one, and it encodes one list.
pub fn counted_list_is_prefix_unique()
    ensures { IsPrefixUnique (Counted Spells (Pair Spells Spells)) }
{}

/// Each number has one shortest spelling in bytes.
pub fn shortest_spelling_is_one()
    ensures unsigned { (a b : List ℕ) (n : ℕ) → All (λ byte. byte < 256) a → All (λ byte. byte < 256) b → Shortest Spells a n → Shortest Spells b n → a ≡ b }
    ensures signed { (a b : List ℕ) (z : ℤ) → All (λ byte. byte < 256) a → All (λ byte. byte < 256) b → Shortest SpellsSigned a z → Shortest SpellsSigned b z → a ≡ b }
{}

/// Numbers one after the other have their places, and no others.
pub fn places_of_numbers_are_decided()
    ensures some { (place : ℕ) (bytes : List ℕ) (numbers : List ℕ) → Each Spells bytes numbers → (placed : List (ℕ × ℕ)) × Placed Spells place bytes placed × (map (λ p. p.1) placed ≡ numbers) }
    ensures one { (place : ℕ) (bytes : List ℕ) (a b : List (ℕ × ℕ)) → length a ≡ length b → Placed Spells place bytes a → Placed Spells place bytes b → a ≡ b }
{}

/// Any bytes begin with an unsigned number, or with none: this is decided.
pub fn numbers_are_decided()
    ensures { (bytes : List ℕ) → DecidedFront Spells bytes }
{}
