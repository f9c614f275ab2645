//! Laws of aligned codes: functions that do nothing, whose contracts are the laws.

ghost use Rattle.std.specs.Prelude.{◌≡◌};
ghost use Rattle.program_types.specs.Content.{Code};
ghost use Rattle.code_align.specs.Aligned.{Aligned, PayloadsEven};

/// There is a way to align each code. So `align` returns 90 only because of the number of instructions.
pub fn aligned_exists()
    ensures { (c : Code) → (d : Code) × Aligned c d }
{}

/// There is one way to align a code.
pub fn aligned_is_one()
    ensures { (c d e : Code) → Aligned c d → Aligned c e → d ≡ e }
{}

/// Where no payload has an odd address nothing changes.
pub fn aligned_is_same()
    ensures { (c d : Code) → PayloadsEven 0 c.insns → Aligned c d → d ≡ c }
{}
