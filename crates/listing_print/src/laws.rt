//! Laws of printed text. None has code: the contract is the law.

ghost use Rattle.std.specs.Prelude.{◌≡◌, ℕ, ◌<◌, ◌^◌, ◌++◌, ◌∷◌, [], true, map, Some};
ghost use Rattle.std.specs.Fmt.{decimal};
ghost use Rattle.listing_words.specs.Words.{plain_word};
ghost use Rattle.listing_words.specs.Numbers.{is_number};
ghost use Rattle.listing_slots.specs.Keys.{key_text};
ghost use Rattle.listing_slots.specs.Shapes.{HasShape, HasBareShape, IsKeyed, value_slots};
ghost use Rattle.listing_lines.specs.declared.form.Form.{Form};
ghost use Rattle.listing_lines.specs.declared.form.Form.TheVariants.{One, Two};
ghost use Rattle.listing_print.specs.Printed.{line_key, line_operands, insn_word};
ghost use Rattle.listing_print.specs.inner.Reading.{slots_of, data_of, words_in, FitOperands, line_kind, IsKeyedLine, insn_kind, OpcodeFits};
ghost use Rattle.program_types.specs.Content.{Value, Insn};
ghost use Rattle.listing_slots.specs.declared.due.Due.TheVariants as due;
ghost use Rattle.listing_slots.specs.Shown.{shown};
ghost use Rattle.listing_lines.specs.Lines.{Line, insn_line, line_of, value_of};
ghost use Rattle.listing_print.specs.Operands.{value_operands, insn_operands};

/// The printed words of a value have the slots of the value, and mean the value again.
pub fn printed_values_are_read_again()
    ensures slots { (v : Value) → value_slots (due.Value 0) (map (λ o. shown o.slot o.value) (value_operands v)) ≡ Some (map (λ o. o.slot) (value_operands v)) }
    ensures value { (v : Value) → value_of (map (λ o. o.value) (value_operands v)) ≡ v }
{}

/// The printed words of a line that begins with a keyword have the line's shape in both forms, and mean the line again.
pub fn printed_lines_are_read_again()
    ensures shape { (form : Form) (l : Line) → IsKeyedLine l → FitOperands (line_operands l)
        → IsKeyed (plain_word (key_text (line_key l)) ∷ words_in form (line_operands l)) (record { kind = line_kind l; label = []; slots = slots_of (line_operands l); words = words_in form (line_operands l) }) }
    ensures value { (l : Line) → IsKeyedLine l → line_of (line_kind l) (data_of (line_operands l)) ≡ l }
{}

/// The printed words of an instruction have its shape, and mean the instruction again.
pub fn printed_instructions_are_read_again()
    ensures shape { (k : ℕ) (i : Insn) → k < 2 ^ 64 → OpcodeFits i → FitOperands (insn_operands i)
        → HasShape (plain_word (decimal k ++ 58 ∷ []) ∷ plain_word (insn_word i) ∷ words_in One (insn_operands i)) (record { kind = insn_kind i; label = decimal k; slots = slots_of (insn_operands i); words = words_in One (insn_operands i) }) }
    ensures bare { (i : Insn) → OpcodeFits i → FitOperands (insn_operands i)
        → HasBareShape (plain_word (insn_word i) ∷ words_in Two (insn_operands i)) (record { kind = insn_kind i; label = []; slots = slots_of (insn_operands i); words = words_in Two (insn_operands i) }) }
    ensures number { (k : ℕ) → k < 2 ^ 64 → is_number (decimal k) k ≡ true }
    ensures value { (i : Insn) → OpcodeFits i → line_of (insn_kind i) (data_of (insn_operands i)) ≡ insn_line i }
{}
