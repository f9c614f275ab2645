//! The laws of values. They have no code: the contract is the law.

ghost use Rattle.std.specs.Prelude.{◌↔◌, ◌∷◌, List, Some};
ghost use Rattle.program_types.specs.Content.{Member, Value};
ghost use Rattle.listing_words.specs.Words.{Word};
ghost use Rattle.listing_slots.specs.declared.key.Key.TheVariants.{Static};
ghost use Rattle.listing_lines.specs.Lines.{static_line};
ghost use Rattle.listing_lines.specs.declared.form.Form.{Form};
ghost use Rattle.listing_lines.specs.Labels.{Label};
ghost use Rattle.listing_laws.specs.inner.Values.{word_of_key, ValueText, StaticText, IsReadAsValue, IsReadAsLine};

/// Words are read as a value if and only if they are its text: its keyword and its operand, an array's values between braces. So a
/// line that begins with `static` gives a field a value, in either form, exactly if name, type, flags and `=` come first,
/// and then the text of the value.
pub fn values_are_spelled()
    ensures value { (ws : List Word) (v : Value) → ValueText ws v ↔ IsReadAsValue ws v }
    ensures line { (form : Form) (ls : List Label) (ws : List Word) (m : Member) (v : Value)
        → StaticText ws m v ↔ IsReadAsLine form ls (word_of_key Static ∷ ws) (static_line m (Some v)) }
{}
