//! The laws of lines, over all descriptions. The functions do nothing; their contracts are the laws.
ghost use Rattle.std.specs.Prelude.{◌≡◌, ◌≤◌, ℕ, List, Some, true, length, IfSome};
ghost use Rattle.ttp_base.specs.Text.{is_line};
ghost use Rattle.line_form.specs.Kinds.{Kind, Value, spell, read, fits_kind, sound};
ghost use Rattle.line_form.specs.Forms.{LineForm, Values, spelled, spelled_line, line_values, fit, well, longest_line};

/// A word is read as the value that it spells, and spells the value that is read of it.
pub fn words()
    ensures again { (k : Kind) (v : Value k) → sound k ≡ true → fits_kind k v ≡ true → read k (spell k v) ≡ Some v }
    ensures same { (k : Kind) (word : List ℕ) → IfSome (read k word) (λ v. (fits_kind k v ≡ true) × (word ≡ spell k v)) }
{}

/// The text of values that fit is read as these values, and what is read of bytes fits and is spelled as these bytes.
/// So each line is the line of one value at most, and what is no line of a value is not read.
pub fn lines()
    ensures again { (form : LineForm) (v : Values form) → well form ≡ true → fit form v ≡ true
        → line_values form (spelled form v) ≡ Some v }
    ensures same { (form : LineForm) (bytes : List ℕ)
        → IfSome (line_values form bytes) (λ v. (fit form v ≡ true) × (bytes ≡ spelled form v)) }
{}

/// The text of values that fit is at most as long as its description says, and with a line feed it is one line.
pub fn texts()
    ensures length { (form : LineForm) (v : Values form) → well form ≡ true → fit form v ≡ true
        → length (spelled form v) ≤ longest_line form }
    ensures line { (form : LineForm) (v : Values form) → well form ≡ true → fit form v ≡ true
        → is_line (spelled_line form v) ≡ true }
{}
