//! Where a text stops being TOML, and why.

ghost use Rattle.std.specs.Prelude.{◌≡◌, [], ◌∷◌, ◌++◌, true, false, None, codes};
ghost use Rattle.toml_walk.specs.declared.stop.Due.TheVariants as due;
ghost use Rattle.toml_walk.specs.declared.stop.NoValue.TheVariants as no;
ghost use Rattle.toml_walk.specs.declared.stop.Token.TheVariants as token;
ghost use Rattle.toml_walk.specs.Walk.{stop_of};
ghost use Rattle.list_rows.specs.Stops.{due_at, no_value_at, no_string_at, defined_at};

/// Another byte or word stands where a part is due.
pub fn another_part()
    ensures key { stop_of (codes "= 1") ≡ due_at 0 due.Key (token.Shown 1) }
    ensures equals { stop_of (codes "drift: 2") ≡ due_at 5 due.Equals (token.Shown 1) }
    ensures header { stop_of (codes "[a b]") ≡ due_at 3 due.HeaderEnd (token.Shown 1) }
    ensures element_header { stop_of (codes "[[a] ]") ≡ due_at 4 due.HeaderEnd (token.Shown 1) }
    ensures element { stop_of (codes "a = [1 {b = 2}]") ≡ due_at 7 due.ElementEnd (token.Shown 1) }
    ensures member { stop_of (codes "a = {b = 1 cd = 2}") ≡ due_at 11 due.MemberEnd (token.Shown 2) }
    ensures line { stop_of (codes "a = 1 b") ≡ due_at 6 due.LineEnd (token.Shown 1) }
    ensures value { stop_of (codes "a = ]") ≡ due_at 4 due.Value (token.Shown 1) }
{}

/// No byte stands there, or one that is named and not shown.
pub fn no_part()
    ensures file_end { stop_of (codes "a =") ≡ due_at 3 due.Value token.FileEnd }
    ensures line_end { stop_of (codes "a\nb = 1") ≡ due_at 1 due.Equals token.LineEnd }
    ensures carriage_return { stop_of (codes "a = \r\n") ≡ due_at 4 due.Value token.LineEnd }
    ensures quote { stop_of (codes "a \"b\"") ≡ due_at 2 due.Equals token.DoubleQuote }
{}

/// Words that are no values, and a string without an end.
pub fn words_that_are_no_values()
    ensures unit { stop_of (codes "window = 64us") ≡ no_value_at 9 4 no.NoDigits }
    ensures near_true { stop_of (codes "sync = True") ≡ no_value_at 7 4 no.NearTrue }
    ensures near_false { stop_of (codes "sync = FALSE") ≡ no_value_at 7 5 no.NearFalse }
    ensures large { stop_of (codes "a = 99999999999999999999") ≡ no_value_at 4 20 no.TooLarge }
    ensures zero { stop_of (codes "a = 007") ≡ no_value_at 4 3 no.NoDigits }
    ensures word { stop_of (codes "a = yes") ≡ no_value_at 4 3 no.NoWord }
    ensures date { stop_of (codes "a = 1979-13-01 07:30") ≡ no_value_at 4 16 no.NoDigits }
    ensures string { stop_of (codes "a = \"b") ≡ no_string_at 4 }
{}

/// Keys that are defined already: the place is that of the statement or the member.
pub fn keys_that_come_twice()
    ensures key { stop_of (codes "a = 1\na = 2") ≡ defined_at 6 (codes "a") false }
    ensures dotted { stop_of (codes "a.b = 1\na.b = 2") ≡ defined_at 8 (codes "a.b") false }
    ensures in_value { stop_of (codes "a = 1\na.b = 2") ≡ defined_at 6 (codes "a.b") false }
    ensures member { stop_of (codes "a = {b = 1, b = 2}") ≡ defined_at 12 (codes "b") false }
    ensures header { stop_of (codes "[a]\n[a]") ≡ defined_at 4 (codes "a") true }
    ensures single { stop_of (codes "[[slot]]\n[slot]") ≡ defined_at 9 (codes "slot") true }
    ensures double { stop_of (codes "[a]\n[[a]]") ≡ defined_at 4 (codes "a") false }
    ensures through { stop_of (codes "[a.b]\n[a]\nb.c = 1") ≡ defined_at 10 (codes "b.c") false }
{}

/// Texts that are read to their end, and one behind a byte order mark, whose bytes count.
pub fn texts_to_their_end()
    ensures all { stop_of (codes "# c\r\na = 1\n[b]\nc = {d = [1, 2,],}\n") ≡ None }
    ensures implicit { stop_of (codes "[a.b]\n[a]\nc = 1") ≡ None }
    ensures elements { stop_of (codes "[[a]]\nb = 1\n[[a]]\nb = 1") ≡ None }
    ensures mark { stop_of (239 ∷ 187 ∷ 191 ∷ codes "a") ≡ due_at 4 due.Equals token.FileEnd }
{}
