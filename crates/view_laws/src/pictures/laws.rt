//! Laws of the lines of a picture, and of their titles. The functions have no code: their contracts are the laws.
ghost use Rattle.std.specs.Prelude.{◌≡◌, ℕ, ◌<◌, ◌≤◌, ◌^◌, true, false, List, [], ◌∷◌, map, length, count_by, filter, Option, Ok};
ghost use Rattle.std.specs.List.{AllByRecursion, list_any};
ghost use Rattle.std.specs.Str.{bytes_eq};
ghost use Rattle.ttp_base.specs.Text.{lines_of, is_line};
ghost use Rattle.whole_trace.specs.Whole.{WholeTrace, whole_in};
ghost use Rattle.shown_slot.specs.Trace.{node_at, node_text};
ghost use Rattle.picture_text.specs.declared.window.Span.{Span as Slots};
ghost use Rattle.picture_text.specs.Picture.{ended, slot_at, is_shown, picture_lines};
ghost use Rattle.view_laws.specs.Titles.{begins_with, titles_in, titles, texts_of_trace, is_of_slot, node_start, texts_of_lines};
ghost use Rattle.view_laws.specs.Titles.{is_markup, shown_of, picture_titles};

/// Each line of a picture is one line: its one line feed is its last byte.
pub fn lines_of_pictures()
    ensures { (trace : WholeTrace) (asked : Option Slots)
        → AllByRecursion (λ line. is_line line ≡ true) (picture_lines trace asked) }
{}

/// The titles of a picture, as they are read out of its lines: the first line of the trace; of each slot shown the
/// lines of its nodes, what members they hold, and how far clocks are apart; of each slot shown the lines of its
/// hosts; and those of the legend (`order`). No line of a picture has two (`once`), and none has a byte that would
/// need an escape (`plain`).
pub fn titles_of_pictures()
    ensures order { (trace : WholeTrace) (asked : Option Slots)
        → titles (picture_lines trace asked) ≡ picture_titles trace asked }
    ensures once { (trace : WholeTrace) (asked : Option Slots)
        → AllByRecursion (λ line. length (titles_in line) ≤ 1) (picture_lines trace asked) }
    ensures plain { (trace : WholeTrace) (asked : Option Slots)
        → AllByRecursion (λ title. list_any is_markup title ≡ false) (titles (picture_lines trace asked)) }
{}

/// A text that is a trace has the lines that its value gives, in this order, and no others.
pub fn lines_of_texts()
    ensures { (text : List ℕ) (trace : WholeTrace) → whole_in text ≡ Ok trace
        → lines_of text ≡ map ended (texts_of_trace trace) }
{}

/// The lines of a trace are the titles of its picture. Of a slot that is shown the titles that are lines of nodes and
/// hosts are those of the text, in its order (`slot`), so each of them is a title as often as it stands in the
/// text (`line`); one title alone is the line of a node (`node`). Of a slot that is not shown no line is a
/// title (`hidden`).
pub fn lines_are_titles()
    ensures slot { (text : List ℕ) (trace : WholeTrace) (asked : Option Slots) (t : ℕ) → whole_in text ≡ Ok trace
        → is_shown (shown_of trace asked) t ≡ true
        → filter (is_of_slot t) (titles (picture_lines trace asked)) ≡ filter (is_of_slot t) (texts_of_lines text) }
    ensures line { (text : List ℕ) (trace : WholeTrace) (asked : Option Slots) (t : ℕ) (line : List ℕ)
        → whole_in text ≡ Ok trace → is_shown (shown_of trace asked) t ≡ true → is_of_slot t line ≡ true
        → count_by (bytes_eq line) (titles (picture_lines trace asked)) ≡ count_by (bytes_eq line) (texts_of_lines text) }
    ensures node { (text : List ℕ) (trace : WholeTrace) (asked : Option Slots) (t k : ℕ) → whole_in text ≡ Ok trace
        → is_shown (shown_of trace asked) t ≡ true → k < trace.head.nodes
        → filter (begins_with (node_start t k)) (titles (picture_lines trace asked))
        ≡ node_text trace.head t k (node_at (slot_at trace t) k) ∷ [] }
    ensures hidden { (text : List ℕ) (trace : WholeTrace) (asked : Option Slots) (t : ℕ) → whole_in text ≡ Ok trace
        → t < 2 ^ 64 → is_shown (shown_of trace asked) t ≡ false
        → filter (is_of_slot t) (titles (picture_lines trace asked)) ≡ [] }
{}
