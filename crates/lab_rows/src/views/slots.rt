//! What is said of a slot.
ghost use Rattle.std.specs.Prelude.{◌≡◌, [], ◌∷◌, pos, negsuc, Some, None, true, false, codes};
ghost use Rattle.line_reader.specs.declared.trace_line.Word.TheVariants as word;
ghost use Rattle.shown_slot.specs.Nodes.{starts_round, is_refused, node_apart};
ghost use Rattle.picture_text.specs.Cells.{short_number};
ghost use Rattle.lab_rows.specs.Slots.{node_with, correct_at, that};

/// The node whose clock is far from most: the other end of the range is nearer to more active nodes. Of two with the same clock
/// it is the first; a clock in the middle is near to none.
pub fn far_clocks()
    ensures ahead { node_apart (correct_at (pos 0) ∷ correct_at (pos 1) ∷ correct_at (pos 10) ∷ []) ≡ Some 2 }
    ensures behind { node_apart (correct_at (pos 9) ∷ correct_at (negsuc 9) ∷ correct_at (pos 8) ∷ []) ≡ Some 1 }
    ensures first { node_apart (correct_at (pos 1) ∷ correct_at (pos 9) ∷ correct_at (pos 0) ∷ correct_at (pos 9) ∷ correct_at (pos 2) ∷ []) ≡ Some 1 }
    ensures even { node_apart (correct_at (pos 0) ∷ correct_at (pos 5) ∷ correct_at (pos 10) ∷ []) ≡ None }
    ensures just_over { node_apart (correct_at (pos 0) ∷ correct_at (pos 6) ∷ correct_at (pos 10) ∷ []) ≡ Some 0 }
    ensures same { node_apart (correct_at (pos 3) ∷ correct_at (pos 3) ∷ []) ≡ None }
    ensures inactive { node_apart (that word.Off ∷ that word.Gone ∷ []) ≡ None }
    ensures active { node_apart (node_with word.Denied None (pos 900) ∷ correct_at (pos 0) ∷ correct_at (pos 1) ∷ correct_at (pos 10) ∷ []) ≡ Some 3 }
    ensures widest { node_apart (correct_at (pos 999999999999999999) ∷ correct_at (negsuc 999999999999999998) ∷ correct_at (pos 0) ∷ correct_at (pos 1) ∷ []) ≡ Some 1 }
{}

/// A frame is refused where more nodes refuse it than take it.
pub fn refused_frames()
    ensures most { is_refused (that word.Send ∷ that word.Incorrect ∷ that word.Invalid ∷ that word.Correct ∷ []) ≡ true }
    ensures all { is_refused (that word.Send ∷ that word.Null ∷ []) ≡ true }
    ensures half { is_refused (that word.Send ∷ that word.Null ∷ that word.Join ∷ []) ≡ false }
    ensures tentative { is_refused (that word.Tentative ∷ that word.Invalid ∷ []) ≡ false }
    ensures left { is_refused (that word.Send ∷ that word.Clique ∷ that word.Denied ∷ that word.Gone ∷ []) ≡ false }
{}

/// A round begins where node 0 is due for an active node.
pub fn rounds()
    ensures begins { starts_round (that word.Wait ∷ node_with word.Null (Some 0) (pos 0) ∷ []) ≡ true }
    ensures later { starts_round (that word.Send ∷ that word.Correct ∷ []) ≡ false }
    ensures left { starts_round (node_with word.Denied (Some 0) (pos 0) ∷ that word.Null ∷ []) ≡ false }
    ensures nobody { starts_round (node_with word.Wait None (pos 0) ∷ []) ≡ false }
{}

/// Numbers in at most four characters.
pub fn short_numbers()
    ensures whole { short_number 9999 ≡ codes "9999" }
    ensures thousands { short_number 10000 ≡ codes "10k" }
    ensures rounded_down { short_number 12999 ≡ codes "12k" }
    ensures most { short_number 999999 ≡ codes "999k" }
    ensures more { short_number 1000000 ≡ codes "1M+" }
{}
