//! The picture.
ghost use Rattle.std.specs.Prelude.{◌≡◌, [], ◌∷◌, position, Some, None};
ghost use Rattle.picture_text.specs.Cells.{distinct};
ghost use Rattle.picture_text.specs.Picture.{picture_lines};
ghost use Rattle.picture_text.specs.Window.{columns, is_strange, quiet_slots, first_by, strange_past};
ghost use Rattle.lab_rows.specs.Small.{small, slot_0, slot_1, slot_2};
ghost use Rattle.lab_rows.specs.Slots.{idle};
ghost use Rattle.lab_rows.specs.SmallPicture.{small_picture};

/// The picture of the small trace, of which all slots are shown.
pub fn small_trace()
    ensures { picture_lines small None ≡ small_picture }
{}

/// Columns for whole rounds, of 4, 5, 7, 23 and 24 nodes.
pub fn whole_rounds()
    ensures four { columns 4 ≡ 48 }
    ensures five { columns 5 ≡ 45 }
    ensures seven { columns 7 ≡ 42 }
    ensures most_but_one { columns 23 ≡ 46 }
    ensures most { columns 24 ≡ 48 }
{}

/// Of long traces of 4 nodes, whose four bands have 192 slots: all behind the quiet ones where they fit, and else as many whole
/// rounds later as leave two before the first strange slot, or four bands full.
pub fn chosen_slots()
    ensures whole { first_by 4 202 10 0 ≡ 10 }
    ensures one_more { first_by 4 203 10 200 ≡ 14 }
    ensures five_more { first_by 4 207 10 200 ≡ 18 }
    ensures trouble { first_by 4 1000 10 63 ≡ 54 }
    ensures early { first_by 4 1000 10 21 ≡ 10 }
    ensures calm { first_by 4 1000 10 0 ≡ 10 }
{}

/// A trace whose nodes all wait or are off is quiet, and has no quiet slots before one that is not.
pub fn quiet_slots_of_traces()
    ensures none { quiet_slots (slot_0 ∷ []) ≡ 0 }
    ensures two { quiet_slots (idle ∷ idle ∷ slot_0 ∷ idle ∷ []) ≡ 2 }
    ensures all { quiet_slots (idle ∷ idle ∷ []) ≡ 0 }
{}

/// Slot 0 has holders that differ, and slots 1 and 2 nodes that left; no slot is past the last.
pub fn strange_slots()
    ensures first { position is_strange (idle ∷ slot_1 ∷ slot_2 ∷ []) ≡ Some 1 }
    ensures later { strange_past 0 (slot_0 ∷ slot_1 ∷ slot_2 ∷ []) ≡ Some 1 }
    ensures none { strange_past 2 (slot_0 ∷ slot_1 ∷ slot_2 ∷ []) ≡ None }
    ensures once { distinct (7 ∷ 6 ∷ 7 ∷ 5 ∷ 6 ∷ []) ≡ 7 ∷ 6 ∷ 5 ∷ [] }
{}
