//! The titles of a picture.
ghost use Rattle.std.specs.Prelude.{◌≡◌, [], ◌∷◌, codes, filter, None, true, false};
ghost use Rattle.picture_text.specs.Picture.{picture_lines};
ghost use Rattle.view_laws.specs.Titles.{begins_with, titles_in, titles, node_start, is_of_slot, texts_of_trace};
ghost use Rattle.lab_rows.specs.Small.{small};
ghost use Rattle.lab_rows.specs.SmallTitles.{small_titles, small_lines, lines_slot_0};

/// The titles of the picture of the small trace, whole, and the lines of its text.
pub fn small_trace()
    ensures titles { titles (picture_lines small None) ≡ small_titles }
    ensures lines { texts_of_trace small ≡ small_lines }
{}

/// Of slot 0 the titles that are lines of the trace are its lines, in their order, and that of node 2 is one.
pub fn lines_of_a_slot()
    ensures titles { filter (is_of_slot 0) (titles (picture_lines small None)) ≡ lines_slot_0 }
    ensures lines { filter (is_of_slot 0) small_lines ≡ lines_slot_0 }
    ensures node { filter (begins_with (node_start 0 2)) small_titles
        ≡ codes "slot 0 node 2 correct peer 0 msg - mem 0006 acc 3 rej 1 ack none clock 0" ∷ [] }
    ensures none { filter (is_of_slot 3) small_titles ≡ [] }
{}

/// Titles in a text: none, one, two, an empty one, and tags that are others.
pub fn texts()
    ensures none { titles_in (codes "<g><rect/></g>") ≡ [] }
    ensures one { titles_in (codes "<g class=\"send\"><title>slot 1</title><rect/></g>") ≡ codes "slot 1" ∷ [] }
    ensures two { titles_in (codes "<title>a</title><title>b</title>") ≡ codes "a" ∷ codes "b" ∷ [] }
    ensures empty { titles_in (codes "<title></title>") ≡ [] ∷ [] }
    ensures others { titles_in (codes "<titles>a</titles><text>title</text>") ≡ [] }
    ensures longer { is_of_slot 1 (codes "slot 11 node 0 off") ≡ false }
    ensures host { is_of_slot 11 (codes "slot 11 host 0 write 5") ≡ true }
    ensures members { is_of_slot 11 (codes "slot 11 members -") ≡ false }
{}
