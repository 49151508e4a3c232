//! The elements of a chart beside those of a picture.
#![tactic(auto, using(ttp_base::proofs::Room::room))]

ghost use Rattle.std.specs.Prelude.{◌≡◌, ◌+◌, ◌≤◌, [], ◌++◌, length, codes, decimal};
ghost use Rattle.picture_text.specs.Cells.{place_attributes};
ghost use Rattle.picture_text.specs.Picture.{text_line};
ghost use Rattle.chart_text.specs.Elements.{look_cell, pole};

use crate::look::{Look, look_letter, look_text};
use picture_text::{
    Corner, close_cell, close_text, open_cell, open_text, open_title, put_field, put_place,
};
use ttp_base::Line;

/// What stands between the title of a wide cell and what is shown.
pub(crate) fn close_wide_title(line: &mut Line, at: Corner)
    requires { length line.old ≤ 450 }
    ensures text { line.new ≡ line.old ++ codes "</title><rect" ++ place_attributes at.x at.y
        ++ codes " width=\"22\" height=\"15\"/><text" ++ place_attributes (at.x + 11) (at.y + 12) ++ codes ">" }
    ensures short { length line.new ≤ length line.old + 150 }
{
    line.put_text("</title><rect");
    put_place(line, at.x, at.y);
    line.put_text(" width=\"22\" height=\"15\"/><text");
    put_place(line, at.x + 11, at.y + 12);
    line.put_text(">");
}

/// Makes the cell that stands for a look.
pub(crate) fn make_look_cell(line: &mut Line, look: Look, at: Corner)
    ensures { line.new ≡ look_cell look at.x at.y }
{
    let name = look_text(look);
    open_cell(line);
    line.put_text(name);
    open_title(line);
    line.put_text(name);
    close_wide_title(line, at);
    line.put_text(look_letter(look));
    close_cell(line);
}

/// Makes an upright line.
pub(crate) fn make_pole(line: &mut Line, class: &str, at: Corner, height: u64)
    requires { length class.now ≤ 10 }
    ensures { line.new ≡ pole class.now at.x at.y height }
{
    line.clear();
    line.put_text("<path class=\"");
    line.put_text(class);
    put_field(line, "\" d=\"M", at.x);
    put_field(line, " ", at.y);
    put_field(line, "v", height);
    line.put_text("\"/>\n");
}

/// Adds a number and what stands behind it.
pub(crate) fn put_many(line: &mut Line, number: u64, label: &str)
    requires { (length line.old ≤ 500) × (length label.now ≤ 80) }
    ensures text { line.new ≡ line.old ++ decimal number ++ label.now }
    ensures short { length line.new ≤ length line.old + 20 + length label.now }
{
    line.put_number(number);
    line.put_text(label);
}

/// Makes a text that may be long.
pub(crate) fn make_words(line: &mut Line, x: u64, y: u64, shown: &str)
    requires { length shown.now ≤ 200 }
    ensures { line.new ≡ text_line [] x y shown.now }
{
    open_text(line, x, y);
    line.put_text(shown);
    close_text(line);
}
