//! The elements of a picture, formed in a line: cells, marks and texts.
#![tactic(auto, using(ttp_base::proofs::Room::room))]

ghost use Rattle.std.specs.Prelude.{◌≡◌, ◌+◌, ◌≤◌, [], ◌++◌, length, codes, decimal};
ghost use Rattle.picture_text.specs.Cells.{place_attributes, cell, mark};
ghost use Rattle.picture_text.specs.Picture.{class_of, text_line, round_line};

use crate::layout::Corner;
use ttp_base::Line;

/// Adds a number behind a label.
pub fn put_field(line: &mut Line, label: &str, number: u64)
    requires { length line.old + length label.now ≤ 620 }
    ensures text { line.new ≡ line.old ++ label.now ++ decimal number }
    ensures short { length line.new ≤ length line.old + length label.now + 20 }
{
    line.put_text(label);
    line.put_number(number);
}

/// Adds a place.
pub fn put_place(line: &mut Line, x: u64, y: u64)
    requires { length line.old ≤ 590 }
    ensures text { line.new ≡ line.old ++ place_attributes x y }
    ensures short { length line.new ≤ length line.old + 50 }
{
    put_field(line, " x=\"", x);
    put_field(line, "\" y=\"", y);
    line.put_text("\"");
}

/// Begins a cell, before its class.
pub fn open_cell(line: &mut Line)
    ensures { line.new ≡ codes "<g class=\"" }
{
    line.clear();
    line.put_text("<g class=\"");
}

/// What stands between the class of a cell or a mark and its title.
pub fn open_title(line: &mut Line)
    requires { length line.old ≤ 600 }
    ensures text { line.new ≡ line.old ++ codes "\"><title>" }
    ensures size { length line.new ≡ length line.old + 9 }
{
    line.put_text("\"><title>");
}

/// What stands between the title of a cell and what is shown.
pub(crate) fn close_title(line: &mut Line, at: Corner)
    requires { length line.old ≤ 450 }
    ensures text { line.new ≡ line.old ++ codes "</title><rect" ++ place_attributes at.x at.y
        ++ codes " width=\"19\" height=\"19\"/><text" ++ place_attributes (at.x + 9) (at.y + 14) ++ codes ">" }
    ensures short { length line.new ≤ length line.old + 150 }
{
    line.put_text("</title><rect");
    put_place(line, at.x, at.y);
    line.put_text(" width=\"19\" height=\"19\"/><text");
    put_place(line, at.x + 9, at.y + 14);
    line.put_text(">");
}

/// Ends a cell.
pub fn close_cell(line: &mut Line)
    requires { length line.old ≤ 620 }
    ensures { line.new ≡ line.old ++ codes "</text></g>\n" }
{
    line.put_text("</text></g>\n");
}

/// Makes a cell of texts.
pub(crate) fn make_cell(line: &mut Line, class: &str, at: Corner, title: &str, shown: &str)
    requires { (length class.now ≤ 20) × (length title.now ≤ 100) × (length shown.now ≤ 20) }
    ensures { line.new ≡ cell class.now at.x at.y title.now shown.now }
{
    open_cell(line);
    line.put_text(class);
    open_title(line);
    line.put_text(title);
    close_title(line, at);
    line.put_text(shown);
    close_cell(line);
}

/// Begins a mark, up to its title.
pub fn open_mark(line: &mut Line, class: &str, shape: &str, at: Corner)
    requires { (length class.now ≤ 8) × (length shape.now ≤ 11) }
    ensures text { line.new ≡ codes "<path class=\"" ++ class.now ++ codes "\" d=\"M"
        ++ decimal at.x ++ codes " " ++ decimal at.y ++ shape.now ++ codes "\"><title>" }
    ensures short { length line.new ≤ 88 }
{
    line.clear();
    line.put_text("<path class=\"");
    line.put_text(class);
    put_field(line, "\" d=\"M", at.x);
    put_field(line, " ", at.y);
    line.put_text(shape);
    line.put_text("\"><title>");
}

/// Ends a mark.
pub fn close_mark(line: &mut Line)
    requires { length line.old ≤ 624 }
    ensures { line.new ≡ line.old ++ codes "</title></path>\n" }
{
    line.put_text("</title></path>\n");
}

/// Makes a mark with a short title.
pub fn make_mark(line: &mut Line, class: &str, shape: &str, at: Corner, title: &str)
    requires { (length class.now ≤ 8) × (length shape.now ≤ 11) × (length title.now ≤ 100) }
    ensures { line.new ≡ mark class.now shape.now at.x at.y title.now }
{
    open_mark(line, class, shape, at);
    line.put_text(title);
    close_mark(line);
}

/// Makes the line of a round, from this place down.
pub(crate) fn make_round(line: &mut Line, x: u64, y: u64, high: u64)
    ensures { line.new ≡ round_line x y high }
{
    line.clear();
    put_field(line, "<path class=\"round\" d=\"M", x);
    put_field(line, " ", y);
    put_field(line, "h1v", high);
    line.put_text("h-1z\"/>\n");
}

/// Begins a text without a class, before what it shows.
pub fn open_text(line: &mut Line, x: u64, y: u64)
    ensures text { line.new ≡ codes "<text" ++ place_attributes x y ++ codes ">" }
    ensures short { length line.new ≤ 56 }
{
    line.clear();
    line.put_text("<text");
    put_place(line, x, y);
    line.put_text(">");
}

/// Begins a text of a class.
pub fn open_text_of(line: &mut Line, class: &str, x: u64, y: u64)
    requires { length class.now ≤ 10 }
    ensures text { line.new ≡ codes "<text" ++ class_of class.now ++ place_attributes x y ++ codes ">" }
    ensures short { length line.new ≤ 85 }
{
    line.clear();
    line.put_text("<text class=\"");
    line.put_text(class);
    line.put_text("\"");
    put_place(line, x, y);
    line.put_text(">");
}

/// Ends a text.
pub fn close_text(line: &mut Line)
    requires { length line.old ≤ 630 }
    ensures { line.new ≡ line.old ++ codes "</text>\n" }
{
    line.put_text("</text>\n");
}

/// Makes a text without a class.
pub fn make_text(line: &mut Line, x: u64, y: u64, shown: &str)
    requires { length shown.now ≤ 100 }
    ensures { line.new ≡ text_line [] x y shown.now }
{
    open_text(line, x, y);
    line.put_text(shown);
    close_text(line);
}

/// Makes a text of a class.
pub fn make_text_of(line: &mut Line, class: &str, x: u64, y: u64, shown: &str)
    requires { (length class.now ≤ 10) × (length shown.now ≤ 100) }
    ensures { line.new ≡ text_line (class_of class.now) x y shown.now }
{
    open_text_of(line, class, x, y);
    line.put_text(shown);
    close_text(line);
}

/// Makes a number as a text of a class.
pub fn make_number_of(line: &mut Line, class: &str, x: u64, y: u64, number: u64)
    requires { length class.now ≤ 10 }
    ensures { line.new ≡ text_line (class_of class.now) x y (decimal number) }
{
    open_text_of(line, class, x, y);
    line.put_number(number);
    close_text(line);
}
