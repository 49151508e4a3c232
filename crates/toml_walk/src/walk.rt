//! A text as TOML, statement by statement and part by part, up to the first part that can't be read.
ghost use Rattle.std.specs.Prelude.{◌≡◌, ℕ, ◌<◌, ◌≤◌, length, string_bytes, IfOk};
ghost use Rattle.toml_parser.specs.Reading.{key_view, path_view};
ghost use Rattle.toml.specs.Parse as grammar;
ghost use Rattle.toml_walk.specs.Names.{Noted, nothing_noted};
ghost use Rattle.toml_walk.specs.Walk as spec;
ghost use Rattle.toml_walk.specs.Reading.{StopsAt, Walks, Shortens, NamesStandFor};
ghost use Rattle.toml_walk.specs.Turns.{TurnShortens, LineShortens, Notes, ItemsGo, MembersGo, SectionIs, Opens, LinesGo};

use crate::halt::{Halt, Halted, due, halt_at, no_value, refused};
use crate::names::Names;
use crate::stop::{Due, Stop, Why};
use std::alloc::Global;
use toml_parser::text::{byte_at, first, skip, skip_blank, skip_ws};
use toml_parser::{Key, RECURSION_LIMIT, dotted_key, quoted, starts_string, unquoted};
use ttp_base::{List, Memory};

/// What a statement defines.
#[derive(Clone, Copy, PartialEq, Eq)]
pub enum What {
    Pair,
    Header,
    /// A header in double brackets.
    Element,
}

/// A statement: its key, what it defines, and the text at the value of a pair, or else behind the statement.
#[derive(Drop)]
pub struct Statement<'a> {
    pub key: Key,
    pub what: What,
    pub value: &'a str,
}

// A turn through an array, an inline table or a text: the text behind it, or at what follows in it.
enum Turn<'a> {
    Ends(&'a str),
    Goes(&'a str),
}

fn key_at(alloc: Global, s: &str) -> Result<(Key, &str), Halt>
    ensures value { Walks (λ p. (key_view p.0, p.1.now)) result (spec.key_read s.now) }
    ensures shorter { Shortens s.now result }
{
    match dotted_key(alloc, s) {
        Ok(found) => Ok(found),
        Err(error) => Err(refused(error, due(s, Due::Key))),
    }
}

// Behind `=` or `]`, where it is due.
fn behind_byte(s: &str, byte: u8, what: Due) -> Result<&str, Halt>
    requires some { 0 < byte }
    requires ascii { byte < 128 }
    ensures value { Walks (λ rest. rest.now) result (spec.behind_byte byte what s.now) }
    ensures shorter { IfOk result (λ rest. length rest.now < length s.now) }
{
    if first(s) == byte {
        Ok(skip(s, 1))
    } else {
        Err(due(s, what))
    }
}

// A key, `=` and the white space behind it.
#[tactic(auto, unfolding(crate::specs::Walk::pair_key))]
fn pair_key(alloc: Global, s: &str) -> Result<(Key, &str), Halt>
    ensures value { Walks (λ p. (key_view p.0, p.1.now)) result (spec.pair_key s.now) }
    ensures shorter { Shortens s.now result }
{
    let (key, rest) = key_at(alloc, s)?;
    let behind = behind_byte(rest, b'=', Due::Equals)?;
    Ok((key, skip_ws(behind)))
}

#[tactic(auto, unfolding(crate::specs::Walk::atom))]
fn atom(alloc: Global, s: &str) -> Result<&str, Halt>
    ensures value { Walks (λ rest. rest.now) result (spec.atom s.now) }
    ensures shorter { IfOk result (λ rest. length rest.now < length s.now) }
{
    if starts_string(s) {
        match quoted(alloc, s) {
            Ok((_, rest)) => Ok(rest),
            Err(error) => Err(refused(error, halt_at(s, Why::NoString))),
        }
    } else {
        match unquoted(alloc, s) {
            Ok((_, rest)) => Ok(rest),
            Err(error) => Err(refused(error, no_value(s))),
        }
    }
}

// Behind a comma, or at the closing bracket.
#[tactic(auto, unfolding(crate::specs::Walk::after_element))]
fn after_element(s: &str, closing: u8, what: Due) -> Result<&str, Halt>
    ensures value { Walks (λ rest. rest.now) result (spec.after_element closing what s.now) }
    ensures within { IfOk result (λ rest. length rest.now ≤ length s.now) }
{
    let rest = skip_blank(s, true);
    if first(rest) == b',' {
        Ok(skip(rest, 1))
    } else if first(rest) == closing {
        Ok(rest)
    } else {
        Err(due(rest, what))
    }
}

// The text behind a value, with arrays and inline tables at most `depth` deep.
#[cycle(value)]
fn value(alloc: Global, s: &str, depth: usize) -> Result<&str, Halt>
    ensures value { Walks (λ rest. rest.now) result (spec.value depth s.now) }
    ensures shorter { IfOk result (λ rest. length rest.now < length s.now) }
{
    if depth == 0 {
        atom(alloc, s)
    } else if first(s) == b'[' {
        array(alloc, skip(s, 1), depth - 1)
    } else if first(s) == b'{' {
        inline_table(alloc, skip(s, 1), depth - 1)
    } else {
        atom(alloc, s)
    }
}

#[cycle(value)]
#[tactic(auto, unfolding(crate::specs::Walk::items))]
fn array_turn(alloc: Global, s: &str, depth: usize) -> Result<Turn<'_>, Halt>
    ensures value { (n : ℕ) → ItemsGo (spec.value depth) n s.now result }
    ensures shorter { IfOk result (λ turn. TurnShortens s.now turn) }
{
    let start = skip_blank(s, true);
    if first(start) == b']' {
        return Ok(Turn::Ends(skip(start, 1)));
    }
    let after = value(alloc, start, depth)?;
    Ok(Turn::Goes(after_element(after, b']', Due::ElementEnd)?))
}

#[cycle(value)]
fn array(alloc: Global, s: &str, depth: usize) -> Result<&str, Halt>
    ensures value { (n : ℕ) → length s.now < n → Walks (λ rest. rest.now) result (spec.items (spec.value depth) n s.now) }
    ensures shorter { IfOk result (λ rest. length rest.now < length s.now) }
{
    let mut rest = s;
    'items: loop {
        let turn = array_turn(alloc, rest, depth)?;
        match turn {
            Turn::Ends(after) => return Ok(after),
            Turn::Goes(next) => rest = next,
        }
    }
}

#[cycle(value)]
fn member_turn<'a>(
    alloc: Global,
    names: &mut Names,
    s: &'a str,
    depth: usize,
) -> Result<Turn<'a>, Halt>
    ensures value { (n : ℕ) (noted : Noted) → NamesStandFor names.old noted
        → MembersGo (spec.value depth) n noted s.now result names.new }
    ensures shorter { IfOk result (λ turn. TurnShortens s.now turn) }
{
    let start = skip_blank(s, true);
    if first(start) == b'}' {
        return Ok(Turn::Ends(skip(start, 1)));
    }
    let (key, at_value) = pair_key(alloc, start)?;
    let after = value(alloc, at_value, depth)?;
    put(alloc, names, 0, &key, start)?;
    Ok(Turn::Goes(after_element(after, b'}', Due::MemberEnd)?))
}

#[cycle(value)]
fn inline_table(alloc: Global, s: &str, depth: usize) -> Result<&str, Halt>
    ensures value { (n : ℕ) → length s.now < n
        → Walks (λ rest. rest.now) result (spec.members (spec.value depth) n nothing_noted s.now) }
    ensures shorter { IfOk result (λ rest. length rest.now < length s.now) }
{
    let mut names = Names::new(alloc)?;
    let mut rest = s;
    'members: loop {
        let turn = member_turn(alloc, &mut names, rest, depth)?;
        match turn {
            Turn::Ends(after) => return Ok(after),
            Turn::Goes(next) => rest = next,
        }
    }
}

// The parts of a key, with dots between.
fn dotted(alloc: Global, key: &Key) -> Result<List<u8>, Memory>
    ensures { IfOk result (λ bytes. bytes ≡ spec.dotted (path_view key.now.path.items) (string_bytes key.now.last)) }
{
    let mut bytes = Vec::new(alloc);
    for part in key.path.as_slice() {
        bytes.extend_from_slice(part.as_bytes())?;
        bytes.push(b'.')?;
    }
    bytes.extend_from_slice(key.last.as_bytes())?;
    Ok(List::from_vec(bytes))
}

// A key is defined already in the statement or the member at the front of a text.
fn defined(alloc: Global, s: &str, key: &Key, in_brackets: bool) -> Halt
    ensures { StopsAt result (spec.defined in_brackets (key_view key.now) s.now) }
{
    match dotted(alloc, key) {
        Ok(key) => halt_at(s, Why::Defined { key, in_brackets }),
        Err(_) => Halt::Memory,
    }
}

// Defines a value at the key of the statement or the member at the front of a text.
fn put(alloc: Global, names: &mut Names, table: usize, key: &Key, s: &str) -> Result<(), Halt>
    ensures { (noted : Noted) → NamesStandFor names.old noted → table < noted.tables
        → Notes result names.new (spec.put_at table (key_view key.now) noted s.now) }
{
    let is_put = names.put(alloc, table, key)?;
    if is_put {
        Ok(())
    } else {
        Err(defined(alloc, s, key, false))
    }
}

/// A member of an inline table, and the text behind its comma or at the closing brace.
#[tactic(auto, unfolding(crate::specs::Walk::member))]
pub fn member(alloc: Global, s: &str) -> Result<(Key, &str), Halt>
    ensures value { Walks (λ p. (key_view p.0, p.1.now)) result (spec.member s.now) }
    ensures shorter { Shortens s.now result }
{
    let (key, at_value) = pair_key(alloc, s)?;
    let after = value(alloc, at_value, RECURSION_LIMIT)?;
    let next = after_element(after, b'}', Due::MemberEnd)?;
    Ok((key, next))
}

/// The text behind the comma of an element of an array, or at the closing bracket.
#[tactic(auto, unfolding(crate::specs::Walk::element))]
pub fn element(alloc: Global, s: &str) -> Result<&str, Halt>
    ensures value { Walks (λ rest. rest.now) result (spec.element s.now) }
    ensures shorter { IfOk result (λ rest. length rest.now < length s.now) }
{
    let after = value(alloc, s, RECURSION_LIMIT)?;
    after_element(after, b']', Due::ElementEnd)
}

// The key of a header and its first closing bracket.
#[tactic(auto, unfolding(crate::specs::Walk::header_key))]
fn header_key(alloc: Global, s: &str) -> Result<(Key, &str), Halt>
    ensures value { Walks (λ p. (key_view p.0, p.1.now)) result (spec.header_key s.now) }
    ensures shorter { Shortens s.now result }
{
    let (key, rest) = key_at(alloc, skip_ws(s))?;
    let behind = behind_byte(rest, b']', Due::HeaderEnd)?;
    Ok((key, behind))
}

#[tactic(auto, unfolding(crate::specs::Walk::expression))]
fn expression(alloc: Global, s: &str) -> Result<(Statement<'_>, &str), Halt>
    ensures value { Walks (λ p. (spec.statement_view p.0, p.1.now)) result (spec.expression s.now) }
    ensures shorter { Shortens s.now result }
{
    if first(s) == b'[' && byte_at(s, 1) == b'[' {
        let (key, behind) = header_key(alloc, skip(s, 2))?;
        let rest = behind_byte(behind, b']', Due::HeaderEnd)?;
        let what = What::Element;
        Ok((
            Statement {
                key,
                what,
                value: rest,
            },
            rest,
        ))
    } else if first(s) == b'[' {
        let (key, rest) = header_key(alloc, skip(s, 1))?;
        let what = What::Header;
        Ok((
            Statement {
                key,
                what,
                value: rest,
            },
            rest,
        ))
    } else {
        let (key, at_value) = pair_key(alloc, s)?;
        let rest = value(alloc, at_value, RECURSION_LIMIT)?;
        let what = What::Pair;
        Ok((
            Statement {
                key,
                what,
                value: at_value,
            },
            rest,
        ))
    }
}

/// A statement that has its line to itself, and the text behind it.
#[tactic(auto, unfolding(crate::specs::Walk::statement))]
pub fn read_statement(alloc: Global, s: &str) -> Result<(Statement<'_>, &str), Halt>
    ensures value { Walks (λ p. (spec.statement_view p.0, p.1.now)) result (spec.statement s.now) }
    ensures shorter { Shortens s.now result }
{
    let (statement, rest) = expression(alloc, s)?;
    let end = skip_ws(rest);
    if end.is_empty() || matches!(first(end), b'#' | b'\n' | b'\r') {
        Ok((statement, rest))
    } else {
        Err(due(end, Due::LineEnd))
    }
}

/// A text without a byte order mark.
pub fn skip_bom(s: &str) -> &str
    ensures rest { result.now ≡ grammar.skip_bom s.now }
    ensures within { length result.now ≤ length s.now }
{
    if first(s) == 0xEF && byte_at(s, 1) == 0xBB && byte_at(s, 2) == 0xBF {
        &s[3..]
    } else {
        s
    }
}

// The names of a text, and the table of its last header.
#[derive(Drop)]
struct Section {
    names: Names,
    table: usize,
}

// Opens the table of the header at the front of a text.
fn open(
    alloc: Global,
    section: &mut Section,
    key: &Key,
    is_element: bool,
    s: &str,
) -> Result<(), Halt>
    ensures { (sections : spec.Sections) → SectionIs section.old sections
        → Opens result section.new (spec.opened_at is_element (key_view key.now) sections.noted s.now) }
{
    let opened = section.names.open(alloc, key, is_element)?;
    match opened {
        Some(table) => {
            section.table = table;
            Ok(())
        }
        None => Err(defined(alloc, s, key, !is_element)),
    }
}

// Defines what the statement at the front of a text says.
fn define(
    alloc: Global,
    section: &mut Section,
    statement: &Statement<'_>,
    s: &str,
) -> Result<(), Halt>
    ensures { (sections : spec.Sections) → SectionIs section.old sections
        → Opens result section.new (spec.define sections (key_view statement.now.key) statement.now.what s.now) }
{
    let key = &statement.key;
    match statement.what {
        What::Pair => put(alloc, &mut section.names, section.table, key, s),
        What::Header => open(alloc, section, key, false, s),
        What::Element => open(alloc, section, key, true, s),
    }
}

#[tactic(auto, unfolding(crate::specs::Walk::lines))]
fn line_turn<'a>(alloc: Global, section: &mut Section, s: &'a str) -> Result<Turn<'a>, Halt>
    ensures value { (n : ℕ) (sections : spec.Sections) → SectionIs section.old sections
        → LinesGo n sections s.now result section.new }
    ensures shorter { IfOk result (λ turn. LineShortens s.now turn) }
{
    let start = skip_blank(s, true);
    if start.is_empty() {
        return Ok(Turn::Ends(start));
    }
    let (statement, rest) = read_statement(alloc, start)?;
    define(alloc, section, &statement, start)?;
    Ok(Turn::Goes(rest))
}

// Reads a text to its end, or to the first part that can't be read.
#[tactic(auto, unfolding(crate::specs::Walk::read_all))]
fn read_all(alloc: Global, text: &str) -> Result<&str, Halt>
    ensures { Walks (λ rest. rest.now) result (spec.read_all text.now) }
{
    let mut section = Section {
        names: Names::new(alloc)?,
        table: 0,
    };
    let mut rest = skip_bom(text);
    'lines: loop {
        let turn = line_turn(alloc, &mut section, rest)?;
        match turn {
            Turn::Ends(end) => return Ok(end),
            Turn::Goes(next) => rest = next,
        }
    }
}

/// Where a text stops being TOML, or `None` where it is read to its end.
///
/// The only error is want of memory. Time and memory are those of reading the text once.
#[tactic(auto, unfolding(crate::specs::Walk::stop_of))]
pub fn stop_of(alloc: Global, text: &str) -> Result<Option<Stop>, Memory>
    ensures { IfOk result (λ stop. stop ≡ spec.stop_of text.now) }
{
    match read_all(alloc, text) {
        Ok(_) => Ok(None),
        Err(Halt::Memory) => Err(Memory),
        Err(Halt::Stop(Halted { left, why })) => Ok(Some(Stop {
            at: text.len().saturating_sub(left),
            why,
        })),
    }
}
