//! Where the keys and the slots of a list stand.
ghost use Rattle.std.specs.Prelude.{◌≡◌, ℕ, ◌<◌, List, [], ◌∷◌, ◌++◌, length, IfSome, IfOk, option_map};
ghost use Rattle.toml_parser.specs.Reading.{key_view};
ghost use Rattle.toml_walk.specs.Walk.{statement_view};
ghost use Rattle.list_places.specs.Marks as spec;
ghost use Rattle.list_places.specs.Standing.{AreKeys, SlotIs, SlotsAre, MarksAre, MembersTurn, ElementsTurn, MarksTurn};

use std::alloc::Global;
use std::collections::BTreeMap;
use toml_parser::Key;
use toml_parser::text::{first, skip, skip_blank};
use toml_walk::{Halt, Statement, What, element, member, read_statement, skip_bom};
use ttp_base::Memory;

/// Where keys are first written, by how many bytes are left there.
pub(crate) type KeyMarks = BTreeMap<String, usize>;

/// Where a slot and its keys stand, by how many bytes are left there.
#[derive(Drop)]
pub(crate) struct SlotMarks {
    pub(crate) left: usize,
    pub(crate) keys: KeyMarks,
}

/// Where the keys at the top, the slots and their keys are first written.
#[derive(Drop)]
pub(crate) struct Marks {
    pub(crate) top: KeyMarks,
    pub(crate) slots: Vec<SlotMarks>,
    /// A header came, and the last one began a slot.
    has_headers: bool,
    is_in_slot: bool,
}

// Notes where a key stands, unless it stood somewhere before.
fn note(alloc: Global, keys: &mut KeyMarks, key: &str, left: usize) -> Result<(), Memory>
    ensures { IfOk result (λ _. (places : List spec.KeyPlace) → AreKeys keys.old places
        → AreKeys keys.new (places ++ spec.key_place key.now left ∷ [])) }
{
    if keys.contains_key(key) {
        return Ok(());
    }
    let text = String::from_str(alloc, key)?;
    keys.insert(text, left)?;
    Ok(())
}

fn first_part(key: &Key) -> &str
    ensures { result.now ≡ spec.first_part (key_view key.now) }
{
    match key.path.as_slice() {
        [part, ..] => part.as_str(),
        [] => key.last.as_str(),
    }
}

fn second_part(key: &Key) -> Option<&str>
    ensures { option_map (λ part. part.now) result ≡ spec.second_part (key_view key.now) }
{
    match key.path.as_slice() {
        [_, part, ..] => Some(part.as_str()),
        [_] => Some(key.last.as_str()),
        [] => None,
    }
}

fn is_slot_key(key: &Key) -> bool
    ensures { result ≡ spec.is_slot_key (key_view key.now) }
{
    key.path.is_empty() && key.last.as_str() == "slot"
}

// Notes a member of an inline table, and gives the text behind it, unless the table ends or can't be read.
#[tactic(auto, unfolding(crate::specs::Marks::member_places))]
fn member_turn<'a>(
    alloc: Global,
    keys: &mut KeyMarks,
    s: &'a str,
) -> Result<Option<&'a str>, Memory>
    ensures value { IfOk result (λ turn. MembersTurn s.now turn keys.old keys.new) }
    ensures shorter { IfOk result (λ turn. IfSome turn (λ rest. length rest.now < length s.now)) }
{
    let start = skip_blank(s, true);
    if first(start) == b'}' {
        return Ok(None);
    }
    match member(alloc, start) {
        Ok((key, after)) => {
            note(alloc, keys, first_part(&key), start.len())?;
            Ok(Some(after))
        }
        Err(Halt::Memory) => Err(Memory),
        Err(Halt::Stop(_)) => Ok(None),
    }
}

// The keys of an inline table, as far as it can be read.
fn note_members(alloc: Global, s: &str, keys: &mut KeyMarks) -> Result<(), Memory>
    ensures { IfOk result (λ _. (n : ℕ) (places : List spec.KeyPlace) → length s.now < n → AreKeys keys.old places
        → AreKeys keys.new (places ++ spec.member_places n s.now)) }
{
    let mut rest = s;
    'members: loop {
        let turn = member_turn(alloc, keys, rest)?;
        match turn {
            Some(after) => rest = after,
            None => return Ok(()),
        }
    }
}

// The keys of a slot that is an element of an array.
fn keys_at(alloc: Global, s: &str) -> Result<KeyMarks, Memory>
    ensures { IfOk result (λ keys. AreKeys keys (spec.element_keys s.now)) }
{
    let mut keys = BTreeMap::new(alloc);
    if first(s) == b'{' {
        note_members(alloc, skip(s, 1), &mut keys)?;
        return Ok(keys);
    }
    Ok(keys)
}

// The slot that is the element at the front of a text.
fn slot_at(alloc: Global, s: &str) -> Result<SlotMarks, Memory>
    ensures { IfOk result (λ slot. SlotIs slot (spec.element_place s.now)) }
{
    let keys = keys_at(alloc, s)?;
    let left = s.len();
    Ok(SlotMarks { left, keys })
}

// Notes an element of an array, and gives the text behind it, unless the array ends or can't be read.
#[tactic(auto, unfolding(crate::specs::Marks::element_places))]
fn element_turn<'a>(
    alloc: Global,
    slots: &mut Vec<SlotMarks>,
    s: &'a str,
) -> Result<Option<&'a str>, Memory>
    ensures value { IfOk result (λ turn. ElementsTurn s.now turn slots.old.items slots.new.items) }
    ensures shorter { IfOk result (λ turn. IfSome turn (λ rest. length rest.now < length s.now)) }
{
    let start = skip_blank(s, true);
    if first(start) == b']' {
        return Ok(None);
    }
    match element(alloc, start) {
        Ok(after) => {
            let slot = slot_at(alloc, start)?;
            slots.push(slot)?;
            Ok(Some(after))
        }
        Err(Halt::Memory) => Err(Memory),
        Err(Halt::Stop(_)) => Ok(None),
    }
}

// The elements of an array of slots, as far as it can be read.
fn note_elements(alloc: Global, s: &str, slots: &mut Vec<SlotMarks>) -> Result<(), Memory>
    ensures { IfOk result (λ _. (n : ℕ) (places : List spec.SlotPlace) → length s.now < n → SlotsAre slots.old.items places
        → SlotsAre slots.new.items (places ++ spec.element_places n s.now)) }
{
    let mut rest = s;
    'items: loop {
        let turn = element_turn(alloc, slots, rest)?;
        match turn {
            Some(after) => rest = after,
            None => return Ok(()),
        }
    }
}

// A key of the last slot.
fn note_in_slot(
    alloc: Global,
    slots: &mut Vec<SlotMarks>,
    key: &str,
    left: usize,
) -> Result<(), Memory>
    ensures { IfOk result (λ _. (places : List spec.SlotPlace) → SlotsAre slots.old.items places
        → SlotsAre slots.new.items (spec.in_last places key.now left)) }
{
    if slots.is_empty() {
        return Ok(());
    }
    let last = slots.len() - 1;
    note(alloc, &mut slots[last].keys, key, left)
}

impl Marks {
    fn new(alloc: Global) -> Marks
        ensures { MarksAre result spec.nothing_marked }
    {
        Marks {
            top: BTreeMap::new(alloc),
            slots: Vec::new(alloc),
            has_headers: false,
            is_in_slot: false,
        }
    }

    // A pair below a header.
    fn note_below(&mut self, alloc: Global, left: usize, key: &Key) -> Result<(), Memory>
        ensures { IfOk result (λ _. (m : spec.Marked) → MarksAre self.old m
            → MarksAre self.new (spec.pair_below m left (key_view key.now))) }
    {
        if self.is_in_slot {
            note_in_slot(alloc, &mut self.slots, first_part(key), left)
        } else {
            Ok(())
        }
    }

    // A pair above all headers, with the text at its value.
    fn note_at_top(
        &mut self,
        alloc: Global,
        left: usize,
        key: &Key,
        value: &str,
    ) -> Result<(), Memory>
        ensures { IfOk result (λ _. (m : spec.Marked) → MarksAre self.old m
            → MarksAre self.new (spec.pair_at_top m left (key_view key.now) value.now)) }
    {
        note(alloc, &mut self.top, first_part(key), left)?;
        if is_slot_key(key) && first(value) == b'[' {
            note_elements(alloc, skip(value, 1), &mut self.slots)
        } else {
            Ok(())
        }
    }

    // A header that begins a slot.
    fn note_slot(&mut self, alloc: Global, left: usize) -> Result<(), Memory>
        ensures { IfOk result (λ _. (m : spec.Marked) → MarksAre self.old m → MarksAre self.new (spec.with_begun_slot m left)) }
    {
        let keys = BTreeMap::new(alloc);
        self.slots.push(SlotMarks { left, keys })?;
        Ok(())
    }

    // A header that begins no slot.
    fn note_by_header(&mut self, alloc: Global, left: usize, key: &Key) -> Result<(), Memory>
        ensures { IfOk result (λ _. (m : spec.Marked) → MarksAre self.old m
            → MarksAre self.new (spec.with_these_slots m (spec.by_header m.slots (key_view key.now) left))) }
    {
        match second_part(key) {
            Some(part) => {
                if first_part(key) == "slot" {
                    note_in_slot(alloc, &mut self.slots, part, left)
                } else {
                    Ok(())
                }
            }
            None => Ok(()),
        }
    }

    // A header.
    fn note_header(
        &mut self,
        alloc: Global,
        left: usize,
        key: &Key,
        begins_slot: bool,
    ) -> Result<(), Memory>
        ensures { IfOk result (λ _. (m : spec.Marked) → MarksAre self.old m
            → MarksAre self.new (spec.after_header m left (key_view key.now) begins_slot)) }
    {
        self.has_headers = true;
        self.is_in_slot = begins_slot;
        note(alloc, &mut self.top, first_part(key), left)?;
        if begins_slot {
            self.note_slot(alloc, left)
        } else {
            self.note_by_header(alloc, left, key)
        }
    }

    // A statement.
    fn note_statement(
        &mut self,
        alloc: Global,
        left: usize,
        statement: &Statement<'_>,
    ) -> Result<(), Memory>
        ensures { IfOk result (λ _. (m : spec.Marked) → MarksAre self.old m
            → MarksAre self.new (spec.after_statement m left (statement_view statement.now))) }
    {
        let key = &statement.key;
        match statement.what {
            What::Pair => {
                if self.has_headers {
                    self.note_below(alloc, left, key)
                } else {
                    self.note_at_top(alloc, left, key, statement.value)
                }
            }
            What::Header => self.note_header(alloc, left, key, false),
            What::Element => self.note_header(alloc, left, key, is_slot_key(key)),
        }
    }
}

// Notes a statement, and gives the text behind it, unless the text ends or can't be read.
#[tactic(auto, unfolding(crate::specs::Marks::marks_from))]
fn line_turn<'a>(alloc: Global, marks: &mut Marks, s: &'a str) -> Result<Option<&'a str>, Memory>
    ensures value { IfOk result (λ turn. MarksTurn s.now turn marks.old marks.new) }
    ensures shorter { IfOk result (λ turn. IfSome turn (λ rest. length rest.now < length s.now)) }
{
    let start = skip_blank(s, true);
    if start.is_empty() {
        return Ok(None);
    }
    match read_statement(alloc, start) {
        Ok((statement, after)) => {
            marks.note_statement(alloc, start.len(), &statement)?;
            Ok(Some(after))
        }
        Err(Halt::Memory) => Err(Memory),
        Err(Halt::Stop(_)) => Ok(None),
    }
}

/// Where the keys and the slots of a text stand, as far as it can be read.
#[tactic(auto, unfolding(crate::specs::Marks::marks_of))]
pub(crate) fn marks_of(alloc: Global, text: &str) -> Result<Marks, Memory>
    ensures { IfOk result (λ marks. MarksAre marks (spec.marks_of text.now)) }
{
    let mut marks = Marks::new(alloc);
    let mut rest = skip_bom(text);
    'lines: loop {
        let turn = line_turn(alloc, &mut marks, rest)?;
        match turn {
            Some(after) => rest = after,
            None => return Ok(marks),
        }
    }
}
