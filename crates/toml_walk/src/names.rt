//! The names of a text and what they hold, by the rules with which keys and headers define tables.
ghost use Rattle.std.specs.Prelude.{◌≡◌, ◌<◌, IfOk, OnOk};
ghost use Rattle.toml_parser.specs.Reading.{key_view};
ghost use Rattle.toml_walk.specs.Names.{Noted, nothing_noted, held_by, with_table, noting, noting_table, noting_element};
ghost use Rattle.toml_walk.specs.Names.{pass_header, pass_dot, put, table_at, element_at, header_opened};
ghost use Rattle.toml_walk.specs.Reading.{NamesStandFor, LeadsTo, PutsAt, table_number};

use std::alloc::Global;
use std::collections::BTreeMap;
use toml_parser::Key;
use ttp_base::Memory;

/// What made a table: a header that passed through it, a dotted key, or its own header.
#[derive(Clone, Copy, PartialEq, Eq)]
pub(crate) enum Origin {
    Implicit,
    Dotted,
    Header,
}

/// What a key of a table holds. Tables are numbered in the order in which they come up.
#[derive(Clone, Copy)]
pub(crate) enum Holds {
    Value,
    Table { origin: Origin, number: usize },
    /// An array of tables, of which only the last one can grow.
    Array { last: usize },
}

/// What the keys of each table hold. Table 0 is the root.
#[derive(Drop)]
pub(crate) struct Names {
    tables: Vec<BTreeMap<String, Holds>>,
}

impl Names {
    /// The names of an empty text.
    pub(crate) fn new(alloc: Global) -> Result<Names, Memory>
        ensures { IfOk result (λ names. NamesStandFor names nothing_noted) }
    {
        let mut tables = Vec::new(alloc);
        tables.push(BTreeMap::new(alloc))?;
        Ok(Names { tables })
    }

    // One more table.
    fn add_table(&mut self, alloc: Global) -> Result<usize, Memory>
        ensures { IfOk result (λ number. (noted : Noted) → NamesStandFor self.old noted
            → (number ≡ noted.tables) × NamesStandFor self.new (with_table noted)) }
    {
        let number = self.tables.len();
        self.tables.push(BTreeMap::new(alloc))?;
        Ok(number)
    }

    // What a key of a table holds.
    fn find(&self, table: usize, key: &str) -> Option<Holds>
        ensures { (noted : Noted) → NamesStandFor self.now noted → result ≡ held_by table key.now noted.names }
    {
        match self.tables.as_slice().get(table) {
            Some(keys) => keys.get(key).copied(),
            None => None,
        }
    }

    // A key of a table holds something from now on.
    fn note(&mut self, alloc: Global, table: usize, key: &str, holds: Holds) -> Result<(), Memory>
        ensures { OnOk result ((noted : Noted) → NamesStandFor self.old noted → table < noted.tables
            → table_number holds < noted.tables → NamesStandFor self.new (noting table key.now holds noted)) }
    {
        if self.tables.len() <= table {
            return Ok(());
        }
        let key = String::from_str(alloc, key)?;
        self.tables[table].insert(key, holds)?;
        Ok(())
    }

    // A key holds a table that is new.
    fn note_table(
        &mut self,
        alloc: Global,
        table: usize,
        key: &str,
        origin: Origin,
    ) -> Result<usize, Memory>
        ensures { IfOk result (λ number. (noted : Noted) → NamesStandFor self.old noted → table < noted.tables
            → (number ≡ noted.tables) × NamesStandFor self.new (noting_table table key.now origin noted)) }
    {
        let number = self.add_table(alloc)?;
        self.note(alloc, table, key, Holds::Table { origin, number })?;
        Ok(number)
    }

    // A header goes through a table, or into the last element of an array of tables.
    fn pass_header(
        &mut self,
        alloc: Global,
        table: usize,
        key: &str,
    ) -> Result<Option<usize>, Memory>
        ensures { IfOk result (λ next. (noted : Noted) → NamesStandFor self.old noted → table < noted.tables
            → LeadsTo next self.new (pass_header table key.now noted)) }
    {
        let held = self.find(table, key);
        match held {
            None => {
                let number = self.note_table(alloc, table, key, Origin::Implicit)?;
                Ok(Some(number))
            }
            Some(Holds::Table { number, .. }) => Ok(Some(number)),
            Some(Holds::Array { last }) => Ok(Some(last)),
            Some(Holds::Value) => Ok(None),
        }
    }

    // A dotted key goes through a table that no header defined.
    fn pass_dot(&mut self, alloc: Global, table: usize, key: &str) -> Result<Option<usize>, Memory>
        ensures { IfOk result (λ next. (noted : Noted) → NamesStandFor self.old noted → table < noted.tables
            → LeadsTo next self.new (pass_dot table key.now noted)) }
    {
        let origin = Origin::Dotted;
        let held = self.find(table, key);
        match held {
            None => {
                let number = self.note_table(alloc, table, key, origin)?;
                Ok(Some(number))
            }
            Some(
                Holds::Table {
                    origin: Origin::Dotted,
                    number,
                },
            ) => Ok(Some(number)),
            Some(
                Holds::Table {
                    origin: Origin::Implicit,
                    number,
                },
            ) => {
                self.note(alloc, table, key, Holds::Table { origin, number })?;
                Ok(Some(number))
            }
            Some(_) => Ok(None),
        }
    }

    /// Defines a value at a key in a table, if nothing forbids it.
    pub(crate) fn put(&mut self, alloc: Global, table: usize, key: &Key) -> Result<bool, Memory>
        ensures { IfOk result (λ is_put. (noted : Noted) → NamesStandFor self.old noted → table < noted.tables
            → PutsAt is_put self.new (put table (key_view key.now) noted)) }
    {
        let mut at = table;
        for part in key.path.as_slice() {
            let led = self.pass_dot(alloc, at, part.as_str())?;
            match led {
                Some(next) => at = next,
                None => return Ok(false),
            }
        }
        let last = key.last.as_str();
        if self.find(at, last).is_some() {
            return Ok(false);
        }
        self.note(alloc, at, last, Holds::Value)?;
        Ok(true)
    }

    // The table of a header in single brackets.
    fn open_table(
        &mut self,
        alloc: Global,
        table: usize,
        key: &str,
    ) -> Result<Option<usize>, Memory>
        ensures { IfOk result (λ next. (noted : Noted) → NamesStandFor self.old noted → table < noted.tables
            → LeadsTo next self.new (table_at table key.now noted (held_by table key.now noted.names))) }
    {
        let origin = Origin::Header;
        let held = self.find(table, key);
        match held {
            None => {
                let number = self.note_table(alloc, table, key, origin)?;
                Ok(Some(number))
            }
            Some(
                Holds::Table {
                    origin: Origin::Implicit,
                    number,
                },
            ) => {
                self.note(alloc, table, key, Holds::Table { origin, number })?;
                Ok(Some(number))
            }
            Some(_) => Ok(None),
        }
    }

    // A key holds an array of tables whose last one is new.
    fn add_element(&mut self, alloc: Global, table: usize, key: &str) -> Result<usize, Memory>
        ensures { IfOk result (λ last. (noted : Noted) → NamesStandFor self.old noted → table < noted.tables
            → (last ≡ noted.tables) × NamesStandFor self.new (noting_element table key.now noted)) }
    {
        let last = self.add_table(alloc)?;
        self.note(alloc, table, key, Holds::Array { last })?;
        Ok(last)
    }

    // The table of a header in double brackets.
    fn open_element(
        &mut self,
        alloc: Global,
        table: usize,
        key: &str,
    ) -> Result<Option<usize>, Memory>
        ensures { IfOk result (λ next. (noted : Noted) → NamesStandFor self.old noted → table < noted.tables
            → LeadsTo next self.new (element_at table key.now noted (held_by table key.now noted.names))) }
    {
        let held = self.find(table, key);
        match held {
            None => {
                let last = self.add_element(alloc, table, key)?;
                Ok(Some(last))
            }
            Some(Holds::Array { .. }) => {
                let last = self.add_element(alloc, table, key)?;
                Ok(Some(last))
            }
            Some(_) => Ok(None),
        }
    }

    /// The table that a header opens, if nothing forbids it.
    pub(crate) fn open(
        &mut self,
        alloc: Global,
        key: &Key,
        is_element: bool,
    ) -> Result<Option<usize>, Memory>
        ensures { IfOk result (λ next. (noted : Noted) → NamesStandFor self.old noted
            → LeadsTo next self.new (header_opened is_element (key_view key.now) noted)) }
    {
        let mut at = 0;
        for part in key.path.as_slice() {
            let led = self.pass_header(alloc, at, part.as_str())?;
            match led {
                Some(next) => at = next,
                None => return Ok(None),
            }
        }
        let last = key.last.as_str();
        if is_element {
            self.open_element(alloc, at, last)
        } else {
            self.open_table(alloc, at, last)
        }
    }
}
