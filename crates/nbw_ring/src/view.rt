//! What the threads at a ring know. No value of these types is made but of [`Shape`]: they stand in
//! proofs and contracts alone.

use std::collections::LinkedList;

/// How many words of 64 bits a message has, and how many buffers a ring has.
#[derive(Clone, Copy)]
pub struct Shape {
    pub width: usize,
    pub buffers: usize,
}

/// A message with its number; the opening one has number 0.
pub struct Message {
    pub number: u64,
    pub words: LinkedList<u64>,
}

/// What was settled of one reader: the pairs that it got, the newest counter that it loaded, and how
/// many attempts it began.
pub struct Settlement {
    pub pairs: LinkedList<Message>,
    pub seen: u64,
    pub tries: u64,
}

/// What the writer knows.
pub struct Writing {
    pub shape: Shape,
    /// Its messages, number 0 first.
    pub messages: LinkedList<LinkedList<u64>>,
    /// Whether a write is open.
    pub is_open: bool,
    /// The words put since the write began.
    pub put: LinkedList<u64>,
    /// What was settled, reader after reader.
    pub joined: LinkedList<Settlement>,
    /// How many steps on shared words it made.
    pub steps: u64,
}

/// What a reader knows.
pub struct Reading {
    pub shape: Shape,
    /// No number that it gets is below it.
    pub floor: u64,
    /// The newest counter that it loaded.
    pub seen: u64,
    /// The counter with which its newest attempt began.
    pub first: u64,
    /// How many attempts it began.
    pub tries: u64,
    /// The words that the newest attempt loaded so far.
    pub words: LinkedList<u64>,
    /// The pairs that it got.
    pub got: LinkedList<Message>,
    /// How many steps on shared words it made.
    pub steps: u64,
}

/// What one thread knows.
pub enum View {
    Writer(Writing),
    Reader(Reading),
    /// It was settled, and knows nothing any more.
    Spent,
}
