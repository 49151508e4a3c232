//! What a settled reader got.
ghost use Rattle.std.specs.Prelude.{◌≡◌, ◌*◌, length, slice_get, IfOk};
ghost use Rattle.nbw_ring.specs.Pairs.{pairs_of};

use std::alloc::Global;
use std::marker::Model;
use ttp_base::{List, Memory};

/// A message with its number, as a reader got it. It is made by settling alone.
#[derive(Drop)]
pub struct Pair {
    pub(crate) number: u64,
    pub(crate) words: Vec<u64>,
}

impl Model for Pair {
    ghost use Rattle.nbw_ring.specs.declared.view.Message.{Message};

    ghost Value = { Message };

    ghost view = { λ p. record { number = p.number; words = p.words.items } };
}

impl Pair {
    /// The number of the message.
    pub fn number(&self) -> u64
        ensures { result ≡ self.now.number }
    {
        self.number
    }

    /// The words of the message.
    pub fn words(&self) -> &[u64]
        ensures { result.now ≡ self.now.words }
    {
        self.words.as_slice()
    }
}

/// The pairs that one reader got, in the order in which it got them.
#[derive(Drop)]
pub struct Receipts {
    pub(crate) pairs: List<Pair>,
}

impl Model for Receipts {
    ghost use Rattle.std.specs.Prelude.{List as Items};
    ghost use Rattle.nbw_ring.specs.declared.view.Message.{Message};

    ghost Value = { Items Message };

    ghost view = { λ r. r.pairs };
}

impl Receipts {
    /// The pairs, moved out and not copied.
    pub fn into_pairs(self) -> List<Pair>
        ensures { result ≡ self }
    {
        let Receipts { pairs } = self;
        pairs
    }
}

/// The first of these numbers, if there is one, as a pair with all these words.
pub(crate) fn first_pair(numbers: &[u64], words: Vec<u64>) -> Option<Pair>
    ensures { result ≡ slice_get (pairs_of numbers.now words.items (length words.items)) 0 }
{
    match numbers.first() {
        Some(number) => Some(Pair {
            number: *number,
            words,
        }),
        None => None,
    }
}

/// Pairs of these numbers, with the words that lie one pair after another.
pub(crate) fn pair_up(
    alloc: Global,
    numbers: &[u64],
    words: &[u64],
    width: usize,
) -> Result<Receipts, Memory>
    requires { length words.now ≡ length numbers.now * width }
    ensures { IfOk result (λ r. r ≡ pairs_of numbers.now words.now width) }
{
    let mut pairs = Vec::with_capacity(alloc, numbers.len())?;
    let mut rest = words;
    for number in numbers {
        let (front, back) = rest.split_at(width);
        let words = front.to_vec(alloc)?;
        pairs.push_reserved(Pair {
            number: *number,
            words,
        });
        rest = back;
    }
    Ok(Receipts {
        pairs: List::from_vec(pairs),
    })
}
