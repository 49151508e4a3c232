//! The words of a ring, the two loops over the words of a message, and how a reader is joined.
ghost use Rattle.std.specs.Prelude.{◌≡◌, ◌+◌, ◌*◌, ◌<◌, ◌≤◌, [], ◌++◌, All, length, vec_len, vec_capacity, false};
ghost use Rattle.nbw_ring.specs.declared.view.View.TheVariants.{Writer, Reader};
ghost use Rattle.nbw_ring.specs.Numbers.{place, newest_number, IsMessageOf};
ghost use Rattle.nbw_ring.specs.Seats.{writing_of, reading_of, IsWriterSeat, IsReaderSeat, IsShape, IsTableOf};
ghost use Rattle.nbw_ring.specs.Seats.{IsWriting, IsAttempting};
ghost use Rattle.nbw_ring.specs.Steps.{with_settled, writer_stepped};

use crate::plays::{Put, RingRule, Settle, SettleLoad, WordLoad};
use crate::view::{Shape, View};
use atomic_table::{Shared, Table};
use std::alloc::Global;
use ttp_base::Gate;

/// The words of a ring: word 0 is the counter, and the buffers follow.
pub(crate) type Words = Table<(), View, Shape, RingRule, Global>;

/// The words as threads share them.
pub(crate) type Cells = Shared<(), View, Shape, RingRule>;

/// A place among those who step on the words of a ring.
pub(crate) type Seat = atomic_table::Seat<(), View>;

/// The word of the table where the message of a number begins.
pub(crate) fn start_of(shape: Shape, number: u64) -> usize
    requires { IsShape shape }
    ensures { result ≡ place shape number 0 }
{
    1 + (number % shape.buffers as u64) as usize * shape.width
}

/// Puts the words of the message of a number, which is being written.
pub(crate) fn put_words<G: Gate>(
    cells: &Cells,
    seat: &mut Seat,
    shape: Shape,
    number: u64,
    words: &[u64],
    gate: &G,
)
    requires seat { seat.old.table_id ≡ cells.now.table_id }
    requires table { IsTableOf shape cells.now.key cells.now.table_id }
    requires writer { IsWriterSeat seat.old }
    requires open { IsWriting (writing_of seat.old.me.0) number }
    requires width { length words.now ≡ shape.width }
    ensures table { seat.new.table_id ≡ seat.old.table_id }
    ensures seat { let old = writing_of seat.old.me.0 in
        seat.new.me ≡ (Writer (record old { put = words.now; steps = old.steps + length words.now }), []) }
{
    let start = start_of(shape, number);
    for k in 0..words.len() {
        gate.pass(2);
        cells.store::<Put>(seat, start + k, words[k]);
    }
}

/// Loads the words of the message of a number, whose attempt began, behind the words that are there.
pub(crate) fn load_words<G: Gate>(
    cells: &Cells,
    seat: &mut Seat,
    shape: Shape,
    number: u64,
    words: &mut Vec<u64>,
    gate: &G,
)
    requires seat { seat.old.table_id ≡ cells.now.table_id }
    requires table { IsTableOf shape cells.now.key cells.now.table_id }
    requires reader { IsReaderSeat seat.old }
    requires begun { IsAttempting (reading_of seat.old.me.0) number }
    requires room { vec_len words.old + shape.width ≤ vec_capacity words.old }
    ensures table { seat.new.table_id ≡ seat.old.table_id }
    ensures seat { let old = reading_of seat.old.me.0 in let words = (reading_of seat.new.me.0).words in
        seat.new.me ≡ (Reader (record old { words = words; steps = old.steps + shape.width }), []) }
    ensures loaded { words.new.items ≡ words.old.items ++ (reading_of seat.new.me.0).words }
    ensures wide { length (reading_of seat.new.me.0).words ≡ shape.width }
    ensures more { vec_len words.new ≡ vec_len words.old + shape.width }
    ensures room { vec_capacity words.new ≡ vec_capacity words.old }
{
    let start = start_of(shape, number);
    for k in 0..shape.width {
        gate.pass(5);
        let word = cells.load::<WordLoad>(seat, start + k);
        words.push_reserved(word);
    }
}

/// Joins a reader in the writer of its ring. The counter that is loaded then tells that each pair that
/// the reader got is the writer's, and that it loaded no counter above twice the writer's number.
pub(crate) fn join_reader(cells: &Cells, writer: &mut Seat, reader: Seat)
    requires writer { writer.old.table_id ≡ cells.now.table_id }
    requires reader { reader.table_id ≡ cells.now.table_id }
    requires words { 0 < cells.now.table_id.words }
    requires writes { IsWriterSeat writer.old }
    requires closed { (writing_of writer.old.me.0).is_open ≡ false }
    requires reads { IsReaderSeat reader }
    ensures table { writer.new.table_id ≡ writer.old.table_id }
    ensures seat { let both = with_settled (reading_of reader.me.0) (writing_of writer.old.me.0) in
        writer.new.me ≡ (Writer (writer_stepped both), []) }
    ensures whole { let written = (writing_of writer.old.me.0).messages in
        All (IsMessageOf written) (reading_of reader.me.0).got }
    ensures seen { let newest = newest_number (writing_of writer.old.me.0).messages in
        (reading_of reader.me.0).seen ≤ 2 * newest }
{
    cells.join_seat::<Settle>(writer, reader);
    cells.load::<SettleLoad>(writer, 0);
}
