//! The giver's end and the worker's.
ghost use Rattle.std.specs.Prelude.{false, true, ◌≡◌, ◌≢◌, ◌<◌, [], None, Some, IfOk, IfErr};
ghost use Rattle.errand.specs.declared.note.Role.TheVariants.{Alone, Gives, Awaits, Stopped, Works, Ended};
ghost use Rattle.errand.specs.Turns.{MaySleep, bare, laden};
ghost use Rattle.errand.specs.Ends.{IsSeated};

use crate::note::Note;
use crate::rule::{
    Ask, Back, Begin, Board, ByTurns, Errand, Fetch, Give, Hire, Look, Same, Stop, Take,
};
use atomic_table::{Seat, Table};
use std::alloc::{AllocError, Global};
use std::sync::Wait;
use std::{hint, thread};

// Words of the table: whose turn it is, and how it is with the worker and with the giver.
const TURN: usize = 0;

const WORKER: usize = 1;

const GIVER: usize = 2;

// How it is with an end: it is not at work yet (0), it sleeps, or it is awake.
const AWAY: u64 = 0;

const ASLEEP: u64 = 1;

const AWAKE: u64 = 2;

// What the turn's word says. A job that is given belongs to whoever changes that word first: the worker, who begins it,
// or the giver, who takes it back.
const NONE: u64 = 0;

const GIVEN: u64 = 1;

const DONE: u64 = 2;

const STOPPED: u64 = 3;

const BEGUN: u64 = 4;

// Looks before a yield, and before a sleep.
const SPINS: u32 = 400;

const YIELDS: u32 = 450;

// Looks for a worker that is to begin to serve, before a yield and at all.
const SERVICE_SPINS: u32 = 4_000;

const SERVICE: u32 = 4_020;

// Looks for a worker that is to begin a job, before the job is taken back.
const STARTS: u32 = 100;

// A worker that is late for every job is woken and waited for at each of so many.
const REMINDER: u32 = 64;

// What `goes_first` multiplies by: 2^32 over the golden ratio, whose multiples lie evenly whichever of them are taken.
const SPREAD: u32 = 2_654_435_769;

const HALF: u32 = 2_147_483_648;

pub type End<J> = Seat<Option<J>, Note<J>>;

pub type Whole<J, D> = Table<Option<J>, Note<J>, (), ByTurns<D>, Global>;

/// A table for the jobs of one worker.
pub fn open<J: Drop, D: Errand<J>>(alloc: Global) -> Result<(Whole<J, D>, End<J>), AllocError>
    ensures { IfOk result (λ r. IsSeated r.0.shared.table_id r.1.table_id × (r.1.me ≡ bare Alone None)) }
{
    Table::vacant(alloc, &[0, 0, 0], 1, &())
}

/// The end that gives jobs, while no job is out. Its drop ends the worker.
pub struct Giver<'a, J, D: Errand<J>> {
    board: &'a Board<J, D>,
    seat: End<J>,
    // How many jobs there were since the last one that the worker did.
    late: u32,
    ghost seated: { IsSeated board.now.table_id seat.table_id },
    ghost idle: { seat.me ≡ laden Gives None None },
}

/// The end that gives jobs, while one is out. It has no `Drop`, so that the job is finished.
pub struct Waiting<'a, J, D: Errand<J>> {
    board: &'a Board<J, D>,
    seat: End<J>,
    late: u32,
    ghost seated: { IsSeated board.now.table_id seat.table_id },
    ghost given: { (seat.me ≡ bare Gives seat.me.0.job) × (seat.me.0.job ≢ None) },
}

/// The end that gives jobs, while the worker is at work on one. It has no `Drop` either.
pub struct Begun<'a, J, D: Errand<J>> {
    board: &'a Board<J, D>,
    seat: End<J>,
    ghost seated: { IsSeated board.now.table_id seat.table_id },
    ghost begun: { (seat.me ≡ bare Awaits seat.me.0.job) × (seat.me.0.job ≢ None) },
}

/// The end that works.
#[derive(Drop)]
pub struct Worker<'a, J, D: Errand<J>> {
    board: &'a Board<J, D>,
    seat: End<J>,
    ghost seated: { IsSeated board.now.table_id seat.table_id },
    ghost free: { seat.me ≡ bare Works None },
}

/// The end that worked, once the giver is dropped: no job comes any more. Nothing else makes one.
#[derive(Drop)]
pub struct Dismissed<J> {
    seat: End<J>,
    ghost ended: { seat.me ≡ bare Ended None },
}

/// Makes the two ends.
pub fn hire<'a, J, D: Errand<J>>(
    board: &'a Board<J, D>,
    mut seat: End<J>,
) -> (Giver<'a, J, D>, Worker<'a, J, D>)
    requires { IsSeated board.now.table_id seat.table_id × (seat.me ≡ bare Alone None) }
{
    let other = board.split_seat::<Hire>(&mut seat);
    board.load::<Begin>(&mut seat, TURN);
    let giver = Giver {
        board,
        seat,
        late: 0,
    };
    (giver, Worker { board, seat: other })
}

// Whether a worker is woken and waited for that was too late for so many jobs: the next one, the second one after it, the
// fourth one, and so on, so that one that can't come costs next to nothing.
fn is_expected(late: u32) -> bool {
    late % REMINDER == 0 || late.is_power_of_two()
}

// Wakes the other end if it sleeps.
fn wake<J, D: Errand<J>>(board: &Board<J, D>, flag: usize)
    requires { (flag < 3) × (board.now.table_id.words ≡ 3) }
{
    if board.peek(flag) == ASLEEP {
        board.wake_one(TURN);
    }
}

// Waits a little before the next look, longer from look to look. It sleeps only while the first word says what was seen.
fn rest<R: Wait, J, D: Errand<J>>(
    rt: &R,
    board: &Board<J, D>,
    seat: &mut End<J>,
    looks: u32,
    flag: usize,
    seen: u32,
)
    requires seated { IsSeated board.now.table_id seat.old.table_id }
    requires flag { (0 < flag) × (flag < 3) }
    requires seen { MaySleep seat.old.me.0.role seen }
    ensures { (seat.new.table_id ≡ seat.old.table_id) × (seat.new.me ≡ seat.old.me) }
{
    if looks < SPINS {
        hint::spin_loop();
    } else if looks < YIELDS {
        thread::yield_now();
    } else {
        board.store::<Same>(seat, flag, ASLEEP);
        board.park(rt, TURN, seen);
        board.store::<Same>(seat, flag, AWAKE);
    }
}

impl<'a, J, D: Errand<J>> Giver<'a, J, D> {
    /// Looks for a while whether the worker begins to serve, so that it has the first jobs too.
    pub fn await_service(&self) {
        for looks in 0..SERVICE {
            if self.board.peek(WORKER) != AWAY {
                return;
            }
            if looks < SERVICE_SPINS {
                hint::spin_loop();
            } else {
                thread::yield_now();
            }
        }
    }

    /// Gives a job to the worker. One that was late for the last ones is mostly left asleep.
    pub fn ask(self, job: J) -> Waiting<'a, J, D>
        requires may { D.needs job }
        ensures { result.seat.me.0.job ≡ Some job }
    {
        let Giver {
            board,
            mut seat,
            late,
        } = self;
        match board.exchange(&mut seat, 0, Some(job)) {
            None => {}
            Some(_) => unreachable!(),
        }
        board.store::<Ask>(&mut seat, TURN, GIVEN);
        if is_expected(late) {
            wake(board, WORKER);
        }
        Waiting { board, seat, late }
    }
}

// Ends the work, and wakes the worker for that.
fn stop<J, D: Errand<J>>(board: &Board<J, D>, seat: &mut End<J>)
    requires seated { IsSeated board.now.table_id seat.old.table_id }
    requires idle { seat.old.me ≡ laden Gives None None }
    ensures { seat.new.me ≡ laden Stopped None None }
{
    board.store::<Stop>(seat, TURN, STOPPED);
    board.wake_one(TURN);
}

impl<'a, J, D: Errand<J>> Drop for Giver<'a, J, D> {
    fn drop(self) {
        let Self {
            board,
            mut seat,
            late: _,
        } = self;
        stop(board, &mut seat);
    }
}

// Waits until the job is done, and has the slot with it.
fn wait_done<R: Wait, J, D: Errand<J>>(rt: &R, board: &Board<J, D>, seat: &mut End<J>)
    requires seated { IsSeated board.now.table_id seat.old.table_id }
    requires begun { (seat.old.me ≡ bare Awaits seat.old.me.0.job) × (seat.old.me.0.job ≢ None) }
    ensures { (seat.new.table_id ≡ seat.old.table_id) × ((k : J) × (seat.new.me ≡ laden Gives None (Some k)) × ((j : J) → seat.old.me.0.job ≡ Some j → D.does j k)) }
{
    let mut looks = 0u32;
    for _ in rt.forever() {
        match board.load::<Fetch<D>>(seat, TURN) {
            DONE => return,
            _ => rest(rt, board, seat, looks, GIVER, 4),
        }
        looks = looks.saturating_add(1);
    }
    unreachable!()
}

impl<'a, J, D: Errand<J>> Waiting<'a, J, D> {
    // Looks for a little while whether the worker begins the job, and once where it was late for the last ones.
    fn is_begun(&self) -> bool {
        let looks = if is_expected(self.late) { STARTS } else { 1 };
        for _ in 0..looks {
            if self.board.peek(TURN) != GIVEN {
                return true;
            }
            hint::spin_loop();
        }
        false
    }

    /// Whether the job is to be finished before what else there is to do. It is not where the worker has begun it, which is
    /// looked for a little while, so that both sides are at work at once; and else about each second time, so that neither
    /// side is always the first one.
    pub fn goes_first(&self) -> bool {
        !self.is_begun() && self.late.wrapping_mul(SPREAD) >= HALF
    }

    /// The job as it was given. `Err` where the worker has begun it: then the worker does it, and [`take`](Begun::take)
    /// has it. Costs a few looks at a word and an atomic step, and takes no memory.
    pub fn take_back(self) -> Result<(Giver<'a, J, D>, J), Begun<'a, J, D>>
        ensures back { IfOk result (λ r. (self.entry.seat.me.0.job ≡ Some r.1) × D.needs r.1) }
        ensures begun { IfErr result (λ w. w.seat.me.0.job ≡ self.entry.seat.me.0.job) }
    {
        self.is_begun();
        let Waiting {
            board,
            mut seat,
            late,
        } = self;
        if board.compare_exchange::<Back<D>>(&mut seat, TURN, GIVEN, NONE) != GIVEN {
            return Err(Begun { board, seat });
        }
        let job = board.exchange(&mut seat, 0, None).unwrap();
        let giver = Giver {
            board,
            seat,
            late: late.wrapping_add(1),
        };
        Ok((giver, job))
    }

    /// The job as the work leaves it: the worker's if it has begun it, and else it is done here.
    pub fn finish<R: Wait, F: Fn(J) -> J>(self, rt: &R, work: &F) -> (Giver<'a, J, D>, J)
        requires may { (j : J) → D.needs j → F.pre work.now j }
        requires does { (j k : J) → D.needs j → F.post work.now j k → D.does j k }
        ensures { (j : J) → self.entry.seat.me.0.job ≡ Some j → D.does j result.1 }
    {
        match self.take_back() {
            Ok((giver, job)) => (giver, work(job)),
            Err(begun) => begun.take(rt),
        }
    }
}

impl<'a, J, D: Errand<J>> Begun<'a, J, D> {
    /// Waits for the worker to do the job. Costs as many looks as the work takes, and then a sleep; takes no memory.
    pub fn take<R: Wait>(self, rt: &R) -> (Giver<'a, J, D>, J)
        ensures { (j : J) → self.entry.seat.me.0.job ≡ Some j → D.does j result.1 }
    {
        let Begun { board, mut seat } = self;
        wait_done(rt, board, &mut seat);
        let job = board.exchange(&mut seat, 0, None).unwrap();
        let giver = Giver {
            board,
            seat,
            late: 0,
        };
        (giver, job)
    }
}

// Begins the job that lies in the slot, unless it was taken back.
fn begin<J, D: Errand<J>>(board: &Board<J, D>, seat: &mut End<J>) -> bool
    requires seated { IsSeated board.now.table_id seat.old.table_id }
    requires free { seat.old.me ≡ bare Works None }
    ensures table { seat.new.table_id ≡ seat.old.table_id }
    ensures begun { result ≡ true → (j : J) × (seat.new.me ≡ laden Works (Some j) (Some j)) × D.needs j }
    ensures not_begun { result ≡ false → seat.new.me ≡ seat.old.me }
{
    board.compare_exchange::<Take<D>>(seat, TURN, GIVEN, BEGUN) == GIVEN
}

// Waits for a job, and has the slot with it. False where the work is at its end.
fn wait_given<R: Wait, J, D: Errand<J>>(rt: &R, board: &Board<J, D>, seat: &mut End<J>) -> bool
    requires seated { IsSeated board.now.table_id seat.old.table_id }
    requires free { seat.old.me ≡ bare Works None }
    ensures { (seat.new.table_id ≡ seat.old.table_id)
        × (result ≡ true → (j : J) × (seat.new.me ≡ laden Works (Some j) (Some j)) × D.needs j)
        × (result ≡ false → seat.new.me ≡ bare Ended None) }
{
    let mut looks = 0u32;
    for _ in rt.forever() {
        match board.load::<Look>(seat, TURN) {
            GIVEN => {
                if begin(board, seat) {
                    return true;
                }
            }
            STOPPED => return false,
            DONE => rest(rt, board, seat, looks, WORKER, 2),
            _ => rest(rt, board, seat, looks, WORKER, 0),
        }
        looks = looks.saturating_add(1);
    }
    unreachable!()
}

// Does the job that lies in the slot, and gives it back.
fn do_job<J, D: Errand<J>, F: Fn(J) -> J>(board: &Board<J, D>, seat: &mut End<J>, work: &F)
    requires seated { IsSeated board.now.table_id seat.old.table_id }
    requires may { (j : J) → D.needs j → F.pre work.now j }
    requires does { (j k : J) → D.needs j → F.post work.now j k → D.does j k }
    requires taken { (j : J) × (seat.old.me ≡ laden Works (Some j) (Some j)) × D.needs j }
    ensures { (seat.new.table_id ≡ seat.old.table_id) × (seat.new.me ≡ bare Works None) }
{
    let job = board.exchange(seat, 0, None).unwrap();
    let done = work(job);
    match board.exchange(seat, 0, Some(done)) {
        None => {}
        Some(_) => unreachable!(),
    }
    board.store::<Give>(seat, TURN, DONE);
    wake(board, GIVER);
}

impl<'a, J, D: Errand<J>> Worker<'a, J, D> {
    /// Does this work on each job until the giver is dropped, and not shorter: the end that it gives back says so.
    pub fn serve<R: Wait, F: Fn(J) -> J>(self, rt: &R, work: &F) -> Dismissed<J>
        requires may { (j : J) → D.needs j → F.pre work.now j }
        requires does { (j k : J) → D.needs j → F.post work.now j k → D.does j k }
    {
        let Worker { board, mut seat } = self;
        board.store::<Same>(&mut seat, WORKER, AWAKE);
        for _ in rt.forever() {
            if !wait_given(rt, board, &mut seat) {
                return Dismissed { seat };
            }
            do_job(board, &mut seat, work);
        }
        unreachable!()
    }
}
