//! Two numbers counted up in rounds, one of them by a worker that stays, awake or asleep.
ghost use Rattle.std.specs.Prelude.{◌≡◌, ◌+◌, ◌<◌, ◌≤◌};

use errand::ends::{Giver, Worker, hire, open};
use errand::rule::Errand;
use std::alloc::Global;
use std::hint;
use std::sync::Wait;
use std::thread::{Threads, join_mut};

// A number that is counted up, and how often the worker did it.
#[derive(Drop)]
struct CountedUp {
    count: u64,
    served: u64,
}

struct CountUp;

impl Errand<CountedUp> for CountUp {
    ghost needs = { λ j. j.count < 1000 };

    ghost does = { λ j k. k.count ≡ j.count + 1 };
}

fn counted_up(job: CountedUp) -> CountedUp
    requires { job.count < 1000 }
    ensures { result.count ≡ job.count + 1 }
{
    CountedUp {
        count: job.count + 1,
        served: job.served,
    }
}

// Counts a number up as the worker does, which takes the time of so many looks.
fn served_up(job: CountedUp, looks: u32) -> CountedUp
    requires { job.count < 1000 }
    ensures { result.count ≡ job.count + 1 }
{
    pass(looks);
    CountedUp {
        count: job.count + 1,
        served: job.served.saturating_add(1),
    }
}

// Lets the time of so many looks go by.
fn pass(looks: u32) {
    for _ in 0..looks {
        hint::spin_loop();
    }
}

// Counts both up once, the second one by the worker if it comes to that while so many looks go by.
fn count_both<'a, R: Wait>(
    rt: &R,
    giver: &mut Option<Giver<'a, CountedUp, CountUp>>,
    front: CountedUp,
    back: CountedUp,
    looks: u32,
) -> (CountedUp, CountedUp)
    requires { (front.count < 1000) × (back.count < 1000) }
    ensures { (result.0.count ≡ front.count + 1) × (result.1.count ≡ back.count + 1) }
{
    let Some(hired) = giver.take() else {
        return (counted_up(front), counted_up(back));
    };
    let waiting = hired.ask(back);
    pass(looks);
    let front = counted_up(front);
    let (hired, back) = waiting.finish(
        rt,
        &|job: CountedUp| -> CountedUp
            requires { job.count < 1000 }
            ensures { result.count ≡ job.count + 1 }
        { counted_up(job) },
    );
    *giver = Some(hired);
    (front, back)
}

// Rounds that leave no time in which a worker that sleeps could begin.
const SHORT: u64 = 5;

// Counts both up in rounds, lets so many looks go by between them, and lets the worker go. The last number says how many
// rounds of the second one the worker did.
fn count_up<'a, R: Wait>(
    rt: &R,
    giver: &mut Option<Giver<'a, CountedUp, CountUp>>,
    rounds: u64,
    looks: u32,
) -> (u64, u64, u64)
    requires { rounds ≤ 1000 }
    ensures { (result.0 ≡ rounds) × (result.1 ≡ rounds) }
{
    let mut front = CountedUp {
        count: 0,
        served: 0,
    };
    let mut back = CountedUp {
        count: 0,
        served: 0,
    };
    for i in 0..rounds {
        pass(looks);
        let meanwhile = if i < SHORT { 0 } else { looks };
        (front, back) = count_both(rt, giver, front, back, meanwhile);
    }
    pass(looks);
    *giver = None;
    (front.count, back.count, back.served)
}

fn serve<'a, R: Wait>(rt: &R, worker: &mut Option<Worker<'a, CountedUp, CountUp>>, looks: u32) {
    if let Some(worker) = worker.take() {
        worker.serve(
            rt,
            &|job: CountedUp| -> CountedUp
                requires { job.count < 1000 }
                ensures { result.count ≡ job.count + 1 }
            { served_up(job, looks) },
        );
    }
}

// Counts in two threads, where a second one is to be had, each with so many looks, and says how many rounds the worker did,
// where both numbers have come so far.
fn count_in_threads<R: Threads + Wait + Sync>(
    rt: &R,
    alloc: Global,
    rounds: u64,
    looks: (u32, u32),
) -> Option<u64>
    requires { rounds ≤ 1000 }
{
    let Ok((table, seat)) = open::<CountedUp, CountUp>(alloc) else {
        return None;
    };
    let (giver, worker) = hire(&table.shared, seat);
    let (mut giver, mut worker) = (Some(giver), Some(worker));
    let mut serves = || serve(rt, &mut worker, looks.1);
    let mut counts = || -> (u64, u64, u64)
        requires { rounds ≤ 1000 }
        ensures { (result.0 ≡ rounds) × (result.1 ≡ rounds) }
    { count_up(rt, &mut giver, rounds, looks.0) };
    let (_, (front, back, served)) = join_mut(rt, &mut serves, &mut counts);
    if front == rounds && back == rounds {
        Some(served)
    } else {
        None
    }
}

#[test]
fn all_rounds_are_counted(rt: HostRuntime) {
    for rounds in [0u64, 1, 2, 1000] {
        assert!(rt; count_in_threads(&rt, rt.alloc(), rounds, (0, 0)).is_some());
    }
}

// Whether the worker did a tenth of so many rounds.
fn is_served<R: Threads + Wait + Sync>(
    rt: &R,
    alloc: Global,
    rounds: u64,
    looks: (u32, u32),
) -> bool
    requires { rounds ≤ 1000 }
{
    match count_in_threads(rt, alloc, rounds, looks) {
        Some(served) => served >= rounds / 10,
        None => false,
    }
}

// Both ends sleep in a round: the worker until it is given a job, and the giver until the job is done. A round that the
// system gives the worker no processor for is done by the giver; so that is tried again, and then with rounds that last
// longer, as a machine that has other work needs them.
#[test]
fn who_sleeps_is_woken(rt: HostRuntime) {
    let mut is_woken = false;
    for i in 0..20u8 {
        let (rounds, looks) = if i < 10 {
            (1000, 10_000)
        } else {
            (100, 200_000)
        };
        is_woken = is_woken || is_served(&rt, rt.alloc(), rounds, (looks, 2 * looks));
    }
    assert!(rt; is_woken);
}

// A worker that has slept for long when the giver goes is woken for its end: one that sleeps on has the run never end.
#[test]
fn a_sleeping_worker_is_let_go(rt: HostRuntime) {
    assert!(rt; count_in_threads(&rt, rt.alloc(), 0, (20_000_000, 0)).is_some());
}

// Whether a giver without a worker counts both numbers up, after which a worker that comes has nothing to do.
fn is_counted_alone<R: Wait>(rt: &R, alloc: Global) -> bool {
    let Ok((table, seat)) = open::<CountedUp, CountUp>(alloc) else {
        return false;
    };
    let (giver, worker) = hire(&table.shared, seat);
    let (front, back, _) = count_up(rt, &mut Some(giver), 10, 0);
    serve(rt, &mut Some(worker), 0);
    front == 10 && back == 10
}

// A worker that never comes is no hang: who gave it a job takes it back.
#[test]
fn a_job_that_nobody_begins_is_done_all_the_same(rt: HostRuntime) {
    assert!(rt; is_counted_alone(&rt, rt.alloc()));
}

// Whether a job that nobody begins is taken back as it was given.
fn is_taken_back<R: Wait>(rt: &R, alloc: Global) -> bool {
    let Ok((table, seat)) = open::<CountedUp, CountUp>(alloc) else {
        return false;
    };
    let (giver, _worker) = hire(&table.shared, seat);
    match giver
        .ask(CountedUp {
            count: 7,
            served: 0,
        })
        .take_back()
    {
        Ok((_, job)) => job.count == 7,
        Err(waiting) => {
            waiting.take(rt);
            false
        }
    }
}

#[test]
fn a_job_is_taken_back(rt: HostRuntime) {
    assert!(rt; is_taken_back(&rt, rt.alloc()));
}
