//! A worker that stays: work that is handed to a thread by value, again and again, and comes back with what the
//! work makes of it.
//!
//! Starting and joining a thread takes microseconds on a quiet machine and far more on a busy one. Here a thread
//! is started once. One end, a [`Giver`](ends::Giver), gives it a job, which is a value, and may do something else
//! meanwhile; then it finishes the job. What holds between the job as it was given and as it comes back is said by the
//! [`Errand`](rule::Errand), and [`Waiting::finish`](ends::Waiting::finish) passes it on, as `join` passes on what a
//! closure ensures. No job is lost: an end that has given one can't be dropped, only finish it.
//!
//! On a busy machine a worker waits for a processor for milliseconds. So a job that it has not begun in time is taken
//! back, and done by who gave it; and a worker that was late is woken less and less often, until it does a job again.
//! [`goes_first`](ends::Waiting::goes_first) says whether to finish a job before what else there is to do.
//!
//! A job costs each side a few atomic steps, all sequentially consistent, and takes no memory. Who waits looks again for
//! a while, then yields, and then sleeps until it is woken.
//!
//! The work itself is a closure that is given to whoever serves. A trait's method could not make calls that want a
//! bound `Sync` of the work's own type parameters; a closure takes that bound of the function around it.
//!
//! The crate starts no thread. Its caller runs `serve` in one, best by `std::thread::join_mut` with `serve` first, which
//! runs the other closure first where no thread is to be had. So work is done without threads where there are none. That
//! a worker ever begins a job, or comes back with one that it has begun, is no clause: `finish` and `serve` may wait.
//!
//! `count_in_threads` of host_tests is a proved caller.
#![tactic(auto)]

pub mod ends;
pub mod note;
pub mod rule;
