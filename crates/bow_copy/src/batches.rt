// A batch in hand: its job, and how many of its acts were done.
ghost use Rattle.std.specs.Prelude.{◌≡◌, ◌≢◌, ◌+◌, ◌*◌, ◌<◌, ◌≤◌, ◌^◌, ◌↔◌, ◌++◌, ℕ, false, length, slice_index_or};
ghost use Rattle.bow_copy.specs.Acts.{IsJob, IsOver, acts, acts_before_log, reads, writes, next_act, after_act, step_of, plain_copy};

use crate::{Act, After, Job};
use std::marker::Model;

/// A batch: its job, how many of its acts were done, and whether one failed.
#[derive(Drop)]
pub struct Batch {
    job: Job,
    acts_done: u32,
    failed: bool,
}

impl Model for Batch {
    ghost use Rattle.bow_copy.specs.Acts.{Progress, IsJob, acts};
    ghost use Rattle.std.specs.Prelude.{◌≤◌, length};

    ghost Value = { Progress };

    ghost view = { λ b. record { job = b.job; done = b.acts_done; failed = b.failed } };

    ghost invariant = { λ b. IsJob b.job × (b.acts_done ≤ length (acts b.job)) };
}

impl Batch {
    /// A batch at its first act. A `Copy` has 1 to 8 blocks.
    pub fn new(job: Job) -> Batch
        requires { IsJob job }
        ensures { result ≡ record { job = job; done = 0; failed = false } }
    {
        Batch {
            job,
            acts_done: 0,
            failed: false,
        }
    }

    /// The job that the batch was made with.
    pub fn job(&self) -> Job
        ensures { result ≡ self.now.job }
    {
        self.job
    }
}

/// The next act. `End` comes exactly after the last act was done, or after a failure.
pub fn next(batch: &Batch) -> Act
    ensures act { result ≡ next_act batch.now }
    ensures end { (result ≡ Act.End) ↔ IsOver batch.now }
{
    if batch.failed {
        return Act::End;
    }
    let lead = count_before_log(batch.job);
    if batch.acts_done < lead {
        act_before_log(batch.job, batch.acts_done)
    } else if batch.acts_done == lead {
        Act::WriteLog
    } else if batch.acts_done == lead + 1 {
        Act::Flush
    } else {
        Act::End
    }
}

/// Records the next act as done, or as failed. `LogGiven` comes after a `WriteLog` that succeeded, `Clean`
/// after the last flush, and `Failed` exactly where `ok` is `false`.
pub fn done(batch: &mut Batch, ok: bool) -> After
    requires { next_act batch.old ≢ Act.End }
    ensures after { result ≡ after_act batch.old ok }
    ensures step { batch.new ≡ step_of batch.old ok }
{
    let lead = count_before_log(batch.job);
    let place = batch.acts_done;
    if !ok {
        batch.failed = true;
        return After::Failed {
            log_given: lead <= place,
        };
    }
    batch.acts_done += 1;
    if place < lead {
        return After::Going;
    }
    if place == lead {
        return After::LogGiven;
    }
    After::Clean
}

// How many acts there are before the log is written.
fn count_before_log(job: Job) -> u32
    requires { IsJob job }
    ensures count { result ≡ length (acts_before_log job) }
    ensures few { result ≤ 17 }
{
    match job {
        Job::Rewrite => 0,
        Job::Link { .. } => 2,
        Job::Copy { count, .. } => 2 * count + 1,
        Job::Move { .. } => 3,
    }
}

// The act at this place, of those before the log is written.
fn act_before_log(job: Job, place: u32) -> Act
    requires valid { IsJob job }
    requires within { place < length (acts_before_log job) }
    ensures { result ≡ slice_index_or (acts_before_log job) place Act.End }
{
    match job {
        Job::Rewrite => unreachable!(),
        Job::Link { dest } => {
            if place == 0 {
                return Act::Write {
                    block: dest,
                    slot: 0,
                };
            }
        }
        Job::Copy {
            source,
            dest,
            count,
        } => {
            if place < 2 * count {
                return copying(source, dest, count, place);
            }
        }
        Job::Move { from, to } => {
            if place == 0 {
                return Act::Read {
                    block: from,
                    slot: 0,
                };
            }
            if place == 1 {
                return Act::Write { block: to, slot: 0 };
            }
        }
    }
    Act::Flush
}

// The read or write at this place, of those of a copy.
fn copying(source: u64, dest: u64, count: u32, place: u32) -> Act
    requires few { count ≤ 8 }
    requires within { place < 2 * count }
    ensures { result ≡ slice_index_or (reads source count ++ writes dest count) place Act.End }
{
    if place < count {
        return Act::Read {
            block: source.saturating_add(place as u64),
            slot: place,
        };
    }
    let slot = place - count;
    Act::Write {
        block: dest.saturating_add(slot as u64),
        slot,
    }
}

/// Where the blocks of a copy have numbers that fit, its acts are the reads of its sources in rising order,
/// the writes of its dests in rising order, a flush, the log, and a flush.
pub fn acts_of_fitting_blocks_law()
    ensures { (source dest count : ℕ) → source + count ≤ 2 ^ 64 → dest + count ≤ 2 ^ 64
        → acts (Job.Copy source dest count) ≡ plain_copy source dest count }
{}
