//! Threads whose workers act on pools under one lock.

ghost use Rattle.std.specs.Prelude.{◌≤◌};
ghost use Rattle.twin_acts.specs.TwinActs.{HasTwinRoom};

use crate::acting::{Actor, Worker, perform_lines};
use crate::gate::Gate;
use mbuf::acts::Answer;
use mbuf::packets::SLOTS;
use script_text::commands::Line;
use std::alloc::Global;
use std::sync::Wait;
use std::thread;
use std::thread::Threads;
use twin_acts::acts::TwinAct;

/// A pool under one lock, or two, that answers with room for a bulk of `ROOM` packets.
pub(crate) trait Locked<const ROOM: usize> {
    /// Takes the lock, lets the worker of this number do this, and releases the lock. On a pool
    /// alone an act on a foreign clone is refused `Foreign`.
    fn act_locked<R: Wait>(&self, rt: &R, worker: u32, act: TwinAct) -> Answer<ROOM>
        requires room { HasTwinRoom ROOM act };
}

/// A worker, by its number, who takes the lock for each act.
#[derive(Drop)]
struct LockedWorker<'a, R> {
    rt: &'a R,
    number: u32,
}

impl<P, R: Wait> Worker<P> for LockedWorker<'_, R> {
    ghost acts_for = { λ pool worker. Unit {0} };

    ghost stays = { λ first last. Unit {0} };
}

impl<P: Locked<ROOM>, R: Wait, const ROOM: usize> Actor<P, ROOM> for LockedWorker<'_, R> {
    fn act_in(&mut self, pool: &P, act: TwinAct) -> Answer<ROOM> {
        pool.act_locked(self.rt, self.number, act)
    }
}

/// Starts a thread for each worker, and returns once each has performed its lines. False where
/// memory or a thread was refused.
pub(crate) fn play<P, G, R>(
    rt: &R,
    alloc: Global,
    pool: &P,
    workers: u32,
    lines: &[Line],
    turns: u32,
    gate: &G,
) -> bool
where
    P: Locked<0> + Locked<SLOTS> + Sync,
    G: Gate,
    R: Threads + Wait + Sync,
    requires turns { 1 ≤ turns }
{
    thread::scope(
        thread::scope_env(),
        rt,
        |scope| -> bool
            requires { 1 ≤ turns }
        {
            let mut handles = Vec::new(alloc);
            let mut all = true;
            for worker in 1..=workers {
                match scope.spawn(
                    move || -> bool
                        requires { 1 ≤ turns }
                    { play_worker(rt, alloc, pool, lines, worker, turns, gate) },
                ) {
                    Ok(handle) => all &= handles.push(handle).is_ok(),
                    Err(_) => all = false,
                }
            }
            for handle in handles {
                all &= handle.join(rt);
            }
            all
        },
    )
}

/// Performs a worker's lines. False where memory was refused.
fn play_worker<P: Locked<0> + Locked<SLOTS>, G: Gate, R: Wait>(
    rt: &R,
    alloc: Global,
    pool: &P,
    lines: &[Line],
    number: u32,
    turns: u32,
    gate: &G,
) -> bool
    requires turns { 1 ≤ turns }
{
    let mut worker = LockedWorker { rt, number };
    perform_lines(alloc, pool, &mut worker, lines, number, turns, gate)
}
