//! Workers who act beside each other on words, each in a thread of its own.

ghost use Rattle.std.specs.Prelude.{All, ◌<◌, ◌≤◌, length};
ghost use Rattle.script.specs.inside.Crews.{EachStays};

use crate::acting::{Actor, perform_lines};
use crate::gate::Gate;
use mbuf::packets::SLOTS;
use script_text::commands::Line;
use std::alloc::Global;
use std::sync::atomic::{AtomicBool, Ordering};
use std::thread;
use std::thread::Threads;

/// Lets each worker perform its lines, in a thread of its own where one can be started, and
/// returns once each has. False where memory was refused.
pub(crate) fn play<P: Sync, A: Actor<P, 0> + Actor<P, SLOTS> + Send, G: Gate, R: Threads + Sync>(
    rt: &R,
    alloc: Global,
    pool: &P,
    workers: &mut [A],
    lines: &[Line],
    turns: u32,
    gate: &G,
) -> bool
    requires turns { 1 ≤ turns }
    requires some { 0 < length workers.old }
    requires few { length workers.old ≤ 64 }
    requires of { All (λ worker. A.acts_for pool.now worker) workers.old }
    requires itself { (worker : A) → A.stays worker worker }
    ensures stay { EachStays A.stays workers.old workers.new }
{
    let refused = AtomicBool::new(false);
    let noted = &refused;
    let threads = workers.len();
    thread::for_each_mut(
        rt,
        workers,
        threads,
        &|index: usize, worker: &mut A|
            requires { (1 ≤ turns) × (index < 64) × A.acts_for pool.now worker.now × ((w : A) → A.stays w w) }
            ensures { A.stays worker.entry.now worker.exit.now }
        {
            let number = index as u32 + 1;
            if !perform_lines(alloc, pool, worker, lines, number, turns, gate) {
                noted.store(true, Ordering::SeqCst);
            }
        },
    );
    !refused.load(Ordering::SeqCst)
}
