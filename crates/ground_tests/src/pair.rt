//! A ground with two players.

ghost use Rattle.ground.specs.Seats.{IsOf};

use crate::player::Player;
use commons::closed::Closed;
use commons::limits::Limits;
use commons::refusal::Refusal;
use ground::pool::Ground;
use std::alloc::Global;
use step_core::step::{Outcome, Step};
use step_core::view::View;

/// A ground with two players, workers 1 and 2. It can't be dropped.
pub struct Pair {
    pool: Ground,
    first: Player,
    second: Player,
    pub ghost first_of: { IsOf pool first.seat },
    pub ghost second_of: { IsOf pool second.seat },
}

impl Pair {
    /// Makes the ground and both players. Refused `BadPool` too where the pool is for one worker.
    pub(crate) fn make(alloc: Global, limits: &Limits) -> Result<Pair, Refusal> {
        let (pool, mut first) = Player::make(alloc, limits)?;
        match first.split(&pool) {
            Some(second) => Ok(Pair {
                pool,
                first,
                second,
            }),
            None => {
                first.lose();
                Err(Refusal::BadPool)
            }
        }
    }

    /// A step of worker 1 or 2.
    pub(crate) fn step(&mut self, worker: u32, step: &Step) -> Result<Outcome, Refusal> {
        match worker {
            1 => self.first.step(&self.pool, step),
            2 => self.second.step(&self.pool, step),
            _ => Err(Refusal::StepRefused),
        }
    }

    /// The view of worker 1 or 2.
    pub(crate) fn view(&self, worker: u32) -> &View {
        match worker {
            1 => self.first.view(),
            _ => self.second.view(),
        }
    }

    /// Whether the view of worker 1 or 2 is what its seat knows.
    pub(crate) fn sees_all(&self, worker: u32) -> bool {
        match worker {
            1 => self.first.sees_all(),
            _ => self.second.sees_all(),
        }
    }

    /// Whether both players are between calls.
    pub(crate) fn is_at_rest(&self) -> bool {
        self.first.is_at_rest() && self.second.is_at_rest()
    }

    /// Ends the ground with the first player, once the second has joined it, or is lost where it
    /// can't.
    pub(crate) fn close(self) -> Result<Closed, Refusal> {
        let Pair {
            pool,
            mut first,
            second,
        } = self;
        if let Some(second) = first.join(&pool, second) {
            second.lose();
        }
        first.close(pool)
    }
}
