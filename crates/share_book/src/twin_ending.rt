//! The end of two pools: they are closed, their workers' shares are put in a book, and the book is
//! settled.

ghost use Rattle.std.specs.Prelude.{◌≡◌, ◌+◌, IfOk, IfErr, true};
ghost use Rattle.pool_model.specs.Guests.{ListsEachOnceWith, guests_listed, local_statement};
ghost use Rattle.pool_model.specs.Sound.{ListsOnlyPackets};
ghost use Rattle.pool_model.specs.Statements.{ListsEachOnce, PlacesEachOnce};
ghost use Rattle.pool_model.specs.TwinModel.{first_statement, second_statement};
ghost use Rattle.snapshot.specs.Snapshots.{ListsItsElements, statement_in};
ghost use Rattle.share_book.specs.AsModel.{pools_of};
ghost use Rattle.share_book.specs.TwinSites.{first_snapshot, second_snapshot};

use crate::twin_site::TwinSite;
use book::twin_ending::settled_twins;
use commons::refusal::Refusal;
use pool_statement::statement::Statement;
use std::alloc::Global;

/// Closes two pools and settles them with the shares of all their workers: whatever was done with
/// them, neither has a fault. The statements are those of the model's pools. Each lists each
/// element of its pool exactly once: the bases of the packets that the second lists are elements of
/// the first, which their workers hold. What is available and what is in use are the population of
/// each. Each packet that is listed has 1 to 32 segments, each with its data within its buffer.
///
/// Refused `OutOfMemory` where memory was refused. The pools are ended then too, and nothing is left
/// of them.
pub fn settled(alloc: Global, pools: TwinSite) -> Result<(Statement, Statement), Refusal>
    ensures first_statement { IfOk result (λ s. s.0 ≡ statement_in (first_snapshot pools)) }
    ensures second_statement { IfOk result (λ s. s.1 ≡ statement_in (second_snapshot pools)) }
    ensures first_model { IfOk result (λ s. s.0 ≡ first_statement (pools_of pools)) }
    ensures second_model { IfOk result (λ s. s.1 ≡ second_statement (pools_of pools)) }
    ensures first_once { IfOk result (λ s. ListsItsElements (first_snapshot pools) s.0) }
    ensures second_once { IfOk result (λ s. ListsItsElements (second_snapshot pools) s.1) }
    // That each lists its elements once is read off both statements alone.
    ensures each { IfOk result (λ s. ListsEachOnceWith (guests_listed s.1) s.0 × ListsEachOnce (local_statement true s.1)) }
    ensures places { IfOk result (λ s. PlacesEachOnce pools.first.limits s.0 × PlacesEachOnce pools.second.limits s.1) }
    ensures sound { IfOk result (λ s. ListsOnlyPackets s.0 × ListsOnlyPackets s.1) }
    ensures whole { IfOk result (λ s. (s.0.available + s.0.in_use ≡ pools.first.limits.population)
        × (s.1.available + s.1.in_use ≡ pools.second.limits.population)) }
    ensures memory { IfErr result (λ e. e ≡ Refusal.OutOfMemory) }
{
    match pools.close(alloc) {
        Ok(closed) => settled_twins(alloc, closed),
        Err((cause, pools)) => {
            pools.lose();
            Err(cause)
        }
    }
}
