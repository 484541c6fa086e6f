//! Pools as a library for C, of values at a depot and of packets on words: each export is one call by
//! a worker, behind a handle that C has. `include/mbufpool.h` declares them.
#![tactic(auto)]

pub mod closing;
pub mod ending;
pub mod ending_handle;
pub mod guard_handle;
pub mod guard_workers;
pub mod guarded;
pub mod labels;
mod loose;
pub mod opening;
pub mod packets;
mod parcel_seat;
pub mod parcels;
pub mod pool;
pub mod pool_handle;
pub mod pool_workers;
pub mod sent;
mod shared;
pub mod told;
pub mod version;
pub mod worker_handle;
pub mod workers;
