//! A guarded pool over a depot: what is put and isn't out is refused, whoever puts it. What a worker
//! gets and puts itself takes no exchange.
#![tactic(auto)]

pub mod kept;
pub mod marks;
pub mod opening;
pub mod refusal;
pub mod stale;
pub mod worker;
