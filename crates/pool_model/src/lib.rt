//! The reference model of a packet pool, what is stated of one, and the laws that stand above
//! both. A hold is one count of an mbuf's `refcnt`; the common list is the stack of `rte_mempool`.
#![tactic(auto)]

pub mod laws;
