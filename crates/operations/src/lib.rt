// The operations on curves and servers, over flat lists of 64-bit numbers. No public function asks anything of its operands; each
// refuses what it cannot take, with the refusal that wins. A curve goes into a part of a lent table, and all of a lent list is one.
// What lies beyond the part stays, and on a refusal everything does.
#![tactic(auto)]

mod adding;
mod crossings;
pub mod curves;
mod delayed;
mod excess;
mod gather;
pub mod hops;
mod lowest;
mod port;
pub mod ports;
mod rated;
mod refusals;
pub mod value;
