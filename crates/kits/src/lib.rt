// The kits of this shop: common, number and switch, and the kits of the two benches.
#![tactic(auto)]

pub mod bench_kits;
pub mod common;
pub mod number;
mod strict;
pub mod switch;
