//! Whether a report is honest: one pass over its items, with a run under way and the one at the
//! last `enter`.
#![tactic(auto)]

mod age;
mod answers;
mod arguments;
mod blocks;
mod calls;
mod eval;
mod executed;
mod frames;
mod going;
mod held;
pub mod judge;
mod naming;
mod notes;
mod passes;
mod running;
mod scopes;
mod seeking;
mod sets;
mod statement;
mod step;
mod store;
mod uses;
mod watch;
mod way;
mod work;
