//! The checker of the rules.
#![tactic(auto)]

mod annotations;
mod calls;
mod counts;
mod disturbs;
mod elements;
mod heads;
mod known;
mod lends;
mod notes;
mod numbers;
mod operands;
mod place;
mod pulls;
mod reach;
mod rules;
mod scope;
mod shown;
mod sides;
mod sizes;
mod statement;
mod targets;
mod times;
mod top;
mod types;
mod uses;
mod walk;

pub use rules::{RuleError, check};
