//! The machine that runs an image while power comes and goes.
//!
//! [`machine`] has the machine and what it lends. Each step is one of boot ([`boot`]), of a region's
//! entry or commit ([`region`]), or an instruction ([`execute`], with [`act`] for those that write no
//! nonvolatile word, and [`quiet`] for those of them that say nothing); [`outage`] has what a failure of
//! power does, [`burst`] goes over steps that say nothing, and [`run`] over the periods. [`prepared`] finds
//! the instructions that [`rows`] does in one go.
#![tactic(auto)]

mod act;
mod boot;
mod burst;
mod execute;
pub mod machine;
mod outage;
mod prepared;
mod quiet;
mod region;
mod rows;
mod run;
mod stack;
pub mod stop;
