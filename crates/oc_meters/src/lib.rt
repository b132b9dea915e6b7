//! Meters of a report.
//!
//! A [`meter::Meter`] is told the items of a report one by one and summarises them in numbers:
//! [`kinds`] has the three kinds. A [`sink::MeterSink`] stands round the sink that a report is
//! written on, and keeps a [`book::Book`], in which the meters are told the items of the lines that
//! went by: of a whole report just its items, by [`laws::report_is_read`]. [`text`] writes the
//! meters' lines.
#![tactic(auto)]

pub mod book;
pub mod kinds;
pub mod laws;
mod line;
pub mod meter;
pub mod sink;
pub mod text;
