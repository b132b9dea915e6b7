//! What commands write: the reports of runs, and the texts of regions and images.
//!
//! [`prepare`] makes a machine of an image and of the files of its run, before the first byte is
//! written, and [`report`] runs it and writes its report; [`metered`] tells that to meters.
//! [`regions`] writes the text of a program's regions, [`image`] the bytes of an image, and
//! [`text`] any other text, also the listing of an image.
#![tactic(auto)]

pub mod image;
pub mod metered;
pub mod prepare;
pub mod regions;
pub mod report;
pub mod text;
