//! The image of each marked program breaks no rule of images, and its bytes are those of an image.
//!
//! Laws over the definitions of the code of programs and of the verifier. A law is a function that
//! does nothing, and its contract says the law.
#![tactic(auto)]

pub mod laws;
