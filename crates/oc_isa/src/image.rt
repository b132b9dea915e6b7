//! Images.
ghost use Rattle.std.specs.Prelude.{◌≡◌};
ghost use Rattle.oc_isa.specs.Image.{parts_of, IsWellMade};

use crate::instr::Placed;
use oc_tree::name::{Name, Names};
use oc_tree::said::Target;
use std::marker::Model;

/// A nonvolatile variable of an image: so many words, each with this value at first.
#[derive(Clone, Copy)]
pub struct ImageNv {
    pub words: u32,
    pub initial: i32,
}

/// A function of an image: the address of its first instruction, how many parameters it has, and
/// how many stack words its frame has.
#[derive(Drop)]
pub struct ImageFunction {
    pub name: Name,
    pub entry: u32,
    pub params: u32,
    pub frame: u32,
}

/// The parts of an image, whatever they are. `targets` has what each region may overwrite, region
/// `r` at place `r - 1`; `nv` has an entry for each nonvolatile name; `stack` is how many words the
/// stack has.
#[derive(Drop)]
pub struct RawImage {
    pub names: Names,
    pub functions: Vec<ImageFunction>,
    pub targets: Vec<Vec<Target>>,
    pub nv: Vec<ImageNv>,
    pub code: Vec<Placed>,
    pub stack: u32,
}

/// An image: what its instructions name exists, and just one function is named `main`. That no run
/// meets an undefined step is no part of the type.
#[derive(Drop)]
pub struct Image {
    raw: RawImage,
}

impl Model for Image {
    ghost use Rattle.oc_isa.specs.Image.{Parts, parts_of, IsWellMade};

    ghost Value = { Parts };

    ghost view = { λ a. parts_of a.raw };

    ghost invariant = { λ a. IsWellMade (parts_of a.raw) };
}

impl Image {
    /// An image of these parts.
    pub fn new(raw: RawImage) -> Image
        requires { IsWellMade (parts_of raw) }
        ensures { result ≡ parts_of raw }
    {
        Image { raw }
    }

    /// The parts of the image.
    pub fn raw(&self) -> &RawImage
        ensures parts { parts_of result.now ≡ self.now }
        ensures made { IsWellMade self.now }
    {
        &self.raw
    }
}
