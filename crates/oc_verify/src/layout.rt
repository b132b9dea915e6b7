//! How functions lie in the code, and how many words, names and targets there are.
ghost use Rattle.std.specs.Prelude.{◌≡◌, ◌≤◌, count_by, length, map, nat_lt, sum_by, ◌^◌};
ghost use Rattle.std.specs.List.{list_all};
ghost use Rattle.oc_tree.specs.Sizes.{name_limit};
ghost use Rattle.oc_isa.specs.Image.{is_main, parts_of};
ghost use Rattle.oc_verify.specs.Rules.{
  counts_fit,
  fits_in,
  has_frame,
  laid_out,
  rises,
  rises_from,
};

use oc_isa::image::{ImageFunction, ImageNv, RawImage};
use oc_tree::said::Target;

/// Whether the entries of functions rise, none of them below `start`.
fn rises_from(start: u64, functions: &[ImageFunction]) -> bool
    requires { start ≤ 2 ^ 32 }
    ensures { result ≡ rises_from start functions.now }
{
    let mut low = start;
    for function in functions {
        if (function.entry as u64) < low {
            return false;
        }
        low = function.entry as u64 + 1;
    }
    true
}

/// Whether entries rise from 0.
fn rises(functions: &[ImageFunction]) -> bool
    ensures { result ≡ rises functions.now }
{
    match functions {
        [] => false,
        [first, rest @ ..] => first.entry == 0 && rises_from(1, rest),
    }
}

/// Whether the entry of each function is an address of the code, which has this size.
fn enters_code(functions: &[ImageFunction], size: usize) -> bool
    ensures { result ≡ list_all (λ g. nat_lt g.entry size) functions.now }
{
    functions
        .iter()
        .all(|function| (function.entry as usize) < size)
}

/// How many functions are named `main`.
fn mains(functions: &[ImageFunction]) -> usize
    ensures { result ≡ count_by is_main functions.now }
{
    let mut mains = 0;
    for function in functions {
        if function.name.is_main() {
            mains += 1;
        }
    }
    mains
}

/// Whether a function's frame holds what it has to.
fn has_frame(function: &ImageFunction) -> bool
    ensures { result ≡ has_frame function.now }
{
    if function.name.is_main() {
        function.params == 0
    } else {
        function.params as u64 + 2 <= function.frame as u64
    }
}

/// Whether each function's frame holds what it has to.
fn have_frames(functions: &[ImageFunction]) -> bool
    ensures { result ≡ list_all has_frame functions.now }
{
    functions.iter().all(|function| has_frame(function))
}

/// Whether functions lie in the code, one after another, just one is `main`, and frames are wide
/// enough.
pub fn is_laid_out(image: &RawImage) -> bool
    ensures { result ≡ laid_out (parts_of image.now) }
{
    let size = image.code.len();
    size < 2147483648
        && rises(&image.functions)
        && enters_code(&image.functions, size)
        && mains(&image.functions) == 1
        && have_frames(&image.functions)
}

/// How many nonvolatile words there are.
pub fn nv_words(nv: &[ImageNv]) -> u64
    requires { length nv.now ≤ name_limit }
    ensures { result ≡ sum_by (λ v. v.words) nv.now }
{
    let mut words = 0;
    for one in nv {
        words += one.words as u64;
    }
    words
}

/// Whether a target lies in so many nonvolatile words, or is a parameter.
fn target_fits(words: u64, target: &Target) -> bool
    ensures { result ≡ fits_in words target.now }
{
    match *target {
        Target::Nv { base, len } => base as u64 + len as u64 <= words,
        Target::Param { .. } => true,
    }
}

/// Whether each of these targets lies in so many nonvolatile words, or is a parameter.
fn targets_fit(words: u64, targets: &[Target]) -> bool
    ensures { result ≡ list_all (fits_in words) targets.now }
{
    targets.iter().all(|target| target_fits(words, target))
}

/// Whether each target of each region lies in so many nonvolatile words, or is a parameter.
fn regions_fit(words: u64, regions: &[Vec<Target>]) -> bool
    ensures { result
        ≡ list_all (λ ts. list_all (fits_in words) ts) (map (λ r. r.items) regions.now) }
{
    for targets in regions {
        if !targets_fit(words, targets) {
            return false;
        }
    }
    true
}

/// Whether names are few, nonvolatile words too, and what regions may write lies in them.
pub fn counts_fit(image: &RawImage) -> bool
    ensures { result ≡ counts_fit (parts_of image.now) }
{
    if image.names.sensors.len() > 64
        || image.names.ports.len() > 64
        || image.names.nvs.len() > 64
        || image.nv.len() != image.names.nvs.len()
    {
        return false;
    }
    let words = nv_words(&image.nv);
    words <= 65536 && regions_fit(words, &image.targets)
}
