//! Laws: a function does nothing, and its contract says the law.
ghost use Rattle.oc_top.specs.BuiltImages.{BuiltImagesAreAdmitted, BuiltImagesAreNotRefused, BuiltImagesRun};
ghost use Rattle.oc_top.specs.SmallImages.{ImagesAreSmall};
ghost use Rattle.oc_top.specs.Vouched.{RunsAreFoundHonest};

use oc_audit::laws::honest_texts;
use oc_builds::laws::{marked_images_break_no_rule, marked_images_fit_files};

/// Of the text of a run, an audit for its source finds that it is honest and nothing else.
pub fn runs_are_found_honest()
    ensures { RunsAreFoundHonest }
{
    honest_texts();
}

/// The image of a source of at most 1 MiB is small enough for a file.
pub fn images_are_small()
    ensures { ImagesAreSmall }
{}

/// The bytes of the image of a source of at most 1 MiB are those of an image that breaks no rule.
pub fn built_images_are_admitted()
    ensures { BuiltImagesAreAdmitted }
{
    marked_images_break_no_rule();
    marked_images_fit_files();
    images_are_small();
}

/// Over an image that `build --image` printed `exec` says what `run` says over its source, with the
/// same sensors and power, and never that it is no image or breaks a rule.
pub fn built_images_run()
    ensures same { BuiltImagesRun }
    ensures passes { BuiltImagesAreNotRefused }
{
    built_images_are_admitted();
}
