//! The laws.
ghost use Rattle.oc_builds.specs.Built.{MarkedImagesBreakNoRule, MarkedImagesFitFiles};

/// The image of a marked program breaks no rule, so the verifier doesn't refuse it.
pub fn marked_images_break_no_rule()
    ensures { MarkedImagesBreakNoRule }
{}

/// The bytes of such an image are those of an image, where its names are names and short enough.
pub fn marked_images_fit_files()
    ensures { MarkedImagesFitFiles }
{}
