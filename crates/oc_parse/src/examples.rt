//! Tokens worked out by hand.
ghost use Rattle.oc_parse.specs.Worked.{WorkedDepths};

/// Behind `fn main() { let x = ` and 33 `(` tokens are missing; a 34th `(` passes the depth.
pub fn worked_depths()
    ensures { WorkedDepths }
{}
