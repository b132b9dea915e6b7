//! What holds of the trees of checked programs, whatever is done with them: ranks fall along calls,
//! names are found at their places, declarations are few, and blocks and regions lie apart. Laws
//! alone.
#![tactic(auto)]
