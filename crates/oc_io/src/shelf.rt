//! Where files come from.
ghost use Rattle.std.specs.Prelude.{◌≡◌, ℕ, ◌≤◌, List, [], ◌∷◌, ◌++◌, length, IfOk, IfErr, OnOk};
ghost use Rattle.oc_io.specs.Held.{Held, Gives, Explains};

use std::alloc::Global;
use thiserror::Error;

/// Why a file wasn't fetched.
#[derive(Clone, Copy, Debug, Error)]
pub enum ShelfError {
    /// A fault was counted in this call.
    #[error("the file can't be read")]
    Unreadable,
    /// The shelf tells what it holds, and has nothing under this name.
    #[error("there is no such file")]
    Absent,
    /// More bytes than the limit. A shelf that tells what it holds says how many; another says
    /// how many it took.
    #[error("the file has more than {taken} bytes")]
    TooLong { taken: usize },
    #[error("out of memory")]
    Memory,
}

/// Where files come from, by their names.
///
/// `holds` says what stands under a name, and `asked` for which names, each with its limit, a
/// shelf was asked on the way from one state to another. A fault is counted in `faults` exactly
/// where a file can't be read.
pub trait Shelf {
    ghost holds: { Self → List ℕ → Held };

    ghost asked: { Self → List (List ℕ × ℕ) → Self → Type 0 };

    ghost faults: { Self → ℕ };

    /// The bytes of the file under a name, where it has at most `limit` of them; else why they
    /// don't come. What stands on the shelf stays.
    fn fetch(&mut self, alloc: Global, name: &str, limit: usize) -> Result<Vec<u8>, ShelfError>
        ensures short { IfOk result (λ v. length v.items ≤ limit) }
        ensures whole { IfOk result (λ v. Gives (holds self.old name.now) v.items) }
        ensures calm { OnOk result (faults self.new ≡ faults self.old) }
        ensures cause { IfErr result
            (λ e. Explains (holds self.old name.now) limit (faults self.old) (faults self.new) e) }
        ensures once { asked self.old ((name.now, limit) ∷ []) self.new }
        ensures kept { (n : List ℕ) → holds self.new n ≡ holds self.old n }
        ensures count { faults self.old ≤ faults self.new };

    ghost asked_nothing: { (s : Self) → asked s [] s };

    ghost asked_both: { (a b c : Self) (x y : List (List ℕ × ℕ))
        → asked a x b → asked b y c → asked a (x ++ y) c };
}
