//! What a rollback comes to.
ghost use Rattle.std.specs.Prelude.{◌≡◌, ℕ, ℤ, suc, ◌<◌, true, pos, List, [], ◌∷◌, ◌++◌, length, slice_index_or, slice_set};
ghost use Rattle.oc_undo.specs.declared.Entry.{Entry};
ghost use Rattle.oc_undo.specs.Undo.{has_entry, undo, undo_one, rollback, first_old};

/// A rollback may be begun anew any number of times: once it runs to its end, each noted address
/// has the old word of its first entry, and every other word is as it was.
pub fn rollback_undoes()
    ensures again { (entries : List Entry) (broken_off : List ℕ) (nv : List ℤ)
        → rollback entries broken_off nv ≡ undo entries nv }
    ensures words { (entries : List Entry) (nv : List ℤ) (a : ℕ) → a < length nv
        → slice_index_or (undo entries nv) a (pos 0)
        ≡ first_old entries a (slice_index_or nv a (pos 0)) }
    ensures size { (entries : List Entry) (nv : List ℤ) → length (undo entries nv) ≡ length nv }
{}

/// What a rollback comes to isn't changed by a write of a noted address, by a note of the present
/// word, nor by a part of the rollback.
pub fn undo_stays()
    ensures write { (entries : List Entry) (nv : List ℤ) (a : ℕ) (word : ℤ)
        → has_entry entries a ≡ true → undo entries (slice_set nv a word) ≡ undo entries nv }
    ensures note { (entries : List Entry) (nv : List ℤ) (a : ℕ)
        → undo (entries ++ record { addr = a; old = slice_index_or nv a (pos 0) } ∷ []) nv
        ≡ undo entries nv }
    ensures part { (entries : List Entry) (k : ℕ) (nv : List ℤ) → k < length entries
        → undo entries (undo_one entries (suc k) nv) ≡ undo entries nv }
{}
