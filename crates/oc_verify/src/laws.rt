//! Laws of the verifier's definitions.
ghost use Rattle.std.specs.Prelude.{◌≡◌, ◌≤◌, ℕ, List, [], ◌∷◌, ◌++◌, length, Ok, Some};
ghost use Rattle.std.specs.List.{All};
ghost use Rattle.oc_tree.specs.declared.said.Target.{Target};
ghost use Rattle.oc_isa.specs.Bytes.{Bytes, list_bytes, number_bytes, placed_bytes, target_bytes};
ghost use Rattle.oc_isa.specs.Image.{Parts, IsWellMade};
ghost use Rattle.oc_isa.specs.Run.{IsSound};
ghost use Rattle.oc_isa.specs.declared.instr.Placed.{Placed};
ghost use Rattle.oc_isa.specs.Table.{device_of};
ghost use Rattle.oc_verify.specs.Merging.{AreLeast, leasts};
ghost use Rattle.oc_verify.specs.Reading.{
  AreImage,
  AreNumbers,
  IsInstr,
  IsNumber,
  list_at,
  number_at,
  placed_at,
  read_at,
  target_at,
  target_numbers,
};
ghost use Rattle.oc_verify.specs.Rules.{Broken, Reach};
ghost use Rattle.oc_verify.specs.Typing.{IsTyped, Pair, Typing};
ghost use Rattle.oc_verify.specs.Verified.{IsVerified};
ghost use Rattle.oc_verify.specs.Work.{IsWork, Marks};
ghost use Rattle.oc_verify.specs.declared.kind.Kind.{Kind};

/// A typed image is sound.
pub fn typed_is_sound()
    ensures { (i : Parts) (t : Typing) → IsTyped i t → IsSound (device_of i) }
{}

/// An image that was verified is well made, breaks no rule, and is sound.
pub fn verified_is_sound()
    ensures sound { (i : Parts) (t : Typing) → IsVerified i t → IsSound (device_of i) }
    ensures well_made { (i : Parts) (t : Typing) → IsVerified i t → IsWellMade i }
    ensures unbroken { (i : Parts) (t : Typing) → IsVerified i t
        → (a rule : ℕ) → Broken i a rule → ⊥ }
{}

/// What was written is read back, and what stands behind it is left.
pub fn fields_are_read_back()
    ensures numbers { (low high n : ℕ) (rest : Bytes) → low ≤ n → n ≤ high → IsNumber n
        → number_at low high (number_bytes n ++ rest) ≡ Ok (n, rest) }
    ensures regions { (rs : List (List Target)) (rest : Bytes) → IsNumber (length rs)
        → All (λ ts. IsNumber (length ts) × All (λ t. AreNumbers (target_numbers t)) ts) rs
        → list_at (list_at target_at) (list_bytes (list_bytes target_bytes) rs ++ rest)
        ≡ Ok (rs, rest) }
    ensures code { (ps : List Placed) (rest : Bytes) → IsNumber (length ps) → All IsInstr ps
        → list_at placed_at (list_bytes placed_bytes ps ++ rest) ≡ Ok (ps, rest) }
{}

/// What is read of an image's file is the image.
pub fn images_are_read()
    ensures { (bytes : Bytes) (i : Parts) → AreImage bytes i → read_at bytes ≡ Ok i }
{}

/// A walk through a function's code that has nothing left to look at has seen all that is reached.
pub fn walks_see_all()
    ensures { (i : Parts) (f : ℕ) (ks : List Kind) (tab : Marks) → IsWork i f ks tab []
        → (a : ℕ) (p : Pair) → Reach i f ks a p → tab a ≡ Some p }
{}

/// The kinds of parameters over some calls, and one more.
pub fn one_call_more()
    ensures { (passed : List (List Kind)) (old new ks : List Kind) → length old ≡ length new
        → leasts old new ≡ Some ks → AreLeast passed old → AreLeast (new ∷ passed) ks }
{}
