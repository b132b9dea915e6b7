//! Laws of the definitions.
ghost use Rattle.std.specs.Prelude.{◌≡◌, ◌<◌, ℕ, Bool, true, false};
ghost use Rattle.oc_tree.specs.Reach.{Links, linked, leads, rank};

/// What is linked leads; and leading goes on.
pub fn calls_lead()
    ensures direct { (links : Links) (n u v : ℕ) → linked links u v ≡ true
        → leads links n u v ≡ true }
    ensures on { (links : Links) (n u w v : ℕ) → w < n → leads links n u w ≡ true
        → leads links n w v ≡ true → leads links n u v ≡ true }
{}

/// Nothing leads but what any relation has that has the links and goes on.
pub fn leading_is_least()
    ensures { (links : Links) (n : ℕ) (r : ℕ → ℕ → Bool)
        → ((u v : ℕ) → linked links u v ≡ true → r u v ≡ true)
        → ((u w v : ℕ) → r u w ≡ true → r w v ≡ true → r u v ≡ true)
        → (u v : ℕ) → leads links n u v ≡ true → r u v ≡ true }
{}

/// Where what is called doesn't lead to itself, its rank is lower.
pub fn ranks_fall()
    ensures { (links : Links) (n u v : ℕ) → v < n → linked links u v ≡ true
        → leads links n v v ≡ false → rank links n v < rank links n u }
{}
