//! What leads to what, where some numbers lead to others directly.
ghost use Rattle.std.specs.Prelude.{◌≡◌, ◌<◌, ℕ, [], ◌||◌, ◌≤◌, true, false, length, replicate, vec_len, OnOk, IfOk};
ghost use Rattle.std.proofs.Math.ListN.{get_or};
ghost use Rattle.oc_tree.specs.Reach.{Links, linked, reaches_some};
ghost use Rattle.oc_reach.specs.Marked.{is_in, rows};
ghost use Rattle.oc_reach.specs.Within.{IsWithin};

use crate::marks::Marks;
use std::alloc::{AllocError, Global};
use std::marker::Model;

/// Links between numbers below a bound, which contracts see as the list of them and the bound.
#[derive(Drop)]
pub struct Reach {
    links: Vec<(usize, usize)>,
    // for each number those that are linked to it
    leaders: Vec<Vec<usize>>,
}

impl Model for Reach {
    ghost Value = { Links × ℕ };

    ghost view = { λ r. (r.links.items, length r.leaders.items) };

    ghost invariant = { λ r. (IsWithin r.links.items (length r.leaders.items))
        × ((u v : ℕ) → is_in (get_or (rows r.leaders.items) v []) u ≡ linked r.links.items u v) };
}

/// Lists that are empty, one for each number below the bound. Err is want of memory.
fn no_leaders(alloc: Global, bound: usize) -> Result<Vec<Vec<usize>>, AllocError>
    ensures bound { IfOk result (λ r. vec_len r ≡ bound) }
    ensures none { IfOk result (λ r. rows r.items ≡ replicate bound []) }
{
    let mut leaders = Vec::new(alloc);
    for _i in 0..bound {
        leaders.push(Vec::new(alloc))?;
    }
    Ok(leaders)
}

/// Of each number below the bound, those that lead to it directly. Err is want of memory.
fn leaders_of(
    alloc: Global,
    bound: usize,
    links: &[(usize, usize)],
) -> Result<Vec<Vec<usize>>, AllocError>
    requires { IsWithin links.now bound }
    ensures bound { IfOk result (λ r. length r.items ≡ bound) }
    ensures leaders { IfOk result (λ r. (u v : ℕ)
        → is_in (get_or (rows r.items) v []) u ≡ linked links.now u v) }
{
    let mut leaders = no_leaders(alloc, bound)?;
    for link in links {
        leaders[link.1].push(link.0)?;
    }
    Ok(leaders)
}

impl Reach {
    /// The links, which are between numbers below `bound`.
    pub fn new(alloc: Global, bound: usize, links: Vec<(usize, usize)>) -> Result<Reach, AllocError>
        requires { IsWithin links.items bound }
        ensures { IfOk result (λ r. r ≡ (links.items, bound)) }
    {
        let leaders = leaders_of(alloc, bound, links.as_slice())?;
        Ok(Reach { links, leaders })
    }

    /// The bound of the numbers.
    pub fn bound(&self) -> usize
        ensures bound { result ≡ self.now.1 }
        ensures within { IsWithin self.now.0 self.now.1 }
    {
        self.leaders.len()
    }

    /// Marks what is linked to a number.
    fn mark_leaders(&self, marks: &mut Marks, number: usize) -> Result<(), AllocError>
        requires number { number < self.now.1 }
        requires bound { marks.old.1 ≡ self.now.1 }
        ensures bound { OnOk result (marks.new.1 ≡ marks.old.1) }
        ensures old { OnOk result ((j : ℕ) → j < length marks.old.0
            → get_or marks.new.0 j 0 ≡ get_or marks.old.0 j 0) }
        ensures more { OnOk result (length marks.old.0 ≤ length marks.new.0) }
        ensures marked { OnOk result ((u : ℕ)
            → is_in marks.new.0 u ≡ is_in marks.old.0 u || linked self.now.0 u number) }
    {
        marks.mark_all(self.leaders[number].as_slice())?;
        Ok(())
    }

    /// Marks all that reaches a marked number.
    pub fn mark_back(&self, mut marks: Marks) -> Result<Marks, AllocError>
        requires bound { marks.1 ≡ self.now.1 }
        requires inside { (v : ℕ) → is_in marks.0 v ≡ true → v < self.now.1 }
        ensures bound { IfOk result (λ m. m.1 ≡ self.now.1) }
        ensures marked { IfOk result
            (λ m. (u : ℕ) → is_in m.0 u ≡ reaches_some self.now.0 self.now.1 (is_in marks.0) u) }
    {
        // for the proof: all links lead to numbers below the bound
        let _bound = self.bound();
        for i in 0..usize::MAX {
            if i >= marks.len() {
                return Ok(marks);
            }
            let number = marks.at(i);
            self.mark_leaders(&mut marks, number)?;
        }
        // for the proof: fewer numbers are marked than the loop has turns
        let _count = marks.len();
        Ok(marks)
    }

    /// Marks what reaches a number whose test passes.
    pub fn back_from(&self, alloc: Global, tests: &[bool]) -> Result<Marks, AllocError>
        requires { length tests.now ≡ self.now.1 }
        ensures bound { IfOk result (λ m. m.1 ≡ self.now.1) }
        ensures marked { IfOk result
            (λ m. (u : ℕ)
            → is_in m.0 u ≡ reaches_some self.now.0 self.now.1 (λ v. get_or tests.now v false) u) }
    {
        let marks = Marks::of(alloc, tests)?;
        self.mark_back(marks)
    }
}
