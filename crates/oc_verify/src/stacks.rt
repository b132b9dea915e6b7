//! Stacks that share what is below.
ghost use Rattle.std.specs.Prelude.{
  ◌≡◌,
  ◌≢◌,
  ◌≤◌,
  ◌<◌,
  ℕ,
  [],
  ◌∷◌,
  ◌++◌,
  drop,
  length,
  nat_eq,
  IfOk,
  IfSome,
  OnErr,
  OnOk,
  Some,
  slice_get,
  false,
  true,
};
ghost use Rattle.std.specs.List.{list_any};
ghost use Rattle.oc_verify.specs.Stacks.{kind_limit, stack, with_node, Grows, IsIndex};
ghost use Rattle.oc_verify.specs.Told.{kinds, Leaves, IsJudgment, IsTop};
ghost use Rattle.oc_verify.specs.Rules.{number, place, closing, dropping, none_open};

use crate::fault::Fault;
use oc_io::Memory;
use std::alloc::Global;
use std::collections::BTreeMap;
use std::marker::Model;

/// The numbers on a stack are below it.
const KIND_LIMIT: u64 = 8589934592;

/// Stacks of numbers below 2^33, by numbers: 0 is the empty one, and equal stacks have one number.
#[derive(Drop)]
pub struct Stacks {
    nodes: Vec<u64>,
    /// The place of each node, in an ordered map: no nodes of an image can make it slow.
    places: BTreeMap<u64, u32>,
    /// The last answer of `drop_arguments`: so many words off this stack leave that one.
    last: (u32, u32, u32),
}

impl Model for Stacks {
    ghost use Rattle.std.specs.Prelude.{ℕ, List};
    ghost use Rattle.oc_verify.specs.Stacks.{AreNodes, IsIndex};
    ghost use Rattle.oc_verify.specs.Told.{Leaves};

    ghost Value = { List ℕ };

    ghost view = { λ s. s.nodes.items };

    ghost invariant = { λ s. AreNodes s.nodes.items × Leaves s.nodes.items s.last
        × IsIndex s.nodes.items s.places };
}

impl Stacks {
    /// No stack but the empty one.
    pub fn new(alloc: Global) -> Stacks
        ensures { result ≡ [] }
    {
        Stacks {
            nodes: Vec::new(alloc),
            places: BTreeMap::new(alloc),
            last: (0, 0, 0),
        }
    }

    /// The number of a stack with one more on top.
    pub fn push(&mut self, below: u32, top: u64) -> Result<u32, Memory>
        requires below { below ≤ length self.old }
        requires top { top < kind_limit }
        ensures number { IfOk result (λ n. stack self.new n ≡ top ∷ stack self.old below) }
        ensures within { IfOk result (λ n. n ≤ length self.new) }
        ensures grows { OnOk result (Grows self.old self.new) }
    {
        let place = place(
            &mut self.nodes,
            &mut self.places,
            below as u64 * KIND_LIMIT + top,
        )?;
        Ok(place + 1)
    }
}

/// Adds a node that isn't there at the next place.
fn add(
    nodes: &mut Vec<u64>,
    places: &mut BTreeMap<u64, u32>,
    node: u64,
    place: u32,
) -> Result<u32, Memory>
    requires fresh { list_any (nat_eq node) nodes.old.items ≡ false }
    requires index { IsIndex nodes.old.items places.old }
    requires next { place ≡ length nodes.old.items }
    ensures nodes { OnOk result (nodes.new.items ≡ nodes.old.items ++ node ∷ []) }
    ensures place { IfOk result (λ n. n ≡ length nodes.old.items) }
    ensures same { OnErr result (nodes.new.items ≡ nodes.old.items) }
    ensures index { IsIndex nodes.new.items places.new }
{
    if nodes.push(node).is_err() {
        return Err(Memory);
    }
    if places.insert(node, place).is_err() {
        let _ = nodes.pop();
        return Err(Memory);
    }
    Ok(place)
}

/// The place of a node, which is added unless it is there.
fn place(nodes: &mut Vec<u64>, places: &mut BTreeMap<u64, u32>, node: u64) -> Result<u32, Memory>
    requires index { IsIndex nodes.old.items places.old }
    requires few { length nodes.old.items < 2147483648 }
    ensures keys { OnOk result (nodes.new.items ≡ with_node nodes.old.items node) }
    ensures found { IfOk result (λ n. slice_get nodes.new.items n ≡ Some node) }
    ensures few { OnOk result (length nodes.new.items < 2147483648) }
    ensures same { OnErr result (nodes.new.items ≡ nodes.old.items) }
    ensures small { IfOk result (λ n. n < 2147483648) }
    ensures within { IfOk result (λ n. n < length nodes.new.items) }
    ensures index { IsIndex nodes.new.items places.new }
{
    if let Some(place) = places.get(&node) {
        return Ok(*place);
    }
    let count = nodes.len();
    if count >= 2147483647 {
        return Err(Memory);
    }
    add(nodes, places, node, count as u32)
}

impl Stacks {
    /// The top of a stack, and the number of what is below; none of the empty one.
    pub fn top(&self, number: u32) -> Option<(u64, u32)>
        requires { number ≤ length self.now }
        ensures top { IsTop self.now number result }
        ensures within { IfSome result (λ t. t.1 ≤ length self.now) }
        ensures lower { IfSome result (λ t. t.1 < number) }
    {
        if number == 0 {
            return None;
        }
        let node = self.nodes[number as usize - 1];
        Some((node % KIND_LIMIT, (node / KIND_LIMIT) as u32))
    }

    /// How many stacks there are but the empty one.
    pub fn count(&self) -> u32
        ensures count { result ≡ length self.now }
        ensures few { result < 2147483648 }
    {
        self.nodes.len() as u32
    }

    /// Whether two numbers are those of one stack.
    pub fn is_same(&self, left: u32, right: u32) -> bool
        requires left { left ≤ length self.now }
        requires right { right ≤ length self.now }
        ensures same { result ≡ true → left ≡ right }
        ensures differ { result ≡ false → stack self.now left ≢ stack self.now right }
    {
        // for the proof, which knows that nodes differ once a field is read
        let _nodes = &self.nodes;
        left == right
    }

    /// The kinds below a number.
    pub fn number(&self, ops: u32) -> Result<u32, Fault>
        requires { ops ≤ length self.now }
        ensures exact { IsJudgment (λ n. kinds self.now n) result (number (kinds self.now ops)) }
        ensures within { IfOk result (λ n. n ≤ length self.now) }
    {
        match self.top(ops) {
            Some((0, below)) => Ok(below),
            _ => Err(Fault::Broken { rule: 4 }),
        }
    }

    /// The kinds below a place of at least so many words.
    pub fn place(&self, words: u32, ops: u32) -> Result<u32, Fault>
        requires { ops ≤ length self.now }
        ensures exact { IsJudgment (λ n. kinds self.now n) result
            (place words (kinds self.now ops)) }
        ensures within { IfOk result (λ n. n ≤ length self.now) }
    {
        match self.top(ops) {
            Some((0, _)) | None => Err(Fault::Broken { rule: 4 }),
            Some((code, below)) => {
                if words as u64 <= code - 1 {
                    Ok(below)
                } else {
                    Err(Fault::Broken { rule: 4 })
                }
            }
        }
    }

    /// The regions open outside of the last one, which is this.
    pub fn closing(&self, region: u32, opens: u32) -> Result<u32, Fault>
        requires { opens ≤ length self.now }
        ensures exact { IsJudgment (λ n. stack self.now n) result
            (closing region (stack self.now opens)) }
        ensures within { IfOk result (λ n. n ≤ length self.now) }
    {
        match self.top(opens) {
            Some((last, below)) => {
                if last == region as u64 {
                    Ok(below)
                } else {
                    Err(Fault::Broken { rule: 9 })
                }
            }
            None => Err(Fault::Broken { rule: 9 }),
        }
    }

    /// The kinds below so many arguments.
    pub fn drop_arguments(&mut self, count: u32, ops: u32) -> Result<u32, Fault>
        requires { ops ≤ length self.old }
        ensures exact { IsJudgment (λ n. kinds self.old n) result
            (dropping count (kinds self.old ops)) }
        ensures within { IfOk result (λ n. n ≤ length self.old) }
        ensures same { self.new ≡ self.old }
    {
        let rest = self.below(count, ops, self.last)?;
        self.last = (count, ops, rest);
        Ok(rest)
    }

    /// The stack below the topmost word; the empty one has itself below it.
    fn under(&self, number: u32) -> u32
        requires { number ≤ length self.now }
        ensures under { kinds self.now result ≡ drop 1 (kinds self.now number) }
        ensures within { result ≤ length self.now }
    {
        match self.top(number) {
            Some((_, below)) => below,
            None => 0,
        }
    }

    /// The kinds below so many arguments, one by one, until the stack goes on as that of the last
    /// answer does.
    fn below(&self, count: u32, ops: u32, last: (u32, u32, u32)) -> Result<u32, Fault>
        requires ops { ops ≤ length self.now }
        requires last { Leaves self.now last }
        ensures exact { IsJudgment (λ n. kinds self.now n) result
            (dropping count (kinds self.now ops)) }
        ensures within { IfOk result (λ n. n ≤ length self.now) }
    {
        let mut rest = ops;
        let mut beside = last.1;
        for _done in 0..count {
            if rest == beside && count == last.0 {
                return Ok(last.2);
            }
            match self.top(rest) {
                Some((_, below)) => rest = below,
                None => return Err(Fault::Broken { rule: 5 }),
            }
            beside = self.under(beside);
        }
        Ok(rest)
    }

    /// No region may be open.
    pub fn none_open(&self, opens: u32) -> Result<(), Fault>
        requires { opens ≤ length self.now }
        ensures { IsJudgment (λ u. []) result (none_open (stack self.now opens)) }
    {
        match self.top(opens) {
            Some(_) => Err(Fault::Broken { rule: 8 }),
            None => Ok(()),
        }
    }
}
