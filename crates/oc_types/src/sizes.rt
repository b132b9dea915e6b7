//! The rules on weight and stack, which are looked at where no element is broken.
ghost use Rattle.std.specs.Prelude.{◌≡◌, ◌≤◌, [], ◌∷◌, codes, length, map, nat_lt, None, IfOk};
ghost use Rattle.std.specs.List.{list_any};
ghost use Rattle.oc_lex.specs.Limits.{source_limit};
ghost use Rattle.oc_lex.specs.Stands.{IsName};
ghost use Rattle.oc_tree.specs.Broken.{broken, lowest, or_later, size_rules};
ghost use Rattle.oc_tree.specs.Calls.{function_place};
ghost use Rattle.oc_tree.specs.Expansion.{program_size};
ghost use Rattle.oc_tree.specs.Form.{InForm};
ghost use Rattle.oc_tree.specs.Nodes.{program_nodes};
ghost use Rattle.oc_tree.specs.Sizes.{statement_limit, weight_limit, word_limit};
ghost use Rattle.oc_tree.specs.Stack.{stacks_to};
ghost use Rattle.oc_tree.specs.View.{function_view, program_view};
ghost use Rattle.oc_tree.specs.Weight.{known_of, weights_to};

use crate::elements::find_broken_element;
use crate::numbers::{TOO_DEEP, TOO_HEAVY};
use oc_desugar::expand_program;
use oc_names::table::main_place;
use oc_tree::broken::Broken;
use oc_tree::tree::{Function, Program};
use oc_weight::cost::known_of;
use oc_weight::stacks::stacks;
use oc_weight::weights::weights;
use std::alloc::{AllocError, Global};

/// The greatest weight that a function may have.
const GREATEST_WEIGHT: u64 = 4294967296;

/// The most words of stack that `main` may take.
const MOST_WORDS: u64 = 65536;

/// Whether one of these weights is greater than any that a function may have.
fn some_too_heavy(weights: &[u64]) -> bool
    ensures { result ≡ list_any (nat_lt weight_limit) weights.now }
{
    for weight in weights {
        if GREATEST_WEIGHT < *weight {
            return true;
        }
    }
    false
}

/// Whether a function of an expansion weighs more than it may.
#[tactic(auto, using(crate::proofs::SizeLaws::some_pass))]
fn is_too_heavy(alloc: Global, functions: &[Function]) -> Result<bool, AllocError>
    ensures { IfOk result
        (λ b. b ≡ list_any (nat_lt weight_limit)
        (weights_to (map function_view functions.now) (length functions.now))) }
{
    let weights = weights(alloc, functions)?;
    Ok(some_too_heavy(weights.as_slice()))
}

/// Whether `main` takes more words of stack than it may, of the functions of an expansion.
#[tactic(auto, using(crate::proofs::SizeLaws::known_passes))]
fn is_too_deep(alloc: Global, functions: &[Function]) -> Result<bool, AllocError>
    ensures { IfOk result
        (λ b. b ≡ nat_lt word_limit
        (known_of (stacks_to (map function_view functions.now) (length functions.now))
        (function_place (map function_view functions.now) (codes "main")))) }
{
    let stacks = stacks(alloc, functions)?;
    Ok(MOST_WORDS < known_of(stacks.as_slice(), main_place(functions)))
}

/// The lowest rule on weight and stack that the functions of an expansion break.
fn expansion_rule(alloc: Global, functions: &[Function]) -> Result<Option<u8>, AllocError>
    ensures { IfOk result
        (λ r. r ≡ lowest
        ((
          TOO_HEAVY,
          list_any (nat_lt weight_limit)
              (weights_to (map function_view functions.now) (length functions.now)),
        )
        ∷ (
          TOO_DEEP,
          nat_lt word_limit
              (known_of (stacks_to (map function_view functions.now) (length functions.now))
              (function_place (map function_view functions.now) (codes "main"))),
        ) ∷ [])) }
{
    if is_too_heavy(alloc, functions)? {
        return Ok(Some(TOO_HEAVY));
    }
    if is_too_deep(alloc, functions)? {
        return Ok(Some(TOO_DEEP));
    }
    Ok(None)
}

/// The lowest rule on weight and stack that is broken.
fn size_rule(alloc: Global, program: &Program) -> Result<Option<u8>, AllocError>
    requires { program_size (program_view program.now) ≤ statement_limit }
    ensures { IfOk result (λ r. r ≡ lowest (size_rules (program_view program.now))) }
{
    let (expanded, _groups) = expand_program(alloc, program)?;
    expansion_rule(alloc, expanded.functions.as_slice())
}

/// The lowest rule on weight and stack that is broken, if one is, with the last line. Err is want
/// of memory.
fn broken_size(alloc: Global, program: &Program) -> Result<Option<Broken>, AllocError>
    requires { program_size (program_view program.now) ≤ statement_limit }
    ensures { IfOk result
        (λ r. r
        ≡ or_later (program_view program.now).last_line
        (lowest (size_rules (program_view program.now))) None) }
{
    match size_rule(alloc, program)? {
        Some(rule) => Ok(Some(Broken {
            line: program.last_line,
            rule,
        })),
        None => Ok(None),
    }
}

/// The first element in source order that breaks a rule, with the lowest rule that it breaks; where
/// there is none, the last line with the lower of the rules on weight and stack that is broken.
pub fn find_broken(alloc: Global, program: &Program) -> Result<Option<Broken>, AllocError>
    requires form { InForm IsName (program_view program.now) }
    requires nodes { program_nodes (program_view program.now) ≤ source_limit }
    ensures { IfOk result (λ r. r ≡ broken (program_view program.now)) }
{
    match find_broken_element(alloc, program)? {
        Some(broken) => Ok(Some(broken)),
        None => broken_size(alloc, program),
    }
}
