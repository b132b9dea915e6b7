//! Which functions `main` comes to by calls that are inside no block.
ghost use Rattle.std.specs.Prelude.{◌≡◌, ◌<◌, ◌++◌, ℕ, map, length, option_to_list, IfOk, IfSome, OnOk};
ghost use Rattle.oc_tree.specs.Rules.{main};
ghost use Rattle.oc_tree.specs.Calls.{function_place};
ghost use Rattle.oc_effects.specs.View.{effect_view};
ghost use Rattle.oc_reach.specs.Marked.{is_in};
ghost use Rattle.oc_tree.specs.Members.{is_number_of};
ghost use Rattle.oc_regcheck.specs.Code.{call_by, calls_by, calls_in, comes_by};

use crate::blocks::Blocks;
use crate::inside::outer;
use oc_effects::effect::Effect;
use oc_effects::effects::Effects;
use oc_names::table::main_place;
use oc_reach::marks::Marks;
use oc_reach::reach::Reach;
use std::alloc::{AllocError, Global};

/// Adds the call of a statement, if it is inside no block: from the called function to the caller.
fn add_call(
    effects: &Effects,
    blocks: &Blocks,
    caller: usize,
    effect: &Effect,
    links: &mut Vec<(usize, usize)>,
) -> Result<(), AllocError>
    ensures { OnOk result
        (links.new.items ≡ links.old.items
        ++ call_by effects.now.program (is_number_of blocks.now) caller (effect_view effect.now)) }
{
    if outer(effects, blocks, effect.stmt).is_some() {
        return Ok(());
    }
    if let Some(call) = &effect.call {
        links.push((call.function as usize, caller))?;
    }
    Ok(())
}

/// Adds the calls of statements that are inside no block.
fn add_calls(
    effects: &Effects,
    blocks: &Blocks,
    caller: usize,
    statements: &[Effect],
    links: &mut Vec<(usize, usize)>,
) -> Result<(), AllocError>
    ensures { OnOk result
        (links.new.items ≡ links.old.items
        ++ calls_in effects.now.program (is_number_of blocks.now) caller
        (map effect_view statements.now)) }
{
    for effect in statements {
        add_call(effects, blocks, caller, effect, links)?;
    }
    Ok(())
}

/// The calls that are inside no block, each from the called function to the caller.
fn open_calls(
    alloc: Global,
    effects: &Effects,
    blocks: &Blocks,
) -> Result<Vec<(usize, usize)>, AllocError>
    ensures { IfOk result (λ l. l.items ≡ calls_by effects.now.program (is_number_of blocks.now)) }
{
    let mut links = Vec::new(alloc);
    for caller in 0..effects.functions() {
        let statements = effects.of_function(caller);
        add_calls(effects, blocks, caller, statements, &mut links)?;
    }
    Ok(links)
}

/// The place of `main`.
fn place_of_main(effects: &Effects) -> Option<usize>
    ensures place { result ≡ function_place effects.now.program.functions main }
    ensures below { IfSome result (λ f. f < length effects.now.program.functions) }
{
    main_place(effects.checked().program().functions.as_slice())
}

/// Marks a function, if there is one.
fn marks_of(alloc: Global, bound: usize, function: Option<usize>) -> Result<Marks, AllocError>
    requires { IfSome function (λ f. f < bound) }
    ensures { IfOk result (λ m. m ≡ (option_to_list function, bound)) }
{
    let mut marks = Marks::new(alloc, bound)?;
    if let Some(function) = function {
        marks.mark(function)?;
    }
    Ok(marks)
}

/// Marks the functions that `main` comes to by calls that are inside no block, and `main` itself.
pub fn from_main(alloc: Global, effects: &Effects, blocks: &Blocks) -> Result<Marks, AllocError>
    ensures bound { IfOk result (λ m. m.1 ≡ length effects.now.program.functions) }
    ensures marked { IfOk result
        (λ m. (f : ℕ) → is_in m.0 f ≡ comes_by effects.now.program (is_number_of blocks.now) f) }
{
    // For the proof alone: it tells that the program is checked.
    let _program = effects.checked().program();
    let bound = effects.functions();
    let links = open_calls(alloc, effects, blocks)?;
    let reach = Reach::new(alloc, bound, links)?;
    let marks = marks_of(alloc, bound, place_of_main(effects))?;
    let back = reach.mark_back(marks)?;
    Ok(back)
}
