//! The code of a whole program.
ghost use Rattle.std.specs.Prelude.{◌≡◌, ◌≤◌, ◌+◌, ◌++◌, [], codes, map, length, sum_by, OnOk, IfOk};
ghost use Rattle.std.specs.List.{All};
ghost use Rattle.oc_tree.specs.Calls.{function_place};
ghost use Rattle.oc_tree.specs.Regions.{region_view};
ghost use Rattle.oc_tree.specs.Sizes.{function_limit, name_limit, parameter_limit, word_limit};
ghost use Rattle.oc_tree.specs.Stack.{frame, link_words, stacks_to};
ghost use Rattle.oc_tree.specs.View.{function_view, program_view};
ghost use Rattle.oc_tree.specs.Weight.{known_of};
ghost use Rattle.oc_isa.specs.Image.{parts_of};
ghost use Rattle.oc_code.specs.Scope.{kind_words, nv_scope, param_slot, params_scope, may_write};
ghost use Rattle.oc_code.specs.Code.{block_code, close_code, code_of, functions_code, image_functions, image_nv};
ghost use Rattle.oc_code.specs.Formed.{IsFormed};
ghost use Rattle.oc_codegen.specs.Room.{HasRoom};
ghost use Rattle.oc_codegen.specs.Small.{IsSmall};
ghost use Rattle.oc_codegen.specs.Slots.{slot_view};

use crate::buffer::Buffer;
use crate::scope::{Scope, Slot, Variable};
use crate::setting::Setting;
use crate::stmts::block;
use oc_isa::image::{ImageFunction, ImageNv, RawImage};
use oc_isa::instr::Instr;
use oc_names::table::main_place;
use oc_tree::marked::Region;
use oc_tree::name::Name;
use oc_tree::said::Target;
use oc_tree::tree::{Function, NvDecl, Param, Passing, Program, ValueKind};
use oc_weight::cost::known_of;
use oc_weight::stacks::stacks;
use std::alloc::{AllocError, Global};

/// The nonvolatile variables, from a word on. The first one is the newest.
fn declare_nvs<'a>(
    scope: &mut Scope<'a>,
    word: u32,
    names: &'a [Name],
    nv: &[NvDecl],
) -> Result<(), AllocError>
    requires empty { scope.old ≡ [] }
    requires words { word + sum_by (λ d. d.words) nv.now ≤ word_limit }
    ensures { OnOk result (scope.new ≡ nv_scope word names.now nv.now) }
{
    match names.split_first() {
        None => Ok(()),
        Some((name, names)) => match nv.split_first() {
            None => Ok(()),
            Some((first, nv)) => {
                declare_nvs(scope, word + first.words, names, nv)?;
                let variable = Variable {
                    slot: Slot::InNv { a: word },
                    words: first.words,
                    writable: true,
                    fresh: false,
                };
                scope.declare(name, variable)
            }
        },
    }
}

/// Where a parameter is that is passed in slot `s`: there, or by reference at the address in it.
fn param_slot(passing: Passing, s: u32) -> Slot
    ensures { slot_view result ≡ param_slot passing s }
{
    match passing {
        Passing::Value => Slot::InFrame { s },
        Passing::Shared => Slot::ByAddress { s },
        Passing::Mutable => Slot::ByAddress { s },
    }
}

/// Whether a statement may write a parameter: one by value or by `&mut`.
fn may_write(passing: Passing) -> bool
    ensures { result ≡ may_write passing }
{
    match passing {
        Passing::Value => true,
        Passing::Shared => false,
        Passing::Mutable => true,
    }
}

/// How many words a variable of this type has.
fn kind_words(kind: ValueKind) -> u32
    ensures { result ≡ kind_words kind }
{
    match kind {
        ValueKind::Int => 1,
        ValueKind::Bool => 1,
        ValueKind::Array { words } => words,
    }
}

/// Declares a function's parameters, in slots from 0 on. Err is want of memory.
fn declare_params<'a>(scope: &mut Scope<'a>, params: &'a [Param]) -> Result<(), AllocError>
    requires { length params.now ≤ parameter_limit }
    ensures { OnOk result (scope.new ≡ params_scope params.now 0 scope.old) }
{
    let mut s = 0;
    for param in params {
        let variable = Variable {
            slot: param_slot(param.passing, s),
            words: kind_words(param.kind),
            writable: may_write(param.passing),
            fresh: false,
        };
        scope.declare(&param.name, variable)?;
        s += 1;
    }
    Ok(())
}

/// The words of a frame that lead back to the caller: two, or none for `main`.
fn link_words(function: &Function) -> u32
    ensures { result ≡ link_words (function_view function.now) }
{
    if function.name.is_main() { 0 } else { 2 }
}

/// The end of a function's code: the `halt` of `main`, or the `ret` of a function without a result.
/// Err is want of memory.
fn close(code: &mut Buffer, function: &Function, params: u32) -> Result<(), AllocError>
    requires params { params ≡ length function.now.params.items }
    requires room { HasRoom code.old (close_code (function_view function.now)) }
    ensures { OnOk result (code.new ≡ code.old ++ close_code (function_view function.now)) }
{
    if function.name.is_main() {
        return code.put(0, Instr::Halt);
    }
    if function.result.is_some() {
        return Ok(());
    }
    code.put(0, Instr::Ret { k: params })
}

/// The code of a function, behind which all variables but the nonvolatile ones are gone again.
fn function<'a>(
    alloc: Global,
    code: &mut Buffer,
    setting: &mut Setting,
    scope: &mut Scope<'a>,
    function: &'a Function,
) -> Result<ImageFunction, AllocError>
    requires small { IsSmall (function_view function.now) }
    requires room { HasRoom code.old (block_code setting.old.names setting.old.functions
        setting.old.regions
        (length function.now.params.items) (params_scope function.now.params.items 0 scope.old)
        (length function.now.params.items + link_words (function_view function.now))
        (length code.old) (function_view function.now).body
        ++ close_code (function_view function.now)) }
    ensures code { OnOk result
        (code.new ≡ code.old
        ++ (block_code setting.old.names setting.old.functions setting.old.regions
        (length function.now.params.items) (params_scope function.now.params.items 0 scope.old)
        (length function.now.params.items + link_words (function_view function.now))
        (length code.old) (function_view function.now).body
        ++ close_code (function_view function.now))) }
    ensures image { IfOk result
        (λ f. f ≡ record {
          name = function.now.name;
          entry = length code.old;
          params = length
              function.now.params.items;
          frame = frame (function_view function.now);
        }) }
    ensures names { setting.new.names ≡ setting.old.names }
    ensures functions { setting.new.functions ≡ setting.old.functions }
    ensures regions { setting.new.regions ≡ setting.old.regions }
    ensures scope { OnOk result (scope.new ≡ scope.old) }
{
    let params = function.params.len() as u32;
    setting.enter(params);
    let visible = scope.len();
    declare_params(scope, function.params.as_slice())?;
    let entry = code.address();
    let first = params + link_words(function);
    let frame = block(code, setting, scope, first, &function.body)?;
    close(code, function, params)?;
    scope.truncate(visible);
    Ok(ImageFunction {
        name: function.name.try_clone(alloc)?,
        entry,
        params,
        frame,
    })
}

/// The nonvolatile variables as an image has them. Err is want of memory.
fn image_nvs(alloc: Global, nv: &[NvDecl]) -> Result<Vec<ImageNv>, AllocError>
    ensures { IfOk result (λ v. v.items ≡ map image_nv nv.now) }
{
    let mut image = Vec::new(alloc);
    for next in nv {
        image.push(ImageNv {
            words: next.words,
            initial: next.initial,
        })?;
    }
    Ok(image)
}

/// The stack of `main`, of the functions of an expansion.
fn main_stack(alloc: Global, functions: &[Function]) -> Result<u32, AllocError>
    requires { known_of (stacks_to (map function_view functions.now) (length functions.now))
        (function_place (map function_view functions.now) (codes "main")) ≤ word_limit }
    ensures { IfOk result
        (λ s. s
        ≡ known_of (stacks_to (map function_view functions.now) (length functions.now))
        (function_place (map function_view functions.now) (codes "main"))) }
{
    let stacks = stacks(alloc, functions)?;
    let stack = known_of(stacks.as_slice(), main_place(functions));
    Ok(stack as u32)
}

/// The functions of a program with these regions, whose code is written to an empty buffer.
fn functions(
    alloc: Global,
    program: &Program,
    regions: &[Region],
    code: &mut Buffer,
) -> Result<Vec<ImageFunction>, AllocError>
    requires sensors { length program.now.names.sensors.items ≤ name_limit }
    requires ports { length program.now.names.ports.items ≤ name_limit }
    requires few { length program.now.functions.items ≤ function_limit }
    requires small { All (λ f. IsSmall (function_view f)) program.now.functions.items }
    requires words { sum_by (λ d. d.words) program.now.nv.items ≤ word_limit }
    requires empty { code.old ≡ [] }
    requires room { HasRoom [] (functions_code (program_view program.now)
        (map region_view regions.now) 0 (map function_view program.now.functions.items)) }
    ensures code { OnOk result
        (code.new
        ≡ functions_code (program_view program.now) (map region_view regions.now) 0
        (map function_view program.now.functions.items)) }
    ensures entries { IfOk result
        (λ fs. fs.items
        ≡ image_functions (program_view program.now) (map region_view regions.now) 0
        (map function_view program.now.functions.items)) }
{
    let mut setting = Setting::new(alloc, program, regions)?;
    let mut scope = Scope::new(alloc);
    declare_nvs(
        &mut scope,
        0,
        program.names.nvs.as_slice(),
        program.nv.as_slice(),
    )?;
    let mut functions = Vec::new(alloc);
    for next in &program.functions {
        functions.push(function(alloc, code, &mut setting, &mut scope, next)?)?;
    }
    Ok(functions)
}

/// The image of a formed program with these regions, of which each may overwrite these targets.
pub fn raw_image(
    alloc: Global,
    program: &Program,
    regions: &[Region],
    targets: Vec<Vec<Target>>,
) -> Result<RawImage, AllocError>
    requires formed { IsFormed (program_view program.now) (map region_view regions.now)
        (map (λ v. v.items) targets.items) }
    requires few { length program.now.functions.items ≤ function_limit }
    requires small { All (λ f. IsSmall (function_view f)) program.now.functions.items }
    ensures { IfOk result
        (λ raw. parts_of raw
        ≡ code_of (program_view program.now) (map region_view regions.now)
        (map (λ v. v.items) targets.items)) }
{
    let stack = main_stack(alloc, program.functions.as_slice())?;
    let nv = image_nvs(alloc, program.nv.as_slice())?;
    let names = program.names.try_clone(alloc)?;
    let mut code = Buffer::new(alloc);
    let functions = functions(alloc, program, regions, &mut code)?;
    Ok(RawImage {
        names,
        functions,
        targets,
        nv,
        code: code.into_code(),
        stack,
    })
}
