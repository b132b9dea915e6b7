//! What a function sees of its call.
ghost use Rattle.std.specs.Prelude.{◌≡◌, map, IfOk, OnErr, OnOk};
ghost use Rattle.oc_meaning.specs.Run.{nv_env, with_param, with_params};
ghost use Rattle.oc_interpreter.specs.Seen.{passed_view};

use crate::completion::Passed;
use crate::held::Held;
use crate::store::Store;
use oc_meaning::place::Place;
use oc_meaning::scope::{Binding, Scope, nonvolatile};
use oc_tree::tree::{Function, Param, Program};
use std::alloc::{AllocError, Global};
use std::collections::VecDeque;

/// What is passed for a parameter: a value makes a variable of the function's own.
fn bind<'a>(
    alloc: Global,
    scope: &mut Scope<'a>,
    param: &'a Param,
    given: Passed,
    store: &mut Store,
) -> Result<(), AllocError>
    ensures scope { OnOk result
        (scope.new ≡ (with_param param.now.name (passed_view given)
        (record { env = scope.old; locals = store.old.locals })).env) }
    ensures store { OnOk result
        (store.new ≡ record store.old {
          locals = (with_param param.now.name (passed_view given)
              (record { env = scope.old; locals = store.old.locals })).locals;
        }) }
    ensures kept { OnErr result (store.new.events ≡ store.old.events) }
{
    match given {
        Passed::Copied { value } => {
            scope.push(Binding {
                name: &param.name,
                place: Place::Local {
                    level: store.locals(),
                },
                reference: false,
                fresh: false,
            })?;
            let held = Held::holding(alloc, value)?;
            store.make(held)?;
            Ok(())
        }
        Passed::Lent { place } => {
            scope.push(Binding {
                name: &param.name,
                place,
                reference: true,
                fresh: false,
            })?;
            Ok(())
        }
    }
}

/// The variables that a function sees at the start of a call. Those of its parameters that values
/// are passed for are made.
pub fn frame<'a>(
    alloc: Global,
    program: &'a Program,
    function: &'a Function,
    passed: VecDeque<Passed>,
    store: &mut Store,
) -> Result<Scope<'a>, AllocError>
    ensures scope { IfOk result
        (λ s. s
        ≡ (with_params function.now.params.items (map passed_view passed.items)
        (record { env = nv_env 0 program.now.names.nvs.items; locals = store.old.locals })).env) }
    ensures store { OnOk result
        (store.new ≡ record store.old {
          locals =
              (with_params function.now.params.items (map passed_view passed.items)
              (record {
                env = nv_env 0 program.now.names.nvs.items;
                locals = store.old.locals;
              })).locals;
        }) }
    ensures kept { OnErr result (store.new.events ≡ store.old.events) }
{
    let mut scope = nonvolatile(alloc, program.names.nvs.as_slice())?;
    let mut left = passed;
    for param in &function.params {
        let Some(given) = left.pop_front() else {
            break;
        };
        bind(alloc, &mut scope, param, given, store)?;
    }
    Ok(scope)
}
