//! The parameters of all functions, numbered through.
ghost use Rattle.std.specs.Prelude.{◌≡◌, ◌<◌, ◌^◌, ◌+◌, List, [], false, map, length, vec_len, OnOk, IfOk};
ghost use Rattle.std.proofs.Math.ListN.{get_or};
ghost use Rattle.oc_tree.specs.View.{function_view};
ghost use Rattle.oc_tree.specs.declared.tree.Function.{Function};
ghost use Rattle.oc_names.specs.Seen.{name_seen};
ghost use Rattle.oc_tree.specs.Assigned.{first_param, first_params, is_mutable, mutable_param, own_param, param_count};

use oc_names::table::Table;
use oc_tree::name::Name;
use oc_tree::tree::{Function, Param};
use std::alloc::{AllocError, Global};
use std::marker::Model;

/// Adds the parameters of one function to those of all. Err is want of memory.
fn add_params<'a>(params: &'a [Param], all: &mut Vec<&'a Param>) -> Result<(), AllocError>
    ensures { OnOk result (vec_len all.new ≡ vec_len all.old + length params.now) }
{
    for param in params {
        all.push(param)?;
    }
    Ok(())
}

/// The number of each function's first parameter, and how many parameters there are.
fn first_params(alloc: Global, functions: &[Function]) -> Result<(Vec<usize>, usize), AllocError>
    ensures firsts { IfOk result
        (λ r. r.0.items ≡ first_params 0 (map function_view functions.now)) }
    ensures count { IfOk result (λ r. r.1 ≡ param_count (map function_view functions.now)) }
    ensures small { IfOk result (λ r. r.1 < 2 ^ 63) }
{
    let mut firsts = Vec::new(alloc);
    let mut all = Vec::new(alloc);
    for function in functions {
        firsts.push(all.len())?;
        add_params(function.params.as_slice(), &mut all)?;
    }
    Ok((firsts, all.len()))
}

/// Whether a function takes `&mut` for its parameter at a place; not so where it has fewer.
fn is_mutable_at(params: &[Param], place: usize) -> bool
    ensures { result ≡ get_or (map (λ p. is_mutable p.passing) params.now) place false }
{
    if place < params.len() {
        params[place].passing.is_mutable()
    } else {
        false
    }
}

/// The number of the parameter of a name, of a function whose first parameter has the number
/// `first`.
pub fn own_param(first: usize, params: &Table, name: Option<&Name>) -> Option<usize>
    requires { first + length params.now < 2 ^ 63 }
    ensures { result ≡ own_param first params.now (name_seen name.entry) }
{
    match name {
        Some(name) => {
            match params.place(name) {
                Some(place) => Some(first + place),
                None => None,
            }
        }
        None => None,
    }
}

/// The functions of a program, which contracts see as their list, with the numbers of their
/// parameters.
#[derive(Drop)]
pub struct Params<'a> {
    functions: &'a [Function],
    firsts: Vec<usize>,
    count: usize,
}

impl<'a> Model for Params<'a> {
    ghost use Rattle.std.specs.Prelude.{◌≡◌, ◌<◌, ◌^◌, List, map};
    ghost use Rattle.std.specs.Coded.{codes};
    ghost use Rattle.oc_tree.specs.View.{function_view};
    ghost use Rattle.oc_tree.specs.contracts.tree.Block as blocks;
    ghost use Rattle.oc_tree.specs.declared.tree.Function.{Function};
    ghost use Rattle.oc_tree.specs.Assigned.{first_params, param_count};

    ghost Value = { List Function };

    ghost coded = { Prim.hlevel (codes, blocks.the_row.coded) };

    ghost view = { λ p. p.functions.now };

    ghost invariant = { λ p. (p.firsts.items ≡ first_params 0 (map function_view p.functions.now))
        × (p.count ≡ param_count (map function_view p.functions.now)) × (p.count < 2 ^ 63) };
}

impl<'a> Params<'a> {
    /// Numbers the parameters of these functions through. Err is want of memory.
    pub fn new(alloc: Global, functions: &'a [Function]) -> Result<Params<'a>, AllocError>
        ensures { IfOk result (λ p. p ≡ functions.now) }
    {
        let (firsts, count) = first_params(alloc, functions)?;
        Ok(Params {
            functions,
            firsts,
            count,
        })
    }

    /// How many parameters there are.
    pub fn count(&self) -> usize
        ensures count { result ≡ param_count (map function_view self.now) }
        ensures small { result < 2 ^ 63 }
    {
        self.count
    }

    /// The number of a function's first parameter.
    pub fn first(&self, function: usize) -> usize
        requires { function < length self.now }
        ensures first { result ≡ first_param (map function_view self.now) function }
        ensures room { result
            + length (get_or (map (λ f. f.params) (map function_view self.now)) function [])
            < 2 ^ 63 }
    {
        self.firsts[function]
    }

    /// The number of a parameter that takes `&mut`.
    pub fn mutable(&self, function: usize, place: usize) -> Option<usize>
        requires { function < length self.now }
        ensures { result ≡ mutable_param (map function_view self.now) function place }
    {
        let functions = self.functions;
        let first = self.first(function);
        if is_mutable_at(functions[function].params.as_slice(), place) {
            Some(first + place)
        } else {
            None
        }
    }
}
