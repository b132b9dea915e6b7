//! The sites of inputs in loops for each variable of each function, which no policy changes.
ghost use Rattle.std.specs.Prelude.{◌≡◌, map, length, IfOk};
ghost use Rattle.oc_flow.specs.Variables.{from};
ghost use Rattle.oc_needs.specs.Code.{all_locals, looped_at};
ghost use Rattle.oc_needs.specs.CodeView.{local_view, sites_view, tables_view, IsBody};

use crate::local::{Body, Local, body_at};
use crate::sites::looped_sites;
use oc_flow::summary::Summaries;
use oc_tree::tree::StmtId;
use std::alloc::{AllocError, Global};

/// Those of a function.
fn looped_in(alloc: Global, body: &Body) -> Result<Vec<Vec<StmtId>>, AllocError>
    requires { IsBody body.now }
    ensures { IfOk result
        (λ r. sites_view r.items ≡ looped_at body.now.summaries.now.program body.now.function) }
{
    let mut rows = Vec::with_capacity(alloc, body.local.variables.len())?;
    for x in body.local.variables.as_slice() {
        let sites = looped_sites(alloc, body, *x)?;
        rows.push(sites)?;
    }
    Ok(rows)
}

/// Those of all functions.
pub fn all_looped(
    alloc: Global,
    summaries: &Summaries,
    locals: &[Local],
) -> Result<Vec<Vec<Vec<StmtId>>>, AllocError>
    requires { map local_view locals.now ≡ all_locals summaries.now.program }
    ensures { IfOk result
        (λ t. tables_view t.items
        ≡ map (looped_at summaries.now.program) (from 0 (length t.items))) }
{
    let mut tables = Vec::new(alloc);
    for function in 0..locals.len() {
        let body = body_at(summaries, locals, &[], function)?;
        let rows = looped_in(alloc, &body)?;
        tables.push(rows)?;
    }
    Ok(tables)
}
