//! The names of functions and of their variables, and the lines of statements.
ghost use Rattle.std.specs.Prelude.{◌≡◌, [], map, get_or};
ghost use Rattle.std.specs.Option.{option_map};
ghost use Rattle.oc_tree.specs.View.{block_view, kind_view, program_view};
ghost use Rattle.oc_command.specs.DeclaredNames.{block_names, kind_names, program_names};
ghost use Rattle.oc_command.specs.Names.{declared_name, function_name, line_at, nv_name, param_name, policy_name, variable_name};

use oc_effects::effects::Effects;
use oc_tree::marked::{Policy, PolicyKind};
use oc_tree::tree::{Block, Param, Program, StmtId, StmtKind, VarId};

/// The name that a statement declares; empty where it declares none.
fn declared_name(kind: &StmtKind) -> &[u8]
    ensures { result.now ≡ declared_name (kind_view kind.now) }
{
    match kind {
        StmtKind::Let { name, .. } | StmtKind::LetArray { name, .. } => name.bytes(),
        StmtKind::For { name, .. } => name.bytes(),
        StmtKind::Assign { .. }
        | StmtKind::AssignIndex { .. }
        | StmtKind::AssignDeref { .. }
        | StmtKind::If { .. }
        | StmtKind::While { .. }
        | StmtKind::CallOnly { .. }
        | StmtKind::SenseOnly { .. }
        | StmtKind::Emit { .. }
        | StmtKind::Fresh { .. }
        | StmtKind::Consistent { .. }
        | StmtKind::Return { .. } => b"",
    }
}

/// The name that the statement with this number declares in the blocks of a statement.
#[cycle(seeking_declarations)]
fn declared_in_kind(kind: &StmtKind, s: StmtId) -> Option<&[u8]>
    ensures { option_map (λ n. n.now) result ≡ kind_names s (kind_view kind.now) }
{
    match kind {
        StmtKind::If {
            then,
            otherwise,
            ..
        } => match (declared_in_block(then, s), otherwise) {
            (None, Some(block)) => declared_in_block(block, s),
            (found, _) => found,
        },
        StmtKind::For { body, .. } | StmtKind::While { body, .. } => declared_in_block(body, s),
        StmtKind::Let { .. }
        | StmtKind::LetArray { .. }
        | StmtKind::Assign { .. }
        | StmtKind::AssignIndex { .. }
        | StmtKind::AssignDeref { .. }
        | StmtKind::CallOnly { .. }
        | StmtKind::SenseOnly { .. }
        | StmtKind::Emit { .. }
        | StmtKind::Fresh { .. }
        | StmtKind::Consistent { .. }
        | StmtKind::Return { .. } => None,
    }
}

/// The name that the statement with this number declares in a block.
#[cycle(seeking_declarations)]
fn declared_in_block(block: &Block, s: StmtId) -> Option<&[u8]>
    ensures { option_map (λ n. n.now) result ≡ block_names s (block_view block.now) }
{
    for statement in &block.statements {
        if statement.id == s {
            return Some(declared_name(&statement.kind));
        }
        let found = declared_in_kind(&statement.kind, s);
        if found.is_some() {
            return found;
        }
    }
    None
}

/// The name that the statement with this number declares; none where there is no such statement.
fn declared_by(program: &Program, s: StmtId) -> Option<&[u8]>
    ensures { option_map (λ n. n.now) result ≡ program_names s (program_view program.now) }
{
    for function in &program.functions {
        let found = declared_in_block(&function.body, s);
        if found.is_some() {
            return found;
        }
    }
    None
}

/// The name of the function at a place.
pub fn function_name(program: &Program, function: u32) -> &[u8]
    ensures { result.now ≡ function_name (program_view program.now) function }
{
    match program.functions.get(function as usize) {
        Some(function) => function.name.bytes(),
        None => b"",
    }
}

/// The name of the parameter at a place.
fn name_in(params: &[Param], index: u32) -> &[u8]
    ensures { result.now ≡ get_or (map (λ q. q.name) params.now) index [] }
{
    match params.get(index as usize) {
        Some(param) => param.name.bytes(),
        None => b"",
    }
}

/// The name of the parameter at a place of the function at a place.
fn param_name(program: &Program, function: u32, index: u32) -> &[u8]
    ensures { result.now ≡ param_name (program_view program.now) function index }
{
    match program.functions.get(function as usize) {
        Some(function) => name_in(&function.params, index),
        None => b"",
    }
}

/// The name of a nonvolatile variable.
fn nv_name(program: &Program, index: u32) -> &[u8]
    ensures { result.now ≡ nv_name (program_view program.now) index }
{
    match program.names.nvs.get(index as usize) {
        Some(name) => name.bytes(),
        None => b"",
    }
}

/// The name of a variable of the function at a place. It goes over the tree once at most.
fn variable_name(program: &Program, function: u32, variable: VarId) -> &[u8]
    ensures { result.now ≡ variable_name (program_view program.now) function variable }
{
    match variable {
        VarId::Nv { index } => nv_name(program, index),
        VarId::Param { index } => param_name(program, function, index),
        VarId::Declared { stmt } => match declared_by(program, stmt) {
            Some(name) => name,
            None => b"",
        },
        VarId::Returned => b"",
    }
}

/// The name of a policy's variable; empty for a consistent set.
pub fn policy_name(program: &Program, policy: Policy) -> &[u8]
    ensures { result.now ≡ policy_name (program_view program.now) policy }
{
    match policy.kind {
        PolicyKind::Fresh { var } => variable_name(program, policy.function, var),
        PolicyKind::Consistent { .. } => b"",
    }
}

/// The line of a statement.
pub fn line_at(effects: &Effects, s: StmtId) -> u32
    ensures { result ≡ line_at effects.now.program s }
{
    match effects.at(s) {
        Some(effect) => effect.line,
        None => 0,
    }
}
