//! Which statements `atomic` begins.
ghost use Rattle.std.specs.Prelude.{◌≡◌, ◌<◌, ◌^◌, ◌+◌, ◌++◌, ℕ, true, List, map, flat_map, sum_by, OnOk, IfOk};
ghost use Rattle.oc_tree.specs.View.{block_view, else_view, function_view, kind_view, program_view};
ghost use Rattle.oc_tree.specs.Expansion.{block_size, else_size, inner_size};
ghost use Rattle.oc_tree.specs.Nodes.{block_nodes, else_nodes, kind_nodes, program_nodes};
ghost use Rattle.oc_grammar.specs.Lexemes.{lexemes_in};
ghost use Rattle.oc_parse.specs.Atomics.{atomics, picked};
ghost use Rattle.oc_parse.specs.Collected.{own_if, block_ifs_at, else_ifs_at, functions_ifs_at, kind_begins, kind_ifs_at, token_begins};

use oc_lex::{Kind, Token, Word};
use oc_tree::pulls::own_pulls;
use oc_tree::tree::{Block, Function, Program, StmtId, StmtKind};
use std::alloc::{AllocError, Global};

/// A number further. There is no memory for more statements than there are numbers.
fn further(number: u32, count: u32) -> Result<u32, AllocError>
    ensures { IfOk result (λ n. n ≡ number + count) }
{
    number.checked_add(count).ok_or(AllocError)
}

/// Adds the number of a statement, if it has the tree of an `if`.
fn add_if(kind: &StmtKind, number: u32, ifs: &mut Vec<StmtId>) -> Result<(), AllocError>
    ensures { OnOk result (ifs.new.items ≡ ifs.old.items ++ own_if number (kind_view kind.now)) }
{
    if let StmtKind::If { .. } = kind {
        ifs.push(number)?;
    }
    Ok(())
}

/// Adds those inside a statement, and answers the next number of the expansion.
#[cycle(ifs)]
fn kind_ifs(kind: &StmtKind, first: u32, ifs: &mut Vec<StmtId>) -> Result<u32, AllocError>
    requires { kind_nodes (kind_view kind.now) < 2 ^ 32 }
    ensures ifs { OnOk result
        (ifs.new.items ≡ ifs.old.items ++ kind_ifs_at first (kind_view kind.now)) }
    ensures next { IfOk result (λ n. n ≡ first + inner_size (kind_view kind.now)) }
{
    match kind {
        StmtKind::If {
            then,
            otherwise,
            ..
        } => {
            let next = block_ifs(then, first, ifs)?;
            else_ifs(otherwise, next, ifs)
        }
        StmtKind::For { body, .. } | StmtKind::While { body, .. } => block_ifs(body, first, ifs),
        _ => Ok(first),
    }
}

/// Adds those inside an `else`, and answers the next number of the expansion.
#[cycle(ifs)]
fn else_ifs(otherwise: &Option<Block>, first: u32, ifs: &mut Vec<StmtId>) -> Result<u32, AllocError>
    requires { else_nodes (else_view otherwise.now) < 2 ^ 32 }
    ensures ifs { OnOk result
        (ifs.new.items ≡ ifs.old.items ++ else_ifs_at first (else_view otherwise.now)) }
    ensures next { IfOk result (λ n. n ≡ first + else_size (else_view otherwise.now)) }
{
    match otherwise {
        Some(block) => block_ifs(block, first, ifs),
        None => Ok(first),
    }
}

/// Adds those of a block, and answers the next number of the expansion.
#[cycle(ifs)]
fn block_ifs(block: &Block, first: u32, ifs: &mut Vec<StmtId>) -> Result<u32, AllocError>
    requires { block_nodes (block_view block.now) < 2 ^ 32 }
    ensures ifs { OnOk result
        (ifs.new.items ≡ ifs.old.items ++ block_ifs_at first (block_view block.now)) }
    ensures next { IfOk result (λ n. n ≡ first + block_size (block_view block.now)) }
{
    let mut next = first;
    for statement in &block.statements {
        let number = further(next, own_pulls(&statement.kind))?;
        add_if(&statement.kind, number, ifs)?;
        let inside = further(number, 1)?;
        next = kind_ifs(&statement.kind, inside, ifs)?;
    }
    Ok(next)
}

/// All of a program, by their numbers in the expansion.
fn program_ifs(alloc: Global, functions: &[Function]) -> Result<Vec<StmtId>, AllocError>
    requires { sum_by (λ f. block_nodes f.body) (map function_view functions.now) < 2 ^ 32 }
    ensures { IfOk result (λ i. i.items ≡ functions_ifs_at 1 (map function_view functions.now)) }
{
    let mut ifs = Vec::new(alloc);
    let mut next = 1;
    for function in functions {
        next = block_ifs(&function.body, next, &mut ifs)?;
    }
    Ok(ifs)
}

/// Adds whether such a statement begins with `atomic`, where one begins with this token.
fn add_begin(token: Token, begins: &mut Vec<bool>) -> Result<(), AllocError>
    ensures { OnOk result (begins.new.items ≡ begins.old.items ++ kind_begins token.kind) }
{
    match token.kind {
        Kind::Word(Word::If) => {
            begins.push(false)?;
            Ok(())
        }
        Kind::Word(Word::Atomic) => {
            begins.push(true)?;
            Ok(())
        }
        _ => Ok(()),
    }
}

/// For each statement that is an `if` or begins with `atomic`, whether it does.
fn token_begins(alloc: Global, tokens: &[Token]) -> Result<Vec<bool>, AllocError>
    ensures { IfOk result (λ b. b.items ≡ flat_map token_begins tokens.now) }
{
    let mut begins = Vec::new(alloc);
    for token in tokens {
        add_begin(*token, &mut begins)?;
    }
    Ok(begins)
}

/// The numbers at whose places `true` stands.
fn pick_numbers(
    alloc: Global,
    begins: &[bool],
    numbers: &[StmtId],
) -> Result<Vec<StmtId>, AllocError>
    ensures { IfOk result (λ p. p.items ≡ picked begins.now numbers.now) }
{
    begins
        .iter()
        .copied()
        .zip(numbers.iter().copied())
        .filter(|(is_atomic, _)| *is_atomic)
        .map(|(_, number)| number)
        .collect(alloc)
}

/// The statements that `atomic` begins, by their numbers in the expansion.
pub fn atomics(
    alloc: Global,
    program: &Program,
    tokens: &[Token],
) -> Result<Vec<StmtId>, AllocError>
    requires { program_nodes (program_view program.now) < 2 ^ 32 }
    ensures { IfOk result (λ a. (source : List ℕ)
        → a.items ≡ atomics (program_view program.now) (lexemes_in true source tokens.now)) }
{
    let begins = token_begins(alloc, tokens)?;
    let ifs = program_ifs(alloc, program.functions.as_slice())?;
    pick_numbers(alloc, begins.as_slice(), ifs.as_slice())
}
