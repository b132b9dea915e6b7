//! Annotations of consistent sets.
ghost use Rattle.std.specs.Prelude.{◌≡◌};
ghost use Rattle.oc_tree.specs.View.{block_view, else_view, kind_view, program_view};
ghost use Rattle.oc_honest.specs.Timely.{set_of};
ghost use Rattle.oc_judge.specs.Notes.{block_note, else_note, kind_note, note_of};

use oc_tree::tree::{Block, Program, StmtId, StmtKind};

/// The number of the set that a statement annotates.
fn note_of(kind: &StmtKind) -> Option<i32>
    ensures { result ≡ note_of (kind_view kind.now) }
{
    match kind {
        StmtKind::Consistent { id, .. } => Some(*id),
        _ => None,
    }
}

/// What the statement `n` annotates, where it stands in a statement of this kind.
#[cycle(noting)]
fn kind_note(n: StmtId, kind: &StmtKind) -> Option<Option<i32>>
    ensures { result ≡ kind_note n (kind_view kind.now) }
{
    match kind {
        StmtKind::If {
            then,
            otherwise,
            ..
        } => match block_note(n, then) {
            Some(note) => Some(note),
            None => else_note(n, otherwise),
        },
        StmtKind::For { body, .. } => block_note(n, body),
        StmtKind::While { body, .. } => block_note(n, body),
        _ => None,
    }
}

/// What the statement `n` annotates, where it stands in an `else`.
#[cycle(noting)]
fn else_note(n: StmtId, otherwise: &Option<Block>) -> Option<Option<i32>>
    ensures { result ≡ else_note n (else_view otherwise.now) }
{
    match otherwise {
        Some(block) => block_note(n, block),
        None => None,
    }
}

/// What the statement `n` annotates, where it stands in a block.
#[cycle(noting)]
fn block_note(n: StmtId, block: &Block) -> Option<Option<i32>>
    ensures { result ≡ block_note n (block_view block.now) }
{
    for statement in &block.statements {
        if statement.id == n {
            return Some(note_of(&statement.kind));
        }
        if let Some(note) = kind_note(n, &statement.kind) {
            return Some(note);
        }
    }
    None
}

/// The consistent set that the statement `n` annotates, by its function and its number.
pub fn set_of(program: &Program, n: StmtId) -> Option<(usize, i32)>
    ensures { result ≡ set_of (program_view program.now) n }
{
    let mut number = 0;
    for function in &program.functions {
        if let Some(note) = block_note(n, &function.body) {
            return match note {
                Some(id) => Some((number, id)),
                None => None,
            };
        }
        number += 1;
    }
    None
}
