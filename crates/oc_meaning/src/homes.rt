//! The block of a consistent set: the smallest one that holds all its annotations.
ghost use Rattle.std.specs.Prelude.{◌≡◌, ◌+◌, ◌==◌, None, Some, if◌then◌else◌, IfOk};
ghost use Rattle.oc_tree.specs.View.{block_view, else_view, kind_view};
ghost use Rattle.oc_meaning.specs.Blocks.{block_home, block_notes, else_home, else_notes, kind_home, kind_notes, or_first, set_home};

use oc_tree::tree::{Block, BlockId, StmtKind};
use std::alloc::AllocError;

/// How many annotations of a set something holds, and the smallest block in it that holds as many
/// as were asked for, if there is one.
#[derive(Clone, Copy)]
struct Home {
    notes: usize,
    block: Option<BlockId>,
}

/// The first of two blocks that may be there, or else the second.
fn or_first(first: Option<BlockId>, second: Option<BlockId>) -> Option<BlockId>
    ensures { result ≡ or_first first second }
{
    match first {
        Some(block) => Some(block),
        None => second,
    }
}

/// What two things hold that stand one behind the other. Err is a sum that overflows.
fn both(first: Home, second: Home) -> Result<Home, AllocError>
    ensures notes { IfOk result (λ h. h.notes ≡ first.notes + second.notes) }
    ensures block { IfOk result (λ h. h.block ≡ or_first first.block second.block) }
{
    let notes = first.notes.checked_add(second.notes).ok_or(AllocError)?;
    let block = or_first(first.block, second.block);
    Ok(Home { notes, block })
}

/// What a block of this number holds that has this in it.
fn around(inner: Home, notes: usize, block: BlockId) -> Home
    ensures notes { result.notes ≡ inner.notes }
    ensures block { result.block
        ≡ (if notes == inner.notes then or_first inner.block (Some block) else None) }
{
    if notes != inner.notes {
        return Home {
            notes: inner.notes,
            block: None,
        };
    }
    Home {
        notes,
        block: or_first(inner.block, Some(block)),
    }
}

/// How many annotations of the set `id` a statement holds, and the smallest block in it that holds
/// `notes` of them.
#[cycle(homes)]
fn kind_home(id: i32, notes: usize, kind: &StmtKind) -> Result<Home, AllocError>
    ensures notes { IfOk result (λ h. h.notes ≡ kind_notes id (kind_view kind.now)) }
    ensures block { IfOk result (λ h. h.block ≡ kind_home id notes (kind_view kind.now)) }
{
    match kind {
        StmtKind::Consistent { id: noted, .. } => Ok(Home {
            notes: (*noted == id) as usize,
            block: None,
        }),
        StmtKind::If {
            then,
            otherwise,
            ..
        } => {
            let first = block_home(id, notes, then)?;
            let second = else_home(id, notes, otherwise)?;
            let whole = both(first, second)?;
            Ok(whole)
        }
        StmtKind::For { body, .. } => block_home(id, notes, body),
        StmtKind::While { body, .. } => block_home(id, notes, body),
        _ => Ok(Home {
            notes: 0,
            block: None,
        }),
    }
}

/// The same of an `else`.
#[cycle(homes)]
fn else_home(id: i32, notes: usize, otherwise: &Option<Block>) -> Result<Home, AllocError>
    ensures notes { IfOk result (λ h. h.notes ≡ else_notes id (else_view otherwise.now)) }
    ensures block { IfOk result (λ h. h.block ≡ else_home id notes (else_view otherwise.now)) }
{
    match otherwise {
        Some(block) => block_home(id, notes, block),
        None => Ok(Home {
            notes: 0,
            block: None,
        }),
    }
}

/// The same of a block, which may be the smallest one itself.
#[cycle(homes)]
#[tactic(auto, using(crate::proofs::Firsts::or_first_assoc))]
fn block_home(id: i32, notes: usize, block: &Block) -> Result<Home, AllocError>
    ensures notes { IfOk result (λ h. h.notes ≡ block_notes id (block_view block.now)) }
    ensures block { IfOk result (λ h. h.block ≡ block_home id notes (block_view block.now)) }
{
    let mut inner = Home {
        notes: 0,
        block: None,
    };
    for statement in &block.statements {
        let home = kind_home(id, notes, &statement.kind)?;
        inner = both(inner, home)?;
    }
    Ok(around(inner, notes, block.id))
}

/// The block of the set `id` in the body of a function.
pub fn set_home(body: &Block, id: i32) -> Result<BlockId, AllocError>
    ensures { IfOk result (λ b. b ≡ set_home (block_view body.now) id) }
{
    let notes = block_home(id, 0, body)?.notes;
    let home = block_home(id, notes, body)?;
    Ok(home.block.unwrap_or(0))
}
