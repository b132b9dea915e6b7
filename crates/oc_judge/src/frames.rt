//! What is left to do.
ghost use Rattle.std.specs.Prelude.{◌≡◌, ◌++◌, IfOk, OnOk};
ghost use Rattle.oc_judge.specs.Frames.{frame_view, frames_view, task_frames};

use crate::age::{Age, Value};
use oc_meaning::scope::Scope;
use oc_tree::name::Name;
use oc_tree::tree::{Block, Expr, Stmt, StmtId, StmtKind};
use std::alloc::{AllocError, Global};
use std::rc::Rc;

/// The function that runs: how deep calls may go from here, and its body.
#[derive(Clone, Copy)]
pub struct Inside<'a> {
    pub depth: usize,
    pub body: &'a Block,
}

/// The turns of a `for` that are left: those with the numbers from `next` on and below `to`.
#[derive(Clone, Copy)]
pub struct ForTurns<'a> {
    pub inside: Inside<'a>,
    pub name: &'a Name,
    pub next: i32,
    pub to: i32,
    pub body: &'a Block,
}

/// The turns of a `while` that may be left, how many, and the age of its uses so far.
#[derive(Clone, Copy)]
pub struct WhileTurns<'a> {
    pub inside: Inside<'a>,
    pub stmt: StmtId,
    pub condition: &'a Expr,
    pub left: u32,
    pub body: &'a Block,
    pub age: Age,
}

/// Something that is left to do with the variables that are visible there.
#[derive(Clone, Copy)]
pub enum Task<'a> {
    /// The statements that follow in a block.
    Rest {
        inside: Inside<'a>,
        statements: &'a [Stmt],
    },
    /// What stands behind the work of a statement: the end of its use, if it is one, that of its
    /// region, if one ends, and the statements that follow.
    Behind {
        inside: Inside<'a>,
        stmt: StmtId,
        is_use: bool,
        age: Age,
        region: Option<u32>,
        statements: &'a [Stmt],
    },
    /// The use of a statement begins, if it begins one.
    Use {
        inside: Inside<'a>,
        stmt: StmtId,
        age: Age,
        kind: &'a StmtKind,
    },
    /// A statement's own work.
    Work {
        inside: Inside<'a>,
        stmt: StmtId,
        kind: &'a StmtKind,
    },
    /// The value of a statement's right side is taken.
    Take {
        stmt: StmtId,
        kind: &'a StmtKind,
    },
    /// The turns of a `for`.
    Turns {
        turns: ForTurns<'a>,
    },
    /// The turns of a `while`.
    Loop {
        turns: WhileTurns<'a>,
    },
    /// The condition of a turn of a `while`, with the turns behind it.
    Test {
        turns: WhileTurns<'a>,
    },
}

/// Something that is left to do.
#[derive(Drop)]
pub enum Frame<'a> {
    /// A task, and the variables that are visible there.
    Scoped {
        scope: Rc<Scope<'a>>,
        task: Task<'a>,
    },
    /// A region ends, if one does.
    Close {
        region: Option<u32>,
    },
    /// The local variables that were made since there were so many are gone.
    Leave {
        locals: usize,
    },
    /// A value is returned, and a region ends, if one does.
    Back {
        value: Value,
        region: Option<u32>,
    },
}

/// One thing more is left to do, and comes first.
pub fn push_frame<'a>(frame: Frame<'a>, frames: &mut Vec<Frame<'a>>) -> Result<(), AllocError>
    ensures { OnOk result
        (frames_view frames.new.items ≡ frame_view frame.entry ++ frames_view frames.old.items) }
{
    frames.push(frame)?;
    Ok(())
}

/// One task more is left to do with these variables, and comes first.
pub fn push_task<'a>(
    scope: Rc<Scope<'a>>,
    task: Task<'a>,
    frames: &mut Vec<Frame<'a>>,
) -> Result<(), AllocError>
    ensures { OnOk result
        (frames_view frames.new.items
        ≡ task_frames scope.entry.value task.entry ++ frames_view frames.old.items) }
{
    push_frame(Frame::Scoped { scope, task }, frames)?;
    Ok(())
}

/// The same of it is left to do.
fn copy<'a>(frame: &Frame<'a>) -> Result<Frame<'a>, AllocError>
    ensures { IfOk result (λ f. frame_view f ≡ frame_view frame.now) }
{
    match frame {
        Frame::Scoped { scope, task } => Ok(Frame::Scoped {
            scope: Rc::clone(scope)?,
            task: *task,
        }),
        Frame::Close { region } => Ok(Frame::Close { region: *region }),
        Frame::Leave { locals } => Ok(Frame::Leave { locals: *locals }),
        Frame::Back { value, region } => Ok(Frame::Back {
            value: *value,
            region: *region,
        }),
    }
}

/// The same is left to do.
pub fn copies<'a>(alloc: Global, frames: &[Frame<'a>]) -> Result<Vec<Frame<'a>>, AllocError>
    ensures { IfOk result (λ fs. frames_view fs.items ≡ frames_view frames.now) }
{
    let mut copies = Vec::new(alloc);
    for frame in frames {
        copies.push(copy(frame)?)?;
    }
    Ok(copies)
}
