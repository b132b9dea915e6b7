//! Marks of functions for nonvolatile variables, worked out once for each name.
ghost use Rattle.std.specs.Prelude.{◌≡◌, IfOk, IfSome};
ghost use Rattle.std.specs.Coded.{codes};
ghost use Rattle.std.specs.List.{All};
ghost use Rattle.oc_tree.specs.declared.tree.Program.{Program};
ghost use Rattle.oc_tree.specs.contracts.tree.Block as b;
ghost use Rattle.oc_tree.specs.View.{program_view};
ghost use Rattle.oc_types.specs.Marks.{IsAssigning, IsMentioning, IsNoted};

use crate::statement::Statement;
use crate::uses::Uses;
use oc_reach::calls::Calls;
use oc_reach::marks::Marks;
use oc_reach::parts::function_kinds;
use oc_tree::name::Name;
use oc_tree::named::own_names;
use oc_tree::tree::{Function, Program, StmtKind};
use std::alloc::{AllocError, Global};
use std::marker::Model;

/// A program has at most so many nonvolatile variables.
const MOST_NAMES: usize = 64;

/// The name of a nonvolatile variable, with the functions that assign it or name it, and those that
/// call one, directly or through others.
pub struct Noted<'a> {
    pub name: &'a Name,
    pub assigning: Marks,
    pub mentioning: Marks,
}

// Written out, as that of `TopLevel`.
impl Drop for Noted<'_> {
    fn drop(self) {
        let Noted {
            name: _,
            assigning,
            mentioning,
        } = self;
        drop(assigning);
        drop(mentioning);
    }
}

/// A program with marks for names, which contracts see as the program.
pub struct Notes<'a> {
    program: &'a Program,
    calls: Calls<'a>,
    // none where no variable stands beside a call, so that nothing asks for marks
    uses: Option<Uses<'a>>,
    noted: Vec<Noted<'a>>,
}

// Written out, as that of `TopLevel`.
impl Drop for Notes<'_> {
    fn drop(self) {
        let Notes {
            program: _,
            calls,
            uses,
            noted,
        } = self;
        drop(calls);
        drop(uses);
        drop(noted);
    }
}

impl<'a> Model for Notes<'a> {
    ghost Value = { Program };

    ghost coded = { Prim.hlevel (codes, b.the_row.coded) };

    ghost view = { λ t. t.program.now };

    ghost invariant = { λ t.
        (t.calls ≡ t.program.now.functions.items)
        × (IfSome t.uses (λ u. u ≡ t.program.now.functions.items))
        × (All (λ n. IsNoted (program_view t.program.now) n.name.now n.assigning n.mentioning)
        t.noted.items) };
}

/// Marks the functions that assign a nonvolatile variable, and those that call one, directly or
/// through others. Err is want of memory.
fn assigning_marks(
    alloc: Global,
    program: &Program,
    uses: &Uses,
    name: &Name,
) -> Result<Marks, AllocError>
    requires { uses.now ≡ program.now.functions.items }
    ensures { IfOk result (λ m. IsAssigning (program_view program.now) name.now m) }
{
    let marks = uses.assigning(alloc, name)?;
    Ok(marks)
}

/// Marks the functions that name a nonvolatile variable, and those that call one, directly or
/// through others. Err is want of memory.
fn mentioning_marks(
    alloc: Global,
    program: &Program,
    uses: &Uses,
    name: &Name,
) -> Result<Marks, AllocError>
    requires { uses.now ≡ program.now.functions.items }
    ensures { IfOk result (λ m. IsMentioning (program_view program.now) name.now m) }
{
    let marks = uses.mentioning(alloc, name)?;
    Ok(marks)
}

/// Marks the functions that assign a nonvolatile variable, those that name it, and those that call
/// one of them, directly or through others. Err is want of memory.
fn note<'a>(
    alloc: Global,
    program: &Program,
    uses: &Uses,
    name: &'a Name,
) -> Result<Noted<'a>, AllocError>
    requires { uses.now ≡ program.now.functions.items }
    ensures { IfOk result
        (λ n. IsNoted (program_view program.now) n.name.now n.assigning n.mentioning) }
{
    let assigning = assigning_marks(alloc, program, uses, name)?;
    let mentioning = mentioning_marks(alloc, program, uses, name)?;
    Ok(Noted {
        name,
        assigning,
        mentioning,
    })
}

/// Marks for the first of a program's nonvolatile variables, which are all where it is accepted.
/// Which of them are noted changes no answer.
fn note_all<'a>(
    alloc: Global,
    program: &'a Program,
    uses: &Uses,
) -> Result<Vec<Noted<'a>>, AllocError>
    requires { uses.now ≡ program.now.functions.items }
    ensures { IfOk result
        (λ r. All (λ n. IsNoted (program_view program.now) n.name.now n.assigning n.mentioning)
        r.items) }
{
    let mut noted = Vec::new(alloc);
    for name in program.names.nvs.as_slice().iter().take(MOST_NAMES) {
        noted.push(note(alloc, program, uses, name)?)?;
    }
    Ok(noted)
}

/// Whether a statement names a variable beside a call. Err is want of memory.
fn names_beside_call(alloc: Global, kind: &StmtKind) -> Result<bool, AllocError> {
    let statement = Statement::new(alloc, kind)?;
    if statement.calls().is_empty() {
        return Ok(false);
    }
    let mut names = Vec::new(alloc);
    own_names(kind, &mut names)?;
    Ok(!names.is_empty())
}

/// Whether a statement of a function names a variable beside a call. Err is want of memory.
fn function_names(alloc: Global, function: &Function) -> Result<bool, AllocError> {
    let kinds = function_kinds(alloc, function, None)?;
    for kind in &kinds {
        if names_beside_call(alloc, *kind)? {
            return Ok(true);
        }
    }
    Ok(false)
}

/// Whether marks may be asked for: there are nonvolatile variables, and some variable stands beside
/// a call. Err is want of memory.
fn asks_for_marks(alloc: Global, program: &Program) -> Result<bool, AllocError> {
    if program.names.nvs.is_empty() {
        return Ok(false);
    }
    for function in &program.functions {
        if function_names(alloc, function)? {
            return Ok(true);
        }
    }
    Ok(false)
}

impl<'a> Notes<'a> {
    /// A program whose marks may be asked for.
    fn with_marks(
        alloc: Global,
        program: &'a Program,
        calls: Calls<'a>,
    ) -> Result<Notes<'a>, AllocError>
        requires { calls ≡ program.now.functions.items }
        ensures { IfOk result (λ n. n ≡ program.now) }
    {
        let uses = Uses::new(alloc, program.functions.as_slice())?;
        let noted = note_all(alloc, program, &uses)?;
        Ok(Notes {
            program,
            calls,
            uses: Some(uses),
            noted,
        })
    }

    /// Works out the marks of a program.
    pub fn new(alloc: Global, program: &'a Program) -> Result<Notes<'a>, AllocError>
        ensures { IfOk result (λ n. n ≡ program.now) }
    {
        let asked = asks_for_marks(alloc, program)?;
        let calls = Calls::new(alloc, program.functions.as_slice())?;
        if asked {
            Notes::with_marks(alloc, program, calls)
        } else {
            Ok(Notes {
                program,
                calls,
                uses: None,
                noted: Vec::new(alloc),
            })
        }
    }

    /// The functions with their calls.
    pub fn calls(&self) -> &Calls<'a>
        ensures { result.now ≡ self.now.functions.items }
    {
        &self.calls
    }

    /// Marks the functions that name a nonvolatile variable, and those that call one, directly or
    /// through others.
    pub fn mentioning(&self, alloc: Global, name: &Name) -> Result<Marks, AllocError>
        ensures { IfOk result (λ m. IsMentioning (program_view self.now) name.now m) }
    {
        match &self.uses {
            Some(uses) => mentioning_marks(alloc, self.program, uses, name),
            None => {
                let uses = Uses::new(alloc, self.program.functions.as_slice())?;
                mentioning_marks(alloc, self.program, &uses, name)
            }
        }
    }

    /// Marks the functions that assign a nonvolatile variable, and those that call one, directly or
    /// through others.
    pub fn assigning(&self, alloc: Global, name: &Name) -> Result<Marks, AllocError>
        ensures { IfOk result (λ m. IsAssigning (program_view self.now) name.now m) }
    {
        match &self.uses {
            Some(uses) => assigning_marks(alloc, self.program, uses, name),
            None => {
                let uses = Uses::new(alloc, self.program.functions.as_slice())?;
                assigning_marks(alloc, self.program, &uses, name)
            }
        }
    }

    /// The marks of a nonvolatile variable, where they are worked out.
    pub fn find_marks(&self, name: &Name) -> Option<&Noted<'a>>
        ensures { IfSome result
            (λ n. IsNoted (program_view self.now) name.now n.now.assigning n.now.mentioning) }
    {
        for noted in &self.noted {
            if name.is(noted.name) {
                return Some(noted);
            }
        }
        None
    }
}
