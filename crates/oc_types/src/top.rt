//! What the names of the top level stand for.
ghost use Rattle.std.specs.Prelude.{◌≡◌, ◌<◌, ◌≤◌, length, option_map, slice_get, IfOk, IfSome};
ghost use Rattle.std.specs.Coded.{codes};
ghost use Rattle.oc_tree.specs.declared.tree.Program.{Program};
ghost use Rattle.oc_tree.specs.contracts.tree.Block as b;
ghost use Rattle.oc_tree.specs.Nodes.{block_nodes, program_nodes};
ghost use Rattle.oc_tree.specs.View.{block_view, call_view, function_view, program_view};
ghost use Rattle.oc_tree.specs.Calls.{function_place, place};
ghost use Rattle.oc_tree.specs.Scope.{function_named, is_declared, is_taken, nv_kind, nv_named, variable_of};
ghost use Rattle.oc_types.specs.Marks.{IsAssigning, IsCallers, IsMentioning, IsNoted};
ghost use Rattle.oc_tree.specs.Rules.{callee_params, declared_before, stands_before};

use crate::notes::{Noted, Notes};
use crate::scope::Scope;
use oc_names::table::Table;
use oc_reach::marks::Marks;
use oc_tree::before::Before;
use oc_tree::name::Name;
use oc_tree::scope::{Origin, Var};
use oc_tree::tree::{Call, Function, NvDecl, Param, Program, ValueKind};
use std::alloc::{AllocError, Global};
use std::marker::Model;

/// The tables of the names of a program's sensors, ports and nonvolatile variables.
struct Names<'a> {
    sensors: Table<'a>,
    ports: Table<'a>,
    nvs: Table<'a>,
}

// Written out, as is that of each struct here that owns tables: a function that lets one go then
// calls this, where a derived drop would be proved in it anew, field by field.
impl Drop for Names<'_> {
    fn drop(self) {
        let Names {
            sensors,
            ports,
            nvs,
        } = self;
        drop(sensors);
        drop(ports);
        drop(nvs);
    }
}

/// A program with tables of the names of its top level, which contracts see as the program.
pub struct TopLevel<'a> {
    program: &'a Program,
    names: Names<'a>,
    notes: Notes<'a>,
}

impl Drop for TopLevel<'_> {
    fn drop(self) {
        let TopLevel {
            program: _,
            names,
            notes,
        } = self;
        drop(names);
        drop(notes);
    }
}

impl<'a> Model for TopLevel<'a> {
    ghost Value = { Program };

    ghost coded = { Prim.hlevel (codes, b.the_row.coded) };

    ghost view = { λ t. t.program.now };

    ghost invariant = { λ t.
        (t.names.sensors ≡ (program_view t.program.now).names.sensors)
        × (t.names.ports ≡ (program_view t.program.now).names.ports)
        × (t.names.nvs ≡ (program_view t.program.now).names.nvs)
        × (t.notes ≡ t.program.now) };
}

/// The kind of a nonvolatile variable.
pub fn nv_kind(nv: NvDecl) -> ValueKind
    ensures { result ≡ nv_kind nv }
{
    if nv.array {
        ValueKind::Array { words: nv.words }
    } else {
        ValueKind::Int
    }
}

/// The table of these names by their places. Err is want of memory.
fn names_table<'a>(alloc: Global, names: &'a [Name]) -> Result<Table<'a>, AllocError>
    ensures { IfOk result (λ t. t ≡ names.now) }
{
    let mut seen = Vec::new(alloc);
    for name in names {
        seen.push(name)?;
    }
    Table::new(alloc, seen)
}

impl<'a> Names<'a> {
    /// Makes the tables of a program. Err is want of memory.
    fn new(alloc: Global, program: &'a Program) -> Result<Names<'a>, AllocError>
        ensures { IfOk result (λ t.
            (t.sensors ≡ (program_view program.now).names.sensors)
            × (t.ports ≡ (program_view program.now).names.ports)
            × (t.nvs ≡ (program_view program.now).names.nvs)) }
    {
        let sensors = names_table(alloc, program.names.sensors.as_slice())?;
        let ports = names_table(alloc, program.names.ports.as_slice())?;
        let nvs = names_table(alloc, program.names.nvs.as_slice())?;
        Ok(Names {
            sensors,
            ports,
            nvs,
        })
    }
}

/// Whether a place is among the first `count`; not so where there is none.
fn stands_before(place: Option<usize>, count: usize) -> bool
    ensures { result ≡ stands_before place count }
{
    match place {
        Some(i) => i < count,
        None => false,
    }
}

impl<'a> TopLevel<'a> {
    /// Makes the tables of a program.
    pub fn new(alloc: Global, program: &'a Program) -> Result<TopLevel<'a>, AllocError>
        ensures { IfOk result (λ t. t ≡ program.now) }
    {
        let names = Names::new(alloc, program)?;
        let notes = Notes::new(alloc, program)?;
        Ok(TopLevel {
            program,
            names,
            notes,
        })
    }

    /// The program.
    pub fn program(&self) -> &'a Program
        ensures { result.now ≡ self.now }
    {
        self.program
    }

    /// The number of a sensor.
    pub fn sensor_place(&self, name: &Name) -> Option<usize>
        ensures { result ≡ place (program_view self.now).names.sensors name.now }
    {
        self.names.sensors.place(name)
    }

    /// The number of a port.
    pub fn port_place(&self, name: &Name) -> Option<usize>
        ensures { result ≡ place (program_view self.now).names.ports name.now }
    {
        self.names.ports.place(name)
    }

    /// The number of a nonvolatile variable.
    pub fn nv_place(&self, name: &Name) -> Option<usize>
        ensures place { result ≡ place (program_view self.now).names.nvs name.now }
        ensures below { IfSome result (λ i. i < length (program_view self.now).names.nvs) }
    {
        self.names.nvs.place(name)
    }

    /// The number of the first function of a name.
    pub fn function_place(&self, name: &Name) -> Option<usize>
        ensures place { result ≡ function_place (program_view self.now).functions name.now }
        ensures below { IfSome result (λ i. i < length (program_view self.now).functions) }
    {
        self.notes.calls().place(name)
    }

    /// Marks a function, and those that call it, directly or through others.
    pub fn callers(&self, alloc: Global, number: usize) -> Result<Marks, AllocError>
        requires { number < length (program_view self.now).functions }
        ensures { IfOk result (λ m. IsCallers (program_view self.now) number m) }
    {
        let marks = self.notes.calls().callers(alloc, number)?;
        Ok(marks)
    }

    /// Marks the functions that name a nonvolatile variable, and those that call one, directly or
    /// through others.
    pub fn mentioning(&self, alloc: Global, name: &Name) -> Result<Marks, AllocError>
        ensures { IfOk result (λ m. IsMentioning (program_view self.now) name.now m) }
    {
        let marks = self.notes.mentioning(alloc, name)?;
        Ok(marks)
    }

    /// Marks the functions that assign a nonvolatile variable, and those that call one, directly or
    /// through others.
    pub fn assigning(&self, alloc: Global, name: &Name) -> Result<Marks, AllocError>
        ensures { IfOk result (λ m. IsAssigning (program_view self.now) name.now m) }
    {
        let marks = self.notes.assigning(alloc, name)?;
        Ok(marks)
    }

    /// The marks of a nonvolatile variable, where they are worked out.
    pub fn find_marks(&self, name: &Name) -> Option<&Noted<'a>>
        ensures { IfSome result
            (λ n. IsNoted (program_view self.now) name.now n.now.assigning n.now.mentioning) }
    {
        self.notes.find_marks(name)
    }

    /// The first function of that name.
    pub fn function(&self, name: &Name) -> Option<&'a Function>
        ensures { option_map (λ f. function_view f.now) result
            ≡ function_named (program_view self.now) name.now }
    {
        let functions = self.program().functions.as_slice();
        match self.function_place(name) {
            Some(i) => functions.get(i),
            None => None,
        }
    }

    /// The function with this number, if there is one.
    fn nth(&self, number: usize) -> Option<&'a Function>
        ensures { option_map (λ f. function_view f.now) result
            ≡ slice_get (program_view self.now).functions number }
    {
        let functions = self.program().functions.as_slice();
        functions.get(number)
    }

    /// The function with that number.
    pub fn function_at(&self, number: usize) -> Option<&'a Function>
        ensures found { option_map (λ f. function_view f.now) result
            ≡ slice_get (program_view self.now).functions number }
        ensures below { IfSome result (λ f. number < length (program_view self.now).functions) }
        ensures nodes { IfSome result
            (λ f. block_nodes (block_view f.now.body) ≤ program_nodes (program_view self.now)) }
    {
        self.nth(number)
    }

    /// The parameters of the called function.
    pub fn params(&self, call: &Call) -> &'a [Param]
        ensures { result.now ≡ callee_params (program_view self.now) (call_view call.now) }
    {
        match self.function(&call.function) {
            Some(f) => f.params.as_slice(),
            None => &[],
        }
    }

    /// The nonvolatile variable of this name, if there is one.
    fn nv(&self, name: &Name) -> Option<Var>
        ensures { result ≡ nv_named (program_view self.now) name.now }
    {
        let nvs = self.program().nv.as_slice();
        match self.nv_place(name) {
            Some(i) => match nvs.get(i) {
                Some(nv) => Some(Var {
                    origin: Origin::Nv,
                    kind: nv_kind(*nv),
                }),
                None => None,
            },
            None => None,
        }
    }

    /// A variable in scope, or else a nonvolatile one.
    pub fn variable(&self, scope: &Scope<'a>, name: &Name) -> Option<Var>
        ensures { result ≡ variable_of (program_view self.now) scope.now name.now }
    {
        match scope.get(name) {
            Some(variable) => Some(variable),
            None => self.nv(name),
        }
    }

    /// Whether the name is declared somewhere at the top level.
    pub fn declares(&self, name: &Name) -> bool
        ensures { result ≡ is_declared (program_view self.now) name.now }
    {
        self.sensor_place(name).is_some()
            || self.port_place(name).is_some()
            || self.nv_place(name).is_some()
            || self.function_place(name).is_some()
    }

    /// Whether a declaration of the name stands before.
    pub fn declares_before(&self, before: Before, name: &Name) -> bool
        ensures { result ≡ declared_before (program_view self.now) before name.now }
    {
        stands_before(self.sensor_place(name), before.sensors)
            || stands_before(self.port_place(name), before.ports)
            || stands_before(self.nv_place(name), before.nvs)
            || stands_before(self.function_place(name), before.functions)
    }

    /// Whether a visible variable or something at the top level has the name.
    pub fn is_taken(&self, scope: &Scope<'a>, name: &Name) -> bool
        ensures { result ≡ is_taken (program_view self.now) scope.now name.now }
    {
        scope.get(name).is_some() || self.declares(name)
    }
}
