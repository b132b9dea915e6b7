//! Tables of which variable of a function leads to which.
ghost use Rattle.std.specs.Prelude.{◌≡◌, ◌<◌, ◌&&◌, ◌||◌, Bool, [], true, false, length, map, replicate, Some, OnOk, IfOk, IfSome};
ghost use Rattle.std.specs.List.{list_any};
ghost use Rattle.std.proofs.Math.ListN.{get_or};
ghost use Rattle.oc_tree.specs.declared.tree.VarId.{VarId};
ghost use Rattle.oc_flow.specs.Variables.{is_among, same_variable};
ghost use Rattle.oc_flow.specs.Flow.{chain};
ghost use Rattle.oc_flow.specs.Known.{AreEntered, HasAtMost, IsSquare, Joined, JoinedEach, Links, MarkedRow, Marks, TTable, cell, cells_of, linked, number_in, received_at, set_cell, table_flows};

use crate::numbering::{Numbering, is_same};
use oc_tree::tree::VarId;
use std::alloc::{AllocError, Global};
use std::marker::Model;

/// The variables of a function, and which leads to which.
#[derive(Drop)]
pub struct Table {
    numbering: Numbering,
    rows: Vec<Vec<bool>>,
}

impl Model for Table {
    ghost use Rattle.std.specs.Prelude.{length};
    ghost use Rattle.oc_flow.specs.Known.{IsSquare, TTable, cells_of};

    ghost Value = { TTable };

    ghost view = { λ t. record { variables = t.numbering; cells = cells_of t.rows.items } };

    ghost invariant = { λ t. IsSquare (length t.numbering) (cells_of t.rows.items) };
}

/// So many rows and columns, of which none is set.
fn no_rows(alloc: Global, count: usize) -> Result<Vec<Vec<bool>>, AllocError>
    ensures { IfOk result (λ r. cells_of r.items ≡ replicate count (replicate count false)) }
{
    let mut rows = Vec::new(alloc);
    for _i in 0..count {
        rows.push(vec![in alloc; false; count]?)?;
    }
    Ok(rows)
}

/// Whether the cell in this row and column is set.
fn at(rows: &[Vec<bool>], i: usize, j: usize) -> bool
    requires square { IsSquare (length rows.now) (cells_of rows.now) }
    requires row { i < length rows.now }
    requires column { j < length rows.now }
    ensures { result ≡ cell (cells_of rows.now) i j }
{
    rows[i][j]
}

/// A copy of a row. Err is want of memory.
fn copy_of(alloc: Global, row: &[bool]) -> Result<Vec<bool>, AllocError>
    ensures { IfOk result (λ r. r.items ≡ row.now) }
{
    let mut copy = Vec::new(alloc);
    copy.extend_from_slice(row)?;
    Ok(copy)
}

/// Sets the cell in this row and column.
fn set(rows: &mut Vec<Vec<bool>>, i: usize, j: usize)
    requires square { IsSquare (length rows.old.items) (cells_of rows.old.items) }
    requires row { i < length rows.old.items }
    requires column { j < length rows.old.items }
    ensures cells { cells_of rows.new.items ≡ set_cell (cells_of rows.old.items) i j }
{
    rows[i][j] = true;
}

/// Sets in cells what is set in the others. With no branch, so that many are set at once.
fn join(cells: &mut [bool], others: &[bool])
    requires { length others.now ≡ length cells.old }
    ensures { Joined others.now cells.old cells.new }
{
    for i in 0..others.len() {
        cells[i] |= others[i];
    }
}

/// Sets in a row what is set in another of its length.
fn join_row(row: &mut Vec<bool>, other: &[bool])
    requires { length other.now ≡ length row.old.items }
    ensures { Joined other.now row.old.items row.new.items }
{
    join(row.as_mut_slice(), other);
}

/// Sets in each row that has the number what is set in the other.
fn join_each(rows: &mut Vec<Vec<bool>>, number: usize, other: &[bool])
    requires square { IsSquare (length rows.old.items) (cells_of rows.old.items) }
    requires number { number < length rows.old.items }
    requires other { length other.now ≡ length rows.old.items }
    ensures height { length rows.new.items ≡ length rows.old.items }
    ensures cells { JoinedEach number other.now (cells_of rows.old.items)
        (cells_of rows.new.items) }
{
    for i in 0..rows.len() {
        if at(rows.as_slice(), i, number) {
            join_row(&mut rows[i], other);
        }
    }
}

/// The numbers that some row of another number has.
fn entered_numbers(alloc: Global, rows: &[Vec<bool>]) -> Result<Vec<bool>, AllocError>
    requires square { IsSquare (length rows.now) (cells_of rows.now) }
    ensures entered { IfOk result (λ r. AreEntered (cells_of rows.now) r.items) }
{
    let mut entered = vec![in alloc; false; rows.len()]?;
    for i in 0..rows.len() {
        let own = entered[i];
        join_row(&mut entered, rows[i].as_slice());
        entered[i] = own;
    }
    Ok(entered)
}

/// Whether a row has any number but this one. With no branch, so that many are looked at at once.
fn has_another(row: &[bool], number: usize) -> bool
    ensures { result ≡ false → HasAtMost number row.now }
{
    let mut found = false;
    for i in 0..row.len() {
        found |= row[i] & (i != number);
    }
    found
}

/// Sets in each row that has the number what is set in the row of that number. There is nothing to
/// set where no other row has it, and where its row has no other number.
fn join_through(
    alloc: Global,
    rows: &mut Vec<Vec<bool>>,
    number: usize,
    entered: &[bool],
) -> Result<(), AllocError>
    requires square { IsSquare (length rows.old.items) (cells_of rows.old.items) }
    requires number { number < length rows.old.items }
    requires entered { AreEntered (cells_of rows.old.items) entered.now }
    ensures square { IsSquare (length rows.old.items) (cells_of rows.new.items) }
    ensures cells { OnOk result
        (JoinedEach number (get_or (cells_of rows.old.items) number []) (cells_of rows.old.items)
        (cells_of rows.new.items)) }
{
    if !entered[number] {
        return Ok(());
    }
    if !has_another(rows[number].as_slice(), number) {
        return Ok(());
    }
    let other = copy_of(alloc, rows[number].as_slice())?;
    join_each(rows, number, other.as_slice());
    Ok(())
}

/// Marks a number, and those in its row.
fn mark_row(marks: &mut Vec<bool>, row: &[bool], i: usize)
    requires width { length row.now ≡ length marks.old.items }
    requires number { i < length marks.old.items }
    ensures { MarkedRow i row.now marks.old.items marks.new.items }
{
    join_row(marks, row);
    marks[i] = true;
}

impl Table {
    /// A table in which nothing leads to anything.
    pub fn new(alloc: Global, variables: Vec<VarId>) -> Result<Table, AllocError>
        ensures variables { IfOk result (λ t. t.variables ≡ variables.items) }
        ensures none { IfOk result (λ t. Links t (λ u v. false)) }
    {
        let rows = no_rows(alloc, variables.len())?;
        let numbering = Numbering::new(alloc, variables)?;
        Ok(Table { numbering, rows })
    }

    /// The variables in the order of their numbers.
    pub fn variables(&self) -> &[VarId]
        ensures { result.now ≡ self.now.variables }
    {
        // For the proof alone: the view or the invariant speaks of this field.
        let _rows = &self.rows;
        self.numbering.variables()
    }

    /// The number of a variable; none where it is not in the table.
    pub fn number(&self, v: VarId) -> Option<usize>
        ensures number { result ≡ number_in self.now.variables v }
        ensures below { IfSome result (λ i. i < length self.now.variables) }
    {
        // For the proof alone: the view or the invariant speaks of this field.
        let _rows = &self.rows;
        self.numbering.number(v)
    }

    /// The numbers of these variables.
    pub fn numbers(
        &self,
        alloc: Global,
        variables: &[VarId],
    ) -> Result<Vec<Option<usize>>, AllocError>
        ensures { IfOk result
            (λ r. r.items ≡ map (number_in self.now.variables) variables.now) }
    {
        let mut numbers = Vec::new(alloc);
        for v in variables {
            numbers.push(self.number(*v))?;
        }
        Ok(numbers)
    }

    /// Whether the variable of one number leads to that of the other.
    pub fn has(&self, i: usize, j: usize) -> bool
        requires row { i < length self.now.variables }
        requires column { j < length self.now.variables }
        ensures { result ≡ cell self.now.cells i j }
    {
        // For the proof alone: the view or the invariant speaks of this field.
        let _numbering = &self.numbering;
        at(self.rows.as_slice(), i, j)
    }

    /// Whether one variable leads to the other.
    pub fn links(&self, u: VarId, v: VarId) -> bool
        ensures { result ≡ linked self.now u v }
    {
        match (self.number(u), self.number(v)) {
            (Some(i), Some(j)) => at(self.rows.as_slice(), i, j),
            _ => false,
        }
    }

    /// Whether one variable is the other, or leads to it.
    pub fn flows(&self, u: VarId, v: VarId) -> bool
        ensures { result ≡ table_flows self.now u v }
    {
        match (self.number(u), self.number(v)) {
            (Some(i), Some(j)) => is_same(u, v) || at(self.rows.as_slice(), i, j),
            _ => false,
        }
    }

    /// Marks the variables that receive what flows from one.
    fn mark(&self, marks: &mut Vec<bool>, u: VarId)
        requires { length marks.old.items ≡ length self.now.variables }
        ensures { (test : VarId → Bool) → Marks self.now marks.old.items test
            → Marks self.now marks.new.items (λ y. test y || table_flows self.now u y) }
    {
        if let Some(i) = self.number(u) {
            mark_row(marks, self.rows[i].as_slice(), i);
        }
    }

    /// Whether a variable has a mark; not so where it isn't in the table.
    fn is_marked(&self, marks: &[bool], v: VarId) -> bool
        requires { length marks.now ≡ length self.now.variables }
        ensures { result ≡ received_at marks.now (number_in self.now.variables v) }
    {
        match self.number(v) {
            Some(i) => marks[i],
            None => false,
        }
    }

    /// Which of these variables have a mark.
    fn marked(
        &self,
        alloc: Global,
        marks: &[bool],
        variables: &[VarId],
    ) -> Result<Vec<bool>, AllocError>
        requires { length marks.now ≡ length self.now.variables }
        ensures { IfOk result (λ r. r.items
            ≡ map (λ y. received_at marks.now (number_in self.now.variables y)) variables.now) }
    {
        let mut marked = Vec::new(alloc);
        for v in variables {
            marked.push(self.is_marked(marks, *v))?;
        }
        Ok(marked)
    }

    /// Which variables receive what flows from these, in the order of their numbers.
    pub fn received(&self, alloc: Global, from: &[VarId]) -> Result<Vec<bool>, AllocError>
        ensures { IfOk result (λ r. r.items
            ≡ map (λ y. list_any (λ u. table_flows self.now u y) from.now) self.now.variables) }
    {
        let mut marks = vec![in alloc; false; self.variables().len()]?;
        for u in from {
            self.mark(&mut marks, *u);
        }
        let received = self.marked(alloc, marks.as_slice(), self.variables())?;
        Ok(received)
    }

    /// Lets one variable lead to the other, where both are in the table.
    pub fn link(&mut self, u: VarId, v: VarId)
        ensures variables { self.new.variables ≡ self.old.variables }
        ensures links { Links self.new
            (λ a b. linked self.old a b || (same_variable a u && same_variable b v)) }
    {
        if let Some(i) = self.number(u) {
            if let Some(j) = self.number(v) {
                set(&mut self.rows, i, j);
            }
        }
    }

    /// Lets variables lead on through this one, which is in the table.
    fn through(&mut self, alloc: Global, w: VarId, entered: &[bool]) -> Result<(), AllocError>
        requires among { is_among w self.old.variables ≡ true }
        requires entered { AreEntered self.old.cells entered.now }
        ensures variables { self.new.variables ≡ self.old.variables }
        ensures links { OnOk result
            (Links self.new (λ a b. linked self.old a b ||
            (linked self.old a w && linked self.old w b))) }
        ensures entered { OnOk result (AreEntered self.new.cells entered.now) }
    {
        if let Some(k) = self.number(w) {
            join_through(alloc, &mut self.rows, k, entered)?;
        }
        Ok(())
    }

    /// Lets variables lead on through each other.
    pub fn close(&mut self, alloc: Global) -> Result<(), AllocError>
        ensures variables { self.new.variables ≡ self.old.variables }
        ensures links { OnOk result
            (Links self.new (λ a b. chain (linked self.old) self.old.variables a b)) }
    {
        let entered = entered_numbers(alloc, self.rows.as_slice())?;
        let count = self.variables().len();
        for i in 0..count {
            let w = self.variables()[count - 1 - i];
            self.through(alloc, w, entered.as_slice())?;
        }
        Ok(())
    }
}
