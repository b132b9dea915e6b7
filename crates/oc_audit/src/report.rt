//! Reports, read from their files.
ghost use Rattle.std.specs.Prelude.{◌≡◌, ◌<◌, true, [], length, map, option_map, IfOk, IfErr};
ghost use Rattle.oc_tree.specs.Names.{names_view};
ghost use Rattle.oc_items.specs.Text.{ends, is_over};
ghost use Rattle.oc_audit.specs.Taking.{AreNames, GivesItem, GivesLine, Stands, Takes, has_no_feed};
ghost use Rattle.oc_audit.specs.Errors.{ExplainsReport};
ghost use Rattle.oc_audit.specs.Files.{IsBadLine, IsReportFile};
ghost use Rattle.oc_audit.specs.declared.report.ReportError.TheVariants as error;

use crate::lines::first_line;
use crate::words::take_words;
use oc_io::Memory;
use oc_items::item::Item;
use oc_items::read::read_item;
use oc_tree::checked::Checked;
use oc_tree::name::Names;
use oc_tree::tree::NvDecl;
use std::alloc::{AllocError, AllocFailed, Global};
use std::marker::Model;
use thiserror::Error;

/// What was reported: items and, where they are over, the words of the nonvolatile variables.
#[derive(Drop)]
pub struct Report {
    pub items: Vec<Item>,
    pub nv: Option<Vec<i32>>,
}

/// Why a report wasn't read: the first bad line, with lines numbered from 1, or want of memory.
#[derive(Clone, Copy, Debug, Error)]
pub enum ReportError {
    /// This is the first bad line.
    #[error("bad report line {line}")]
    Line { line: u64 },
    /// There is no memory left.
    #[error("out of memory")]
    Memory,
}

impl From<Memory> for ReportError {
    ghost from_gives = { λ _ e. e ≡ error.Memory };

    fn from(_: Memory) -> ReportError {
        ReportError::Memory
    }
}

impl From<AllocError> for ReportError {
    ghost from_gives = { λ _ e. e ≡ error.Memory };

    fn from(_: AllocError) -> ReportError {
        ReportError::Memory
    }
}

impl<T: Drop> From<AllocFailed<T>> for ReportError {
    ghost from_gives = { λ _ e. e ≡ error.Memory };

    fn from(_: AllocFailed<T>) -> ReportError {
        ReportError::Memory
    }
}

/// What was read so far: the items, of how many variables the lines, and their words.
#[derive(Drop)]
struct Reading {
    items: Vec<Item>,
    next: usize,
    words: Vec<i32>,
}

impl Model for Reading {
    ghost use Rattle.oc_audit.specs.Taking.{Taken};

    ghost Value = { Taken };

    ghost view = { λ r. record { items = r.items.items; next = r.next; words = r.words.items } };
}

/// Whether a run is over with this item.
fn ends_run(item: &Item) -> bool
    ensures { result ≡ ends item.now }
{
    matches!(*item, Item::End { .. } | Item::Trap { .. })
}

/// Whether a run is over with the last of these items.
fn are_over(items: &[Item]) -> bool
    ensures { result ≡ is_over items.now }
{
    match items.last() {
        Some(item) => ends_run(item),
        None => false,
    }
}

/// Takes a line of an item, where no line of a variable was taken.
fn take_item(names: &Names, read: &mut Reading, line: &[u8]) -> Result<bool, AllocError>
    ensures { IfOk result
        (λ good. GivesItem (names_view names.now) read.old line.now good read.new) }
{
    if read.next != 0 {
        return Ok(false);
    }
    let Some(item) = read_item(line, names) else {
        return Ok(false);
    };
    read.items.push(item)?;
    Ok(true)
}

/// Takes the line of the next variable, where the items are over.
fn take_variable(
    names: &Names,
    variables: &[NvDecl],
    read: &mut Reading,
    line: &[u8],
) -> Result<bool, AllocError>
    requires { length variables.now ≡ length (names_view names.now).nvs }
    ensures { IfOk result (λ good. GivesLine (names_view names.now)
        (map (λ d. d.words) variables.now) read.old line.now good read.new) }
{
    if !are_over(&read.items) || read.next >= variables.len() {
        return Ok(false);
    }
    let count = variables[read.next].words;
    let name = &names.nvs[read.next];
    if !take_words(name, count, line, &mut read.words)? {
        return Ok(false);
    }
    read.next += 1;
    Ok(true)
}

/// Takes a line, or tells that it may not stand here.
fn take_line(
    names: &Names,
    variables: &[NvDecl],
    read: &mut Reading,
    line: &[u8],
) -> Result<bool, AllocError>
    requires { length variables.now ≡ length (names_view names.now).nvs }
    ensures { IfOk result (λ good. Takes (names_view names.now) (map (λ d. d.words) variables.now)
        read.old line.now good read.new) }
{
    if take_item(names, read, line)? {
        return Ok(true);
    }
    take_variable(names, variables, read, line)
}

/// Takes all lines that end, and gives their number and the bytes behind them.
fn take_lines<'a>(
    names: &Names,
    variables: &[NvDecl],
    bytes: &'a [u8],
    read: &mut Reading,
) -> Result<(u64, &'a [u8]), ReportError>
    requires first { read.old ≡ record { items = []; next = 0; words = [] } }
    requires named { AreNames (names_view names.now) (map (λ d. d.words) variables.now) }
    ensures ok { IfOk result (λ r. Stands (names_view names.now) (map (λ d. d.words) variables.now)
        bytes.now r.0 r.1.now read.new × (has_no_feed r.1.now ≡ true)) }
    ensures line { IfErr result (λ e. ExplainsReport (names_view names.now)
        (map (λ d. d.words) variables.now) bytes.now e) }
{
    let mut rest = bytes;
    let mut line: u64 = 0;
    while let Some((front, behind)) = first_line(rest) {
        line += 1;
        if !take_line(names, variables, read, front)? {
            return Err(ReportError::Line { line });
        }
        rest = behind;
    }
    Ok((line, rest))
}

/// What is told of an unfinished last line.
fn judge_last(
    names: &Names,
    variables: &[NvDecl],
    bytes: &[u8],
    line: u64,
    rest: &[u8],
    read: &mut Reading,
) -> Result<u64, ReportError>
    requires stands { Stands (names_view names.now) (map (λ d. d.words) variables.now) bytes.now
        line rest.now read.old }
    requires feed { has_no_feed rest.now ≡ true }
    requires there { 0 < length rest.now }
    requires named { AreNames (names_view names.now) (map (λ d. d.words) variables.now) }
    ensures ok { IfOk result (λ n. IsBadLine (names_view names.now)
        (map (λ d. d.words) variables.now) bytes.now n) }
    ensures line { IfErr result (λ e. ExplainsReport (names_view names.now)
        (map (λ d. d.words) variables.now) bytes.now e) }
{
    if take_line(names, variables, read, rest)? {
        Ok(line + 2)
    } else {
        Ok(line + 1)
    }
}

/// The report, where all lines that end were taken.
fn finish(
    names: &Names,
    variables: &[NvDecl],
    bytes: &[u8],
    line: u64,
    read: Reading,
) -> Result<Report, ReportError>
    requires stands { Stands (names_view names.now) (map (λ d. d.words) variables.now) bytes.now
        line [] read }
    requires named { AreNames (names_view names.now) (map (λ d. d.words) variables.now) }
    ensures ok { IfOk result (λ r. IsReportFile (names_view names.now)
        (map (λ d. d.words) variables.now) bytes.now r.items.items
        (option_map (λ w. w.items) r.nv)) }
    ensures line { IfErr result (λ e. ExplainsReport (names_view names.now)
        (map (λ d. d.words) variables.now) bytes.now e) }
{
    if !are_over(&read.items) {
        return Ok(Report {
            items: read.items,
            nv: None,
        });
    }
    if read.next < variables.len() {
        return Err(ReportError::Line { line: line + 1 });
    }
    Ok(Report {
        items: read.items,
        nv: Some(read.words),
    })
}

/// The report of a file under these names, with nonvolatile variables of these sizes.
fn read_named(
    alloc: Global,
    names: &Names,
    variables: &[NvDecl],
    bytes: &[u8],
) -> Result<Report, ReportError>
    requires named { AreNames (names_view names.now) (map (λ d. d.words) variables.now) }
    ensures ok { IfOk result (λ r. IsReportFile (names_view names.now)
        (map (λ d. d.words) variables.now) bytes.now r.items.items
        (option_map (λ w. w.items) r.nv)) }
    ensures line { IfErr result (λ e. ExplainsReport (names_view names.now)
        (map (λ d. d.words) variables.now) bytes.now e) }
{
    let mut read = Reading {
        items: Vec::new(alloc),
        next: 0,
        words: Vec::new(alloc),
    };
    let (line, rest) = take_lines(names, variables, bytes, &mut read)?;
    if !rest.is_empty() {
        let bad = judge_last(names, variables, bytes, line, rest, &mut read)?;
        return Err(ReportError::Line { line: bad });
    }
    finish(names, variables, bytes, line, read)
}

/// The report of a file under a program's names.
pub fn read_report(alloc: Global, bytes: &[u8], program: &Checked) -> Result<Report, ReportError>
    ensures ok { IfOk result (λ r. IsReportFile program.now.program.names
        (map (λ d. d.words) program.now.program.nv) bytes.now r.items.items
        (option_map (λ w. w.items) r.nv)) }
    ensures line { IfErr result (λ e. ExplainsReport program.now.program.names
        (map (λ d. d.words) program.now.program.nv) bytes.now e) }
{
    let tree = program.program();
    read_named(alloc, &tree.names, &tree.nv, bytes)
}
