//! Rows, one after the other.
ghost use Rattle.std.specs.Prelude.{◌≡◌, [], true, IfOk, OnErr, get_or, length};
ghost use Rattle.csv.specs.Reading.{error_kind, stops_reader};
ghost use Rattle.oc_rows.specs.Rows.{file_rows, StepsOn};

use csv::{ByteRecord, Reader, ReaderBuilder};
use oc_io::Memory;
use std::alloc::Global;
use std::marker::Model;

/// A place in the rows of a file: the row at hand, with its number from 1, and the rows left.
#[derive(Drop)]
pub struct Rows<'a> {
    reader: Reader<&'a [u8]>,
    row: ByteRecord,
    number: u64,
    ended: bool,
}

impl<'a> Model for Rows<'a> {
    ghost use Rattle.csv.specs.Records.{fields_of};
    ghost use Rattle.oc_rows.specs.Place.{Cursor};
    ghost use Rattle.oc_rows.specs.Reading.{rows_left, ReadsPlainly};

    ghost Value = { Cursor };

    ghost view = { λ a. record {
      number = a.number;
      row = fields_of a.row;
      left = rows_left a.ended a.reader;
    } };

    ghost invariant = { λ a. ReadsPlainly a.reader a.number a.ended };
}

/// What stops a reader over bytes in memory, which never fail to be read.
fn want_of_memory(_error: csv::Error) -> Memory
    requires { stops_reader (error_kind _error) ≡ true }
{
    Memory
}

impl<'a> Rows<'a> {
    /// Before the first row of a file. No row is at hand: its number is 0.
    pub fn new(alloc: Global, bytes: &'a [u8]) -> Rows<'a>
        ensures { result ≡ record { number = 0; row = []; left = file_rows bytes.now } }
    {
        let reader = ReaderBuilder::new()
            .has_headers(false)
            .flexible(true)
            .from_reader(alloc, bytes);
        Rows {
            reader,
            row: ByteRecord::new(alloc),
            number: 0,
            ended: false,
        }
    }

    /// Takes the next row, or says that there is none. Only want of memory fails, and then no row
    /// is left.
    pub fn step_on(&mut self) -> Result<bool, Memory>
        ensures ok { IfOk result (λ found. StepsOn self.old self.new found) }
        ensures err { OnErr result (self.new.left ≡ []) }
    {
        if self.ended {
            return Ok(false);
        }
        self.ended = true;
        let found = match self.reader.read_byte_record(&mut self.row) {
            Ok(found) => found,
            Err(error) => return Err(want_of_memory(error)),
        };
        if !found {
            return Ok(false);
        }
        self.ended = false;
        self.number += 1;
        Ok(true)
    }

    /// The number of the row at hand.
    pub fn number(&self) -> u64
        ensures { result ≡ self.now.number }
    {
        self.number
    }

    /// How many fields the row at hand has.
    pub fn field_count(&self) -> usize
        ensures { result ≡ length self.now.row }
    {
        self.row.len()
    }

    /// A field of the row at hand, or no bytes where it has no such field.
    pub fn field(&self, at: usize) -> &[u8]
        ensures { result.now ≡ get_or self.now.row at [] }
    {
        self.row.get(at).unwrap_or(b"")
    }
}
