//! What is around the statements of a function.
ghost use Rattle.std.specs.Prelude.{◌≡◌, ◌≤◌, ◌<◌, map, length, IfOk};
ghost use Rattle.oc_tree.specs.Names.{names_view};
ghost use Rattle.oc_tree.specs.View.{call_view, function_view};
ghost use Rattle.oc_tree.specs.Regions.{region_view};
ghost use Rattle.oc_tree.specs.Sizes.{function_limit, name_limit};
ghost use Rattle.oc_tree.specs.Weight.{has_result};
ghost use Rattle.oc_meaning.specs.Exec.{begun_by, ended_by, number_in};
ghost use Rattle.oc_code.specs.Code.{function_number};

use crate::ends::{begin_table, end_table, region_at};
use oc_meaning::names::place_in;
use oc_names::table::{Table, function_table, result_at};
use oc_tree::marked::Region;
use oc_tree::name::Name;
use oc_tree::tree::{Call, Function, Program};
use std::alloc::{AllocError, Global};
use std::marker::Model;

/// The program and the regions around the statements of a function with so many parameters.
#[derive(Drop)]
pub struct Setting<'a> {
    program: &'a Program,
    table: Table<'a>,
    regions: &'a [Region],
    begins: Vec<Option<u32>>,
    ends: Vec<Option<u32>>,
    params: u32,
}

impl<'a> Model for Setting<'a> {
    ghost use Rattle.std.specs.Prelude.{◌≡◌, ◌≤◌, ℕ, None, map, length};
    ghost use Rattle.std.specs.Coded.{codes};
    ghost use Rattle.std.proofs.Math.ListN.{get_or};
    ghost use Rattle.oc_tree.specs.Names.{names_view};
    ghost use Rattle.oc_tree.specs.Stored.{block_code};
    ghost use Rattle.oc_tree.specs.View.{function_view};
    ghost use Rattle.oc_tree.specs.Regions.{region_view};
    ghost use Rattle.oc_tree.specs.Calls.{function_names};
    ghost use Rattle.oc_tree.specs.Sizes.{function_limit, name_limit};
    ghost use Rattle.oc_meaning.specs.Exec.{begun_by, ended_by};
    ghost use Rattle.oc_codegen.specs.Around.{Around};

    ghost Value = { Around };

    ghost coded = { Prim.hlevel (codes, block_code (Prim.hlevel codes)) };

    ghost view = { λ a. record {
      names = names_view a.program.now.names;
      functions = map function_view a.program.now.functions.items;
      regions = map region_view a.regions.now;
      params = a.params;
    } };

    ghost invariant = { λ a. (a.table
        ≡ function_names (map function_view a.program.now.functions.items))
        × (length a.program.now.names.sensors.items ≤ name_limit)
        × (length a.program.now.names.ports.items ≤ name_limit)
        × (length a.program.now.functions.items ≤ function_limit)
        × ((n : ℕ) → get_or a.begins.items n None ≡ begun_by (map region_view a.regions.now) n)
        × ((n : ℕ) → get_or a.ends.items n None ≡ ended_by (map region_view a.regions.now) n) };
}

impl<'a> Setting<'a> {
    /// The setting of a function without parameters, until one is entered. On want of memory there is
    /// none.
    pub fn new(
        alloc: Global,
        program: &'a Program,
        regions: &'a [Region],
    ) -> Result<Setting<'a>, AllocError>
        requires sensors { length program.now.names.sensors.items ≤ name_limit }
        requires ports { length program.now.names.ports.items ≤ name_limit }
        requires functions { length program.now.functions.items ≤ function_limit }
        ensures { IfOk result (λ s. s
            ≡ record {
              names = names_view program.now.names;
              functions = map function_view
                  program.now.functions.items;
              regions = map region_view regions.now;
              params = 0;
            }) }
    {
        let table = function_table(alloc, program.functions.as_slice())?;
        let begins = begin_table(alloc, regions)?;
        let ends = end_table(alloc, regions)?;
        Ok(Setting {
            program,
            table,
            regions,
            begins,
            ends,
            params: 0,
        })
    }

    /// Goes to a function with so many parameters.
    pub fn enter(&mut self, params: u32)
        ensures { self.new ≡ record self.old { params = params } }
    {
        self.params = params;
    }

    /// How many parameters the function has.
    pub fn params(&self) -> u32
        ensures { result ≡ self.now.params }
    {
        self.params
    }

    /// The number of the sensor of a name, or how many there are where none has it.
    #[tactic(auto, using(crate::proofs::NamePlaces::number_within))]
    pub fn sensor(&self, name: &Name) -> u32
        ensures { result ≡ number_in self.now.names.sensors name.now }
    {
        place_in(self.program.names.sensors.as_slice(), name) as u32
    }

    /// The number of the port of a name, or how many there are where none has it.
    #[tactic(auto, using(crate::proofs::NamePlaces::number_within))]
    pub fn port(&self, name: &Name) -> u32
        ensures { result ≡ number_in self.now.names.ports name.now }
    {
        place_in(self.program.names.ports.as_slice(), name) as u32
    }

    /// The place of the function of a name, or how many there are where none has it.
    pub fn function(&self, name: &Name) -> u32
        ensures { result ≡ function_number self.now.functions name.now }
    {
        match self.table.place(name) {
            Some(place) => place as u32,
            None => self.program.functions.len() as u32,
        }
    }

    /// Whether a call leaves a word.
    pub fn has_result(&self, call: &Call) -> bool
        ensures { result ≡ has_result self.now.functions (call_view call.now) }
    {
        result_at(
            self.program.functions.as_slice(),
            self.table.place(&call.function),
        )
    }

    /// The region that begins with a statement.
    pub fn begun_by(&self, n: u32) -> Option<u32>
        ensures { result ≡ begun_by self.now.regions n }
    {
        // For the proof alone: the invariant speaks of this field.
        let _regions = self.regions;
        region_at(self.begins.as_slice(), n)
    }

    /// The region that ends with a statement.
    pub fn ended_by(&self, n: u32) -> Option<u32>
        ensures { result ≡ ended_by self.now.regions n }
    {
        // For the proof alone: the invariant speaks of this field.
        let _regions = self.regions;
        region_at(self.ends.as_slice(), n)
    }
}
