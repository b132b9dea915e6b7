//! The store of a run under way.
ghost use Rattle.std.specs.Prelude.{◌≡◌, ◌<◌, false, [], length, option_map, slice_get, slice_index_or, slice_set, suc, if◌then◌else◌, IfOk, OnOk};
ghost use Rattle.oc_meaning.specs.Store.{happened, held_at, left_at, made, nothing, noted, put, replaced, value_in};
ghost use Rattle.oc_meaning.specs.Eval.{element_of};
ghost use Rattle.oc_meaning.specs.Exec.{closed, opened, trapped};
ghost use Rattle.oc_meaning.specs.Run.{first_values, words_of};
ghost use Rattle.oc_meaning.specs.Places.{place_view, absent, held_or};
ghost use Rattle.oc_steps.specs.Ages.{join_ages, of_ages, one_more};
ghost use Rattle.oc_steps.specs.Sets.{element_by, element_written_by, with_element_by};
ghost use Rattle.oc_steps.specs.Steps.{tagged_by};
ghost use Rattle.oc_judge.specs.Values.{age_view, got_view, value_view};
ghost use Rattle.oc_judge.specs.Passes.{more_times};
ghost use Rattle.oc_judge.specs.Stores.{completion_at, event_view, told};

use crate::age::{Age, Got, Value};
use crate::executed::Executed;
use crate::held::{Held, element_of};
use oc_meaning::place::Place;
use oc_tree::said::{Ending, Said, Shown, TrapKind};
use oc_tree::tree::{BlockId, NvDecl, StmtId};
use std::alloc::{AllocError, Global};
use std::marker::Model;

/// Something that was said, with the age of the samples on which it depends. `instance` numbers the
/// execution of a consistent set's block, and is 0 for all but a tag.
#[derive(Clone, Copy)]
pub struct Event {
    pub said: Said,
    pub age: Age,
    pub instance: u64,
}

/// What came of a step: it went through, it returned a value, or the run trapped in it.
#[derive(Clone, Copy)]
pub enum Completion {
    /// It went through.
    Went,
    /// It returned this value.
    Returned { value: Value },
    /// It trapped.
    Trapped,
}

/// The variables, the outages so far, the open regions, how often each block was executed, and what
/// was said last. Where something was said that wasn't taken yet, no more can be said.
/// Contracts see the local variables newest first.
#[derive(Drop)]
pub struct Store {
    locals: Vec<Held>,
    nv: Vec<Held>,
    outages: u64,
    depth: usize,
    blocks: Executed,
    told: Option<Event>,
}

impl Model for Store {
    ghost use Rattle.oc_meaning.specs.Store as meant;
    ghost use Rattle.oc_judge.specs.Stores.{store_view};

    ghost Value = { meant.Store };

    ghost view = { store_view };
}

impl Store {
    /// The store at the start of a run.
    pub fn new(alloc: Global, decls: &[NvDecl]) -> Result<Store, AllocError>
        ensures { IfOk result (λ s. s
            ≡ record {
              locals = [];
              nv = first_values decls.now;
              left = [];
              taken = 0;
              depth = 0;
              blocks = [];
              events = [];
            }) }
    {
        Ok(Store {
            locals: Vec::new(alloc),
            nv: first_values(alloc, decls)?,
            outages: 0,
            depth: 0,
            blocks: Executed::none(alloc),
            told: None,
        })
    }

    /// The same store.
    pub fn copy(&self, alloc: Global) -> Result<Store, AllocError>
        ensures { IfOk result (λ s. s ≡ self.now) }
    {
        Ok(Store {
            locals: copies(alloc, &self.locals)?,
            nv: copies(alloc, &self.nv)?,
            outages: self.outages,
            depth: self.depth,
            blocks: self.blocks.copy(alloc)?,
            told: self.told,
        })
    }

    /// How many local variables live.
    pub fn locals(&self) -> usize
        ensures { result ≡ length self.now.locals }
    {
        self.locals.len()
    }

    /// How many outages there were.
    pub fn outages(&self) -> u64
        ensures { result ≡ self.now.taken }
    {
        self.outages
    }

    /// One more outage.
    pub fn lose_power(&mut self) -> Result<(), AllocError>
        ensures { OnOk result (self.new ≡ record self.old { taken = suc self.old.taken }) }
    {
        self.outages = self.outages.checked_add(1).ok_or(AllocError)?;
        Ok(())
    }

    /// Takes what was said.
    pub fn take_event(&mut self) -> Option<Event>
        ensures event { told result ≡ self.old.events }
        ensures store { self.new ≡ record self.old { events = [] } }
    {
        let event = self.told;
        self.told = None;
        event
    }

    /// The words of the nonvolatile variables.
    pub fn words(&self, alloc: Global) -> Result<Vec<i32>, AllocError>
        ensures { IfOk result (λ w. w.items ≡ words_of self.now.nv) }
    {
        words_of(alloc, &self.nv)
    }

    /// The variable at a place, where there is one.
    fn find_variable(&self, place: Place) -> Option<&Held>
        ensures { held_or (place_view place) (option_map (λ h. h.now) result)
            ≡ held_at self.now (place_view place) }
    {
        match place {
            Place::Local { level } => local(&self.locals, level),
            Place::Global { index } => self.nv.get(index),
            Place::Turn { .. } => None,
            Place::Nowhere => None,
        }
    }

    /// The value of the scalar at a place.
    pub fn value(&self, place: Place) -> Value
        ensures { value_view result ≡ value_in (held_at self.now (place_view place)) }
    {
        match self.find_variable(place) {
            Some(held) => held.value(),
            None => absent_value(place),
        }
    }

    /// The age of the variable at a place.
    pub fn age(&self, place: Place) -> Age
        ensures { age_view result ≡ (held_at self.now (place_view place)).samples }
    {
        match self.find_variable(place) {
            Some(held) => held.age(),
            None => Age::Never,
        }
    }

    /// The element of the array at a place that an index names.
    pub fn element(&self, place: Place, index: Value) -> Got
        ensures { got_view result
            ≡ element_by join_ages (held_at self.now (place_view place))
            (element_of (length (held_at self.now (place_view place)).words) index.number)
            (age_view index.age) }
    {
        match self.find_variable(place) {
            Some(held) => held.element(index),
            None => absent_element(place, index),
        }
    }

    /// Writes the scalar at a place.
    pub fn assign(&mut self, place: Place, value: Value)
        ensures { self.new ≡ put self.old (place_view place)
            (replaced (held_at self.old (place_view place)) (value_view value)) }
    {
        match place {
            Place::Local { level } => replace(&mut self.locals, level, value),
            Place::Global { index } => replace(&mut self.nv, index, value),
            Place::Turn { .. } => {}
            Place::Nowhere => {}
        }
    }

    /// How many words the variable at a place has.
    fn count(&self, place: Place) -> usize
        ensures { result ≡ length (held_at self.now (place_view place)).words }
    {
        match self.find_variable(place) {
            Some(held) => held.words().len(),
            None => usize::from(matches!(place, Place::Turn { .. })),
        }
    }

    /// Writes an element of the array at a place.
    fn write(&mut self, place: Place, at: usize, word: i32, age: Age)
        ensures { self.new ≡ put self.old (place_view place)
            (with_element_by join_ages (held_at self.old (place_view place)) at word
            (age_view age)) }
    {
        match place {
            Place::Local { level } => write(&mut self.locals, level, at, word, age),
            Place::Global { index } => write(&mut self.nv, index, at, word, age),
            Place::Turn { .. } => {}
            Place::Nowhere => {}
        }
    }

    /// Writes the element of the array at a place that an index names; statement `stmt` traps where
    /// there is none.
    pub fn assign_element(
        &mut self,
        place: Place,
        index: Value,
        value: Value,
        stmt: StmtId,
    ) -> Result<Completion, AllocError>
        ensures { IfOk result
            (λ o. completion_at o self.new
            ≡ element_written_by join_ages (place_view place)
            (element_of (length (held_at self.old (place_view place)).words) index.number)
            (value_view index) (value_view value) stmt self.old) }
    {
        match element_of(self.count(place), index.number) {
            Some(at) => {
                self.write(place, at, value.number, index.age.join(value.age));
                Ok(Completion::Went)
            }
            None => self.trap(TrapKind::Index, stmt),
        }
    }

    /// Makes a local variable.
    pub fn make(&mut self, held: Held) -> Result<(), AllocError>
        ensures { OnOk result (self.new ≡ made held self.old) }
    {
        self.locals.push(held)?;
        Ok(())
    }

    /// Drops the local variables that were made since there were so many.
    pub fn leave(&mut self, locals: usize)
        ensures { self.new ≡ left_at locals self.old }
    {
        self.locals.truncate(locals);
    }

    /// Something was said.
    fn tell(&mut self, event: Event) -> Result<(), AllocError>
        ensures { OnOk result (self.new ≡ happened (event_view event) self.old) }
    {
        match self.told {
            Some(_) => Err(AllocError),
            None => {
                self.told = Some(event);
                Ok(())
            }
        }
    }

    /// Something was said that depends on samples of this age.
    pub fn note(&mut self, said: Said, age: Age) -> Result<(), AllocError>
        ensures { OnOk result (self.new ≡ noted said (age_view age) self.old) }
    {
        self.tell(Event {
            said,
            age,
            instance: 0,
        })?;
        Ok(())
    }

    /// A statement traps.
    pub fn trap(&mut self, kind: TrapKind, stmt: StmtId) -> Result<Completion, AllocError>
        ensures { IfOk result (λ o. completion_at o self.new ≡ trapped kind stmt self.old) }
    {
        let how = Ending::Trapped { kind, stmt };
        self.note(Said::Ended { how }, Age::Never)?;
        Ok(Completion::Trapped)
    }

    /// An annotation of the set of the block `home`.
    pub fn tag(&mut self, home: BlockId, stmt: StmtId, age: Age) -> Result<(), AllocError>
        ensures { OnOk result (self.new ≡ tagged_by of_ages home stmt (age_view age) self.old) }
    {
        let instance = self.blocks.count(home);
        let what = Shown::Tagged { stmt };
        self.tell(Event {
            said: Said::Showed { what },
            age,
            instance,
        })?;
        Ok(())
    }

    /// A block is executed.
    pub fn enter(&mut self, block: BlockId) -> Result<(), AllocError>
        ensures { OnOk result
            (self.new ≡ record self.old { blocks = one_more block self.old.blocks }) }
    {
        self.blocks.add(block)?;
        Ok(())
    }

    /// A block is executed so many times, at least once.
    pub fn enter_times(&mut self, block: BlockId, times: u64) -> Result<(), AllocError>
        requires { 0 < times }
        ensures { OnOk result
            (self.new ≡ record self.old { blocks = more_times times block self.old.blocks }) }
    {
        self.blocks.add_times(block, times)?;
        Ok(())
    }

    /// Whether something was said that wasn't taken yet.
    pub fn has_event(&self) -> bool
        ensures { result ≡ false → self.now.events ≡ [] }
    {
        self.told.is_some()
    }

    /// A mark is told, where no region is open around it.
    fn tell_if(&mut self, outermost: bool, said: Said) -> Result<(), AllocError>
        ensures { OnOk result
            (self.new ≡ (if outermost then noted said [] self.old else self.old)) }
    {
        if outermost {
            self.note(said, Age::Never)?;
        }
        Ok(())
    }

    /// A region begins, if one does.
    pub fn open_region(&mut self, region: Option<u32>) -> Result<(), AllocError>
        ensures { OnOk result (self.new ≡ opened region self.old) }
    {
        let Some(region) = region else {
            return Ok(());
        };
        let depth = self.depth.checked_add(1).ok_or(AllocError)?;
        self.tell_if(self.depth == 0, Said::Entered { region })?;
        self.depth = depth;
        Ok(())
    }

    /// A region ends, if one does.
    pub fn close_region(&mut self, region: Option<u32>) -> Result<(), AllocError>
        ensures { OnOk result (self.new ≡ closed region self.old) }
    {
        let Some(region) = region else {
            return Ok(());
        };
        self.tell_if(self.depth == 1, Said::Committed { region })?;
        self.depth = self.depth.saturating_sub(1);
        Ok(())
    }
}

/// A local variable, where there is one.
fn local(locals: &[Held], level: usize) -> Option<&Held>
    ensures { option_map (λ h. h.now) result ≡ slice_get locals.now level }
{
    locals.get(level)
}

/// The same variables.
fn copies(alloc: Global, variables: &[Held]) -> Result<Vec<Held>, AllocError>
    ensures { IfOk result (λ v. v.items ≡ variables.now) }
{
    let mut copies = Vec::new(alloc);
    for variable in variables {
        copies.push(variable.copy(alloc)?)?;
    }
    Ok(copies)
}

/// What the nonvolatile variables hold at the start.
fn first_values(alloc: Global, decls: &[NvDecl]) -> Result<Vec<Held>, AllocError>
    ensures { IfOk result (λ v. v.items ≡ first_values decls.now) }
{
    let mut values = Vec::new(alloc);
    for decl in decls {
        values.push(Held::array(alloc, decl.initial, decl.words)?)?;
    }
    Ok(values)
}

/// The words of all these variables, one after the other.
fn words_of(alloc: Global, variables: &[Held]) -> Result<Vec<i32>, AllocError>
    ensures { IfOk result (λ w. w.items ≡ words_of variables.now) }
{
    let mut words = Vec::new(alloc);
    for variable in variables {
        words.extend_from_slice(variable.words())?;
    }
    Ok(words)
}

/// The value of a place where no variable is.
fn absent_value(place: Place) -> Value
    ensures { value_view result ≡ value_in (absent (place_view place)) }
{
    match place {
        Place::Turn { value } => Value::plain(value),
        Place::Local { .. } => Value::plain(0),
        Place::Global { .. } => Value::plain(0),
        Place::Nowhere => Value::plain(0),
    }
}

/// An element of what stands for a place where no variable is.
fn absent_element(place: Place, index: Value) -> Got
    ensures { got_view result
        ≡ element_by join_ages (absent (place_view place))
        (element_of (length (absent (place_view place)).words) index.number)
        (age_view index.age) }
{
    match place {
        Place::Turn { value } if index.number == 0 => Got::Value {
            value: Value {
                number: value,
                age: index.age,
            },
        },
        _ => Got::Traps {
            kind: TrapKind::Index,
        },
    }
}

/// Writes a scalar, where there is one.
fn replace(variables: &mut Vec<Held>, variable: usize, value: Value)
    ensures { variables.new.items
        ≡ slice_set variables.old.items variable
        (replaced (slice_index_or variables.old.items variable nothing) (value_view value)) }
{
    if variable < variables.len() {
        let held = &mut variables[variable];
        held.replace(value);
    }
}

/// Writes an element of an array, where there is one.
fn write(variables: &mut Vec<Held>, variable: usize, at: usize, word: i32, age: Age)
    ensures { variables.new.items
        ≡ slice_set variables.old.items variable
        (with_element_by join_ages (slice_index_or variables.old.items variable nothing) at word
        (age_view age)) }
{
    if variable < variables.len() {
        let held = &mut variables[variable];
        held.write(at, word, age);
    }
}
