//! The store of a run.
ghost use Rattle.std.specs.Prelude.{◌≡◌, [], ◌∷◌, ◌++◌, length, map, option_map, slice_get, slice_index_or, slice_set, if◌then◌else◌, IfOk, OnErr, OnOk};
ghost use Rattle.oc_meaning.specs.Store.{held_at, left_at, made, noted, nothing, put, replaced, value_in, with_element};
ghost use Rattle.oc_meaning.specs.Eval.{element_of, read_element};
ghost use Rattle.oc_meaning.specs.Exec.{closed, element_written, entered, opened, sense, tagged, trapped};
ghost use Rattle.oc_meaning.specs.Run.{first_values, in_order};
ghost use Rattle.oc_meaning.specs.Cuts.{Oldest, events_in};
ghost use Rattle.oc_meaning.specs.Places.{place_view, absent, held_or};
ghost use Rattle.oc_interpreter.specs.Seen.{got_view, completion_at};
ghost use Rattle.oc_interpreter.specs.Stores.{event_view, told};

use crate::completion::{Completion, Stop};
use crate::executed::Executed;
use crate::held::{Held, element_of};
use crate::interrupted::Interrupted;
use crate::samples::Samples;
use crate::value::{Got, Value};
use oc_meaning::place::Place;
use oc_tree::said::{Ending, Said, Shown, TrapKind};
use oc_tree::tree::{BlockId, NvDecl, StmtId};
use std::alloc::{AllocError, Global};
use std::marker::Model;

/// Something that happened, with the samples on which it depends. `instance` numbers the execution of
/// a consistent set's block, and is 0 for all but a tag.
#[derive(Drop)]
pub struct Event {
    pub said: Said,
    pub samples: Samples,
    pub instance: u32,
}

/// The variables, the samples that are left, the open regions, the executed blocks and the events.
/// What tells one event more than `limit` answers `Cut`: the event is told, and all else is as before.
/// No further one is told then. Where memory fails, the store is as before.
/// Contracts see the local variables, the blocks and the events newest first.
#[derive(Drop)]
pub struct Store<'a> {
    alloc: Global,
    locals: Vec<Held>,
    nv: Vec<Held>,
    samples: &'a [i32],
    taken: usize,
    depth: usize,
    blocks: Executed,
    events: Vec<Event>,
    limit: u64,
}

impl<'a> Model for Store<'a> {
    ghost use Rattle.oc_meaning.specs.Store as meant;
    ghost use Rattle.oc_interpreter.specs.Stores.{store_view};

    ghost Value = { meant.Store };

    ghost view = { store_view };
}

impl<'a> Store<'a> {
    /// The store at the start of a run.
    pub fn new(
        alloc: Global,
        decls: &[NvDecl],
        samples: &'a [i32],
        limit: u64,
    ) -> Result<Store<'a>, AllocError>
        ensures { IfOk result (λ s. s
            ≡ record {
              locals = [];
              nv = first_values decls.now;
              left = samples.now;
              taken = 0;
              depth = 0;
              blocks = [];
              events = [];
            }) }
    {
        Ok(Store {
            alloc,
            locals: Vec::new(alloc),
            nv: first_values(alloc, decls)?,
            samples,
            taken: 0,
            depth: 0,
            blocks: Executed::none(alloc),
            events: Vec::new(alloc),
            limit,
        })
    }

    /// How many local variables live.
    pub fn locals(&self) -> usize
        ensures { result ≡ length self.now.locals }
    {
        self.locals.len()
    }

    /// How many events were told.
    pub fn count_told(&self) -> usize
        ensures { result ≡ length self.now.events }
    {
        self.events.len()
    }

    /// The variable at a place, where there is one.
    fn find_variable(&self, place: Place) -> Option<&Held>
        ensures { held_or (place_view place) (option_map (λ h. h.now) result)
            ≡ held_at self.now (place_view place) }
    {
        match place {
            Place::Local { level } => local(&self.locals, level),
            Place::Global { index } => self.nv.get(index),
            Place::Turn { .. } => None,
            Place::Nowhere => None,
        }
    }

    /// The value of the scalar at a place.
    pub fn value(&self, place: Place) -> Result<Value, AllocError>
        ensures { IfOk result (λ v. v ≡ value_in (held_at self.now (place_view place))) }
    {
        match self.find_variable(place) {
            Some(held) => held.value(),
            None => Ok(absent_value(self.alloc, place)),
        }
    }

    /// The samples on which the variable at a place depends.
    pub fn samples(&self, place: Place) -> Result<Samples, AllocError>
        ensures { IfOk result (λ s. s ≡ (held_at self.now (place_view place)).samples) }
    {
        match self.find_variable(place) {
            Some(held) => held.samples().copy(),
            None => Ok(Samples::none(self.alloc)),
        }
    }

    /// The element of the array at a place that an index names.
    pub fn element(&self, place: Place, index: Value) -> Result<Got, AllocError>
        ensures { IfOk result
            (λ g. got_view g
            ≡ read_element (held_at self.now (place_view place))
            (element_of (length (held_at self.now (place_view place)).words) index.num)
            index.samples) }
    {
        match self.find_variable(place) {
            Some(held) => held.element(index),
            None => absent_variable(self.alloc, place)?.element(index),
        }
    }

    /// Writes the scalar at a place.
    pub fn assign(&mut self, place: Place, value: Value) -> Result<(), AllocError>
        ensures step { OnOk result
            (self.new ≡ put self.old (place_view place)
            (replaced (held_at self.old (place_view place)) value)) }
        ensures kept { OnErr result (self.new ≡ self.old) }
    {
        match place {
            Place::Local { level } => replace(&mut self.locals, level, value),
            Place::Global { index } => replace(&mut self.nv, index, value),
            Place::Turn { .. } => {}
            Place::Nowhere => {}
        }
        Ok(())
    }

    /// How many words the variable at a place has.
    fn count(&self, place: Place) -> usize
        ensures { result ≡ length (held_at self.now (place_view place)).words }
    {
        match self.find_variable(place) {
            Some(held) => held.words().len(),
            None => usize::from(matches!(place, Place::Turn { .. })),
        }
    }

    /// Writes an element of the array at a place.
    fn write(
        &mut self,
        place: Place,
        at: usize,
        word: i32,
        samples: Samples,
    ) -> Result<(), AllocError>
        ensures step { OnOk result
            (self.new ≡ put self.old (place_view place)
            (with_element (held_at self.old (place_view place)) at word samples)) }
        ensures kept { OnErr result (self.new ≡ self.old) }
    {
        match place {
            Place::Local { level } => write(&mut self.locals, level, at, word, samples)?,
            Place::Global { index } => write(&mut self.nv, index, at, word, samples)?,
            Place::Turn { .. } => {}
            Place::Nowhere => {}
        }
        Ok(())
    }

    /// Writes the element of the array at a place that an index names; statement `stmt` traps where
    /// there is none.
    pub fn assign_element(
        &mut self,
        place: Place,
        index: Value,
        value: Value,
        stmt: StmtId,
    ) -> Result<Completion, Interrupted>
        ensures step { IfOk result
            (λ o. completion_at o self.new
            ≡ element_written (place_view place)
            (element_of (length (held_at self.old (place_view place)).words) index.num) index value
            stmt self.old) }
        ensures cut { OnErr result
            (Oldest self.new.events
            (events_in (element_written (place_view place)
            (element_of (length (held_at self.old (place_view place)).words) index.num) index value
            stmt self.old))) }
    {
        match element_of(self.count(place), index.number()) {
            Some(at) => {
                let word = value.number();
                let samples = index.samples().union(value.into_samples())?;
                self.write(place, at, word, samples)?;
                Ok(Completion::Went)
            }
            None => self.trap(TrapKind::Index, stmt),
        }
    }

    /// Makes a local variable.
    pub fn make(&mut self, held: Held) -> Result<(), AllocError>
        ensures step { OnOk result (self.new ≡ made held self.old) }
        ensures kept { OnErr result (self.new ≡ self.old) }
    {
        self.locals.push(held)?;
        Ok(())
    }

    /// Drops the local variables that were made since there were so many.
    pub fn leave(&mut self, locals: usize)
        ensures { self.new ≡ left_at locals self.old }
    {
        self.locals.truncate(locals);
    }

    /// Something was said that depends on these samples.
    pub fn note(&mut self, said: Said, samples: Samples) -> Result<(), Interrupted>
        ensures step { OnOk result (self.new ≡ noted said samples self.old) }
        ensures cut { OnErr result (Oldest self.new.events (noted said samples self.old).events) }
    {
        let event = Event {
            said,
            samples,
            instance: 0,
        };
        tell(&mut self.events, self.limit, event)?;
        Ok(())
    }

    /// A statement traps.
    pub fn trap(&mut self, kind: TrapKind, stmt: StmtId) -> Result<Completion, Interrupted>
        ensures step { IfOk result (λ o. completion_at o self.new ≡ trapped kind stmt self.old) }
        ensures cut { OnErr result
            (Oldest self.new.events (events_in (trapped kind stmt self.old))) }
    {
        let how = Ending::Trapped { kind, stmt };
        let samples = Samples::none(self.alloc);
        self.note(Said::Ended { how }, samples)?;
        Ok(Completion::Stopped {
            stop: Stop::Trapped,
        })
    }

    /// An annotation of the set of the block `home`.
    pub fn tag(&mut self, home: BlockId, stmt: StmtId, samples: Samples) -> Result<(), Interrupted>
        ensures step { OnOk result (self.new ≡ tagged home stmt samples self.old) }
        ensures cut { OnErr result
            (Oldest self.new.events (tagged home stmt samples self.old).events) }
    {
        let event = Event {
            said: Said::Showed {
                what: Shown::Tagged { stmt },
            },
            samples,
            instance: self.blocks.count(home),
        };
        tell(&mut self.events, self.limit, event)?;
        Ok(())
    }

    /// A block is executed.
    pub fn enter(&mut self, block: BlockId) -> Result<(), AllocError>
        ensures step { OnOk result (self.new ≡ entered block self.old) }
        ensures kept { OnErr result (self.new ≡ self.old) }
    {
        self.blocks.add(block)?;
        Ok(())
    }

    /// A region begins, if one does.
    pub fn open_region(&mut self, region: Option<u32>) -> Result<(), Interrupted>
        ensures step { OnOk result (self.new ≡ opened region self.old) }
        ensures cut { OnErr result (Oldest self.new.events (opened region self.old).events) }
    {
        let Some(region) = region else {
            return Ok(());
        };
        let depth = self.depth.checked_add(1).ok_or(Interrupted::Memory)?;
        let mark = Event {
            said: Said::Entered { region },
            samples: Samples::none(self.alloc),
            instance: 0,
        };
        tell_if(&mut self.events, self.limit, self.depth == 0, mark)?;
        self.depth = depth;
        Ok(())
    }

    /// A region ends, if one does.
    pub fn close_region(&mut self, region: Option<u32>) -> Result<(), Interrupted>
        ensures step { OnOk result (self.new ≡ closed region self.old) }
        ensures cut { OnErr result (Oldest self.new.events (closed region self.old).events) }
    {
        let Some(region) = region else {
            return Ok(());
        };
        let mark = Event {
            said: Said::Committed { region },
            samples: Samples::none(self.alloc),
            instance: 0,
        };
        tell_if(&mut self.events, self.limit, self.depth == 1, mark)?;
        self.depth = self.depth.saturating_sub(1);
        Ok(())
    }

    /// Takes the next sample as an input of a sensor.
    pub fn sense(&mut self, sensor: u8) -> Result<Completion, Interrupted>
        ensures step { IfOk result
            (λ o. completion_at o self.new ≡ sense sensor self.old.left self.old) }
        ensures cut { OnErr result
            (Oldest self.new.events (events_in (sense sensor self.old.left self.old))) }
    {
        if self.taken >= self.samples.len() {
            return Ok(Completion::Stopped { stop: Stop::Short });
        }
        let value = self.samples[self.taken];
        let samples = one_sample(self.alloc, self.taken)?;
        let event = Event {
            said: Said::Sensed { sensor, value },
            samples: samples.copy()?,
            instance: 0,
        };
        tell(&mut self.events, self.limit, event)?;
        self.taken += 1;
        Ok(Completion::Returned {
            value: Value::new(value, samples),
        })
    }

    /// The events in the order in which they happened, and the nonvolatile variables.
    pub fn into_parts(self) -> (Vec<Event>, Vec<Held>)
        ensures events { map event_view result.0.items ≡ in_order self.entry.events }
        ensures nv { result.1.items ≡ self.entry.nv }
    {
        (self.events, self.nv)
    }
}

/// A local variable, where there is one.
fn local(locals: &[Held], level: usize) -> Option<&Held>
    ensures { option_map (λ h. h.now) result ≡ slice_get locals.now level }
{
    locals.get(level)
}

/// What the nonvolatile variables hold at the start.
fn first_values(alloc: Global, decls: &[NvDecl]) -> Result<Vec<Held>, AllocError>
    ensures { IfOk result (λ v. v.items ≡ first_values decls.now) }
{
    let mut values = Vec::new(alloc);
    for decl in decls {
        values.push(Held::array(alloc, decl.initial, decl.words)?)?;
    }
    Ok(values)
}

/// What stands for a place where no variable is.
fn absent_variable(alloc: Global, place: Place) -> Result<Held, AllocError>
    ensures { IfOk result (λ h. h ≡ absent (place_view place)) }
{
    match place {
        Place::Turn { value } => Held::holding(alloc, Value::plain(alloc, value)),
        Place::Local { .. } => Held::array(alloc, 0, 0),
        Place::Global { .. } => Held::array(alloc, 0, 0),
        Place::Nowhere => Held::array(alloc, 0, 0),
    }
}

/// The value of a place where no variable is.
fn absent_value(alloc: Global, place: Place) -> Value
    ensures { result ≡ value_in (absent (place_view place)) }
{
    match place {
        Place::Turn { value } => Value::plain(alloc, value),
        Place::Local { .. } => Value::plain(alloc, 0),
        Place::Global { .. } => Value::plain(alloc, 0),
        Place::Nowhere => Value::plain(alloc, 0),
    }
}

/// Writes a scalar, where there is one.
fn replace(variables: &mut Vec<Held>, variable: usize, value: Value)
    ensures { variables.new.items
        ≡ slice_set variables.old.items variable
        (replaced (slice_index_or variables.old.items variable nothing) value) }
{
    if variable < variables.len() {
        let held = &mut variables[variable];
        held.replace(value);
    }
}

/// Writes an element of an array, where there is one.
fn write(
    variables: &mut Vec<Held>,
    variable: usize,
    at: usize,
    word: i32,
    samples: Samples,
) -> Result<(), AllocError>
    ensures step { OnOk result
        (variables.new.items ≡ slice_set variables.old.items variable
        (with_element (slice_index_or variables.old.items variable nothing) at word samples)) }
    ensures kept { OnErr result (variables.new.items ≡ variables.old.items) }
{
    if variable < variables.len() {
        let held = &mut variables[variable];
        held.write(at, word, samples)?;
    }
    Ok(())
}

/// Tells an event, unless more than `limit` are told, and answers `Cut` where more than `limit` are
/// told then.
fn tell(events: &mut Vec<Event>, limit: u64, event: Event) -> Result<(), Interrupted>
    ensures step { OnOk result (events.new.items ≡ events.old.items ++ event ∷ []) }
    ensures cut { OnErr result
        (Oldest (told events.new.items) (event_view event ∷ told events.old.items)) }
{
    if events.len() as u64 > limit {
        return Err(Interrupted::Cut);
    }
    match events.push(event) {
        Ok(()) if events.len() as u64 > limit => Err(Interrupted::Cut),
        Ok(()) => Ok(()),
        Err(error) => Err(AllocError::from(error).into()),
    }
}

/// Tells a mark, where no region is open around it.
fn tell_if(
    events: &mut Vec<Event>,
    limit: u64,
    outermost: bool,
    mark: Event,
) -> Result<(), Interrupted>
    ensures step { OnOk result
        (events.new.items ≡ events.old.items ++ (if outermost then mark ∷ [] else [])) }
    ensures cut { OnErr result
        (Oldest (told events.new.items)
        (if outermost then event_view mark ∷ told events.old.items else told events.old.items)) }
{
    if outermost {
        tell(events, limit, mark)?;
    }
    Ok(())
}

/// The set of just this sample.
fn one_sample(alloc: Global, number: usize) -> Result<Samples, Interrupted>
    ensures { IfOk result (λ s. s ≡ number ∷ []) }
{
    let number = u32::try_from(number).map_err(|_| Interrupted::Memory)?;
    Ok(Samples::one(alloc, number)?)
}
