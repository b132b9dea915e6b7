//! What a file declares by names.
ghost use Rattle.std.specs.Prelude.{◌≡◌, ◌++◌, [], ◌∷◌, map, IfOk};
ghost use Rattle.oc_tree.specs.Names.{names_view};
ghost use Rattle.oc_tree.specs.Sizes.{function_limit, name_limit};
ghost use Rattle.oc_verify.specs.Reading.{
  bare_at,
  function_at,
  name_at,
  named_at,
  names_at,
  nv_at,
};
ghost use Rattle.oc_verify.specs.Reads as reads;
ghost use Rattle.oc_verify.specs.declared.fault.ReadFault.TheVariants as faults;

use crate::fault::ReadFault;
use crate::names::Seen;
use crate::reader::Reader;
use oc_io::Memory;
use oc_isa::image::{ImageFunction, ImageNv};
use oc_tree::name::{Name, Names};
use std::alloc::{AllocError, Global};

impl From<Memory> for ReadFault {
    ghost from_gives = { λ _ f. f ≡ faults.Memory };

    fn from(_: Memory) -> ReadFault {
        ReadFault::Memory
    }
}

impl From<AllocError> for ReadFault {
    ghost from_gives = { λ _ f. f ≡ faults.Memory };

    fn from(_: AllocError) -> ReadFault {
        ReadFault::Memory
    }
}

/// The next name, which is then among those that were seen.
fn fresh<'a>(alloc: Global, reader: &mut Reader<'a>, seen: &mut Seen<'a>) -> Result<Name, ReadFault>
    ensures read { reads.Reads (λ n. n) result reader.new (name_at seen.old reader.old) }
    ensures seen { IfOk result (λ n. seen.new ≡ seen.old ++ n ∷ []) }
{
    let bytes = reader.name(seen)?;
    seen.add(bytes)?;
    let copy = Vec::from_slice(alloc, bytes)?;
    Ok(Name::new(copy))
}

/// The words of a nonvolatile variable, and what they are at first.
fn nv(reader: &mut Reader, name: Name) -> Result<(Name, ImageNv), ReadFault>
    ensures read { reads.Reads (λ v. v) result reader.new (nv_at name reader.old) }
    ensures name { IfOk result (λ v. v.0 ≡ name) }
{
    let words = reader.any()?;
    let initial = reader.word()?;
    Ok((name, ImageNv { words, initial }))
}

/// The entry, the parameters and the frame of a function.
fn function(reader: &mut Reader, name: Name) -> Result<ImageFunction, ReadFault>
    ensures { reads.Reads (λ f. f) result reader.new (function_at name reader.old) }
{
    let entry = reader.any()?;
    let params = reader.any()?;
    let frame = reader.any()?;
    Ok(ImageFunction {
        name,
        entry,
        params,
        frame,
    })
}

/// So many names.
fn many_names<'a>(
    alloc: Global,
    count: u32,
    reader: &mut Reader<'a>,
    seen: &mut Seen<'a>,
) -> Result<Vec<Name>, ReadFault>
    ensures read { reads.Reads (λ v. v.items) result reader.new
        (named_at bare_at seen.old count reader.old) }
    ensures seen { IfOk result (λ v. seen.new ≡ seen.old ++ v.items) }
{
    let mut names = Vec::new(alloc);
    for _done in 0..count {
        let name = fresh(alloc, reader, seen)?;
        if names.push(name).is_err() {
            return Err(ReadFault::Memory);
        }
    }
    Ok(names)
}

/// So many nonvolatile variables.
fn many_nvs<'a>(
    alloc: Global,
    count: u32,
    reader: &mut Reader<'a>,
    seen: &mut Seen<'a>,
) -> Result<Vec<(Name, ImageNv)>, ReadFault>
    ensures read { reads.Reads (λ v. v.items) result reader.new
        (named_at nv_at seen.old count reader.old) }
    ensures seen { IfOk result (λ v. seen.new ≡ seen.old ++ map (λ x. x.0) v.items) }
{
    let mut nvs = Vec::new(alloc);
    for _done in 0..count {
        let name = fresh(alloc, reader, seen)?;
        let nv = nv(reader, name)?;
        if nvs.push(nv).is_err() {
            return Err(ReadFault::Memory);
        }
    }
    Ok(nvs)
}

/// So many functions.
fn many_functions<'a>(
    alloc: Global,
    count: u32,
    reader: &mut Reader<'a>,
    seen: &mut Seen<'a>,
) -> Result<Vec<ImageFunction>, ReadFault>
    ensures { reads.Reads (λ v. v.items) result reader.new
        (named_at function_at seen.old count reader.old) }
{
    let mut functions = Vec::new(alloc);
    for _done in 0..count {
        let name = fresh(alloc, reader, seen)?;
        let function = function(reader, name)?;
        if functions.push(function).is_err() {
            return Err(ReadFault::Memory);
        }
    }
    Ok(functions)
}

/// Names of sensors or ports.
fn names<'a>(
    alloc: Global,
    reader: &mut Reader<'a>,
    seen: &mut Seen<'a>,
) -> Result<Vec<Name>, ReadFault>
    ensures read { reads.Reads (λ v. v.items) result reader.new
        (names_at name_limit bare_at seen.old reader.old) }
    ensures seen { IfOk result (λ v. seen.new ≡ seen.old ++ v.items) }
{
    let count = reader.number(0, 64)?;
    many_names(alloc, count, reader, seen)
}

/// The nonvolatile variables.
fn nvs<'a>(
    alloc: Global,
    reader: &mut Reader<'a>,
    seen: &mut Seen<'a>,
) -> Result<Vec<(Name, ImageNv)>, ReadFault>
    ensures read { reads.Reads (λ v. v.items) result reader.new
        (names_at name_limit nv_at seen.old reader.old) }
    ensures seen { IfOk result (λ v. seen.new ≡ seen.old ++ map (λ x. x.0) v.items) }
{
    let count = reader.number(0, 64)?;
    many_nvs(alloc, count, reader, seen)
}

/// The functions.
fn functions<'a>(
    alloc: Global,
    reader: &mut Reader<'a>,
    seen: &mut Seen<'a>,
) -> Result<Vec<ImageFunction>, ReadFault>
    ensures { reads.Reads (λ v. v.items) result reader.new
        (names_at function_limit function_at seen.old reader.old) }
{
    let count = reader.number(0, 128)?;
    many_functions(alloc, count, reader, seen)
}

/// Names and what belongs to each, apart.
fn split(alloc: Global, nvs: Vec<(Name, ImageNv)>) -> Result<(Vec<Name>, Vec<ImageNv>), AllocError>
    ensures names { IfOk result (λ r. r.0.items ≡ map (λ x. x.0) nvs.items) }
    ensures nvs { IfOk result (λ r. r.1.items ≡ map (λ x. x.1) nvs.items) }
{
    let mut names = Vec::new(alloc);
    let mut words = Vec::new(alloc);
    for (name, nv) in nvs {
        names.push(name)?;
        words.push(nv)?;
    }
    Ok((names, words))
}

/// Names, with what belongs to each nonvolatile one, and the functions.
#[derive(Drop)]
pub struct Declared {
    pub names: Names,
    pub nv: Vec<ImageNv>,
    pub functions: Vec<ImageFunction>,
}

/// The names of sensors, ports and nonvolatile variables, and what belongs to each of these.
fn all_names<'a>(
    alloc: Global,
    reader: &mut Reader<'a>,
    seen: &mut Seen<'a>,
) -> Result<(Names, Vec<ImageNv>), ReadFault>
    ensures read { reads.Reads (λ n. (names_view n.0, n.1.items)) result reader.new
        (reads.all_names_at seen.old reader.old) }
    ensures seen { IfOk result (λ n. seen.new ≡ reads.names_on seen.old (names_view n.0)) }
{
    let sensors = names(alloc, reader, seen)?;
    let ports = names(alloc, reader, seen)?;
    let nvs = nvs(alloc, reader, seen)?;
    let (nvs, nv) = split(alloc, nvs)?;
    Ok((
        Names {
            sensors,
            ports,
            nvs,
        },
        nv,
    ))
}

/// All that a file declares by names.
pub fn declarations(alloc: Global, reader: &mut Reader) -> Result<Declared, ReadFault>
    ensures { reads.Reads reads.declarations_view result reader.new
        (reads.declarations_at reader.old) }
{
    let mut seen = Seen::new(alloc);
    let (names, nv) = all_names(alloc, reader, &mut seen)?;
    let functions = functions(alloc, reader, &mut seen)?;
    Ok(Declared {
        names,
        nv,
        functions,
    })
}
