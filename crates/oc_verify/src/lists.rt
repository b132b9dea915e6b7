//! Lists of a file. Room for one is never taken by the length that the file tells.
ghost use Rattle.std.specs.Prelude.{map};
ghost use Rattle.oc_verify.specs.Reading.{list_at, many_at, placed_at, target_at};
ghost use Rattle.oc_verify.specs.Reads as reads;

use crate::fault::ReadFault;
use crate::reader::Reader;
use oc_isa::instr::Placed;
use oc_tree::said::Target;
use std::alloc::Global;

/// So many targets.
fn targets(alloc: Global, count: u32, reader: &mut Reader) -> Result<Vec<Target>, ReadFault>
    ensures { reads.Reads (λ v. v.items) result reader.new (many_at target_at count reader.old) }
{
    let mut targets = Vec::new(alloc);
    for _done in 0..count {
        let target = reader.read_target()?;
        if targets.push(target).is_err() {
            return Err(ReadFault::Memory);
        }
    }
    Ok(targets)
}

/// The targets of a region.
fn region(alloc: Global, reader: &mut Reader) -> Result<Vec<Target>, ReadFault>
    ensures { reads.Reads (λ v. v.items) result reader.new (list_at target_at reader.old) }
{
    let count = reader.any()?;
    targets(alloc, count, reader)
}

/// So many instructions.
fn instructions(alloc: Global, count: u32, reader: &mut Reader) -> Result<Vec<Placed>, ReadFault>
    ensures { reads.Reads (λ v. v.items) result reader.new (many_at placed_at count reader.old) }
{
    let mut code = Vec::new(alloc);
    for _done in 0..count {
        let placed = reader.read_placed()?;
        if code.push(placed).is_err() {
            return Err(ReadFault::Memory);
        }
    }
    Ok(code)
}

/// The code.
fn code(alloc: Global, reader: &mut Reader) -> Result<Vec<Placed>, ReadFault>
    ensures { reads.Reads (λ v. v.items) result reader.new (list_at placed_at reader.old) }
{
    let count = reader.any()?;
    instructions(alloc, count, reader)
}

/// So many regions.
fn many_regions(
    alloc: Global,
    count: u32,
    reader: &mut Reader,
) -> Result<Vec<Vec<Target>>, ReadFault>
    ensures { reads.Reads (λ v. map (λ r. r.items) v.items) result reader.new
        (many_at (list_at target_at) count reader.old) }
{
    let mut regions = Vec::new(alloc);
    for _done in 0..count {
        let region = region(alloc, reader)?;
        if regions.push(region).is_err() {
            return Err(ReadFault::Memory);
        }
    }
    Ok(regions)
}

/// The targets of all regions.
fn regions(alloc: Global, reader: &mut Reader) -> Result<Vec<Vec<Target>>, ReadFault>
    ensures { reads.Reads (λ v. map (λ r. r.items) v.items) result reader.new
        (list_at (list_at target_at) reader.old) }
{
    let count = reader.any()?;
    many_regions(alloc, count, reader)
}

/// What stands behind the declarations: what regions may overwrite, the words of the stack, and the
/// code.
#[derive(Drop)]
pub struct Body {
    pub targets: Vec<Vec<Target>>,
    pub stack: u32,
    pub code: Vec<Placed>,
}

/// What stands behind the declarations, to the end of the file.
pub fn read_body(alloc: Global, reader: &mut Reader) -> Result<Body, ReadFault>
    ensures { reads.ReadsAll reads.body_view result (reads.body_at reader.old) }
{
    let targets = regions(alloc, reader)?;
    let stack = reader.any()?;
    let code = code(alloc, reader)?;
    reader.end()?;
    Ok(Body {
        targets,
        stack,
        code,
    })
}
