//! The bytes of an image's file.
ghost use Rattle.std.specs.Prelude.{◌≡◌, ◌++◌, length, map};
ghost use Rattle.std.specs.List.{All};
ghost use Rattle.oc_io.specs.Faults.{Puts};
ghost use Rattle.oc_isa.specs.Image.{IsWellMade, parts_of};
ghost use Rattle.oc_isa.specs.Bytes as files;
ghost use Rattle.oc_isa.specs.Bytes.{
  IsFew,
  IsSmall,
  all_nvs_bytes,
  binary_number,
  function_bytes,
  instr_numbers,
  list_bytes,
  name_bytes,
  number_bytes,
  placed_bytes,
  probe_number,
  target_bytes,
  unary_number,
  word_bytes,
};

use crate::image::{Image, ImageFunction, ImageNv, RawImage};
use crate::instr::{BinOp, Instr, Placed, ProbeKind};
use oc_io::pieces::put_pieces;
use oc_io::sink::{Sink, SinkFault};
use oc_tree::name::Name;
use oc_tree::said::Target;
use oc_tree::tree::UnaryOp;

/// The number of an operator on two words.
fn binary_code(op: BinOp) -> u32
    ensures { result ≡ binary_number op }
{
    match op {
        BinOp::Add => 0,
        BinOp::Sub => 1,
        BinOp::Mul => 2,
        BinOp::Div => 3,
        BinOp::Rem => 4,
        BinOp::Eq => 5,
        BinOp::Ne => 6,
        BinOp::Lt => 7,
        BinOp::Le => 8,
        BinOp::Gt => 9,
        BinOp::Ge => 10,
    }
}

/// The number of an operator on one word.
fn unary_code(op: UnaryOp) -> u32
    ensures { result ≡ unary_number op }
{
    match op {
        UnaryOp::Neg => 0,
        UnaryOp::Not => 1,
    }
}

/// The number of what a probe reports.
fn probe_code(kind: ProbeKind) -> u32
    ensures { result ≡ probe_number kind }
{
    match kind {
        ProbeKind::Use => 0,
        ProbeKind::Done => 1,
        ProbeKind::Tag => 2,
    }
}

/// The number of an instruction's kind, and its operands.
fn numbers_of(instr: Instr) -> (u32, u32, u32)
    ensures { result ≡ instr_numbers instr }
{
    match instr {
        Instr::Push { c } => (1, c.cast_unsigned(), 0),
        Instr::Load { s } => (2, s, 0),
        Instr::Store { s } => (3, s, 0),
        Instr::Nload { a } => (4, a, 0),
        Instr::Nstore { a } => (5, a, 0),
        Instr::Addr { s } => (6, s, 0),
        Instr::Naddr { a } => (7, a, 0),
        Instr::Get => (8, 0, 0),
        Instr::Put => (9, 0, 0),
        Instr::Index { n } => (10, n, 0),
        Instr::Bin { op } => (11, binary_code(op), 0),
        Instr::Un { op } => (12, unary_code(op), 0),
        Instr::Jump { t } => (13, t, 0),
        Instr::Jfalse { t } => (14, t, 0),
        Instr::Call { f } => (15, f, 0),
        Instr::Ret { k } => (16, k, 0),
        Instr::Retv { k } => (17, k, 0),
        Instr::Drop => (18, 0, 0),
        Instr::Sense { s } => (19, s, 0),
        Instr::Emit { p } => (20, p, 0),
        Instr::Probe { kind, n } => (21, probe_code(kind), n),
        Instr::Enter { r } => (22, r, 0),
        Instr::Commit { r } => (23, r, 0),
        Instr::Halt => (24, 0, 0),
    }
}

/// The bytes of a number.
#[tactic(auto, unfolding(crate::specs::Bytes::number_bytes))]
fn bytes_of(number: u32) -> [u8; 4]
    ensures { result ≡ number_bytes number }
{
    number.to_le_bytes()
}

/// Writes a number.
fn put_number<O: Sink>(number: u32, sink: &mut O) -> Result<(), SinkFault>
    ensures { Puts O.took O.faults sink.old (number_bytes number) sink.new result }
{
    sink.put(&bytes_of(number))
}

/// Writes a name.
fn put_name<O: Sink>(name: &Name, sink: &mut O) -> Result<(), SinkFault>
    requires { IsFew name.now }
    ensures { Puts O.took O.faults sink.old (name_bytes name.now) sink.new result }
{
    let bytes = name.bytes();
    put_pieces(sink, &[&bytes_of(bytes.len() as u32), bytes])
}

/// Writes the name of a nonvolatile variable, its number of words and what they are at first.
fn put_nv<O: Sink>(name: &Name, nv: &ImageNv, sink: &mut O) -> Result<(), SinkFault>
    requires { IsFew name.now }
    ensures { Puts O.took O.faults sink.old
        (name_bytes name.now ++ (number_bytes nv.now.words ++ word_bytes nv.now.initial))
        sink.new result }
{
    let bytes = name.bytes();
    put_pieces(
        sink,
        &[
            &bytes_of(bytes.len() as u32),
            bytes,
            &bytes_of(nv.words),
            &bytes_of(nv.initial.cast_unsigned()),
        ],
    )
}

/// Writes a function.
fn put_function<O: Sink>(function: &ImageFunction, sink: &mut O) -> Result<(), SinkFault>
    requires { IsFew function.now.name }
    ensures { Puts O.took O.faults sink.old (function_bytes function.now) sink.new result }
{
    let bytes = function.name.bytes();
    put_pieces(
        sink,
        &[
            &bytes_of(bytes.len() as u32),
            bytes,
            &bytes_of(function.entry),
            &bytes_of(function.params),
            &bytes_of(function.frame),
        ],
    )
}

/// Writes a target of a region.
fn put_target<O: Sink>(target: &Target, sink: &mut O) -> Result<(), SinkFault>
    ensures { Puts O.took O.faults sink.old (target_bytes target.now) sink.new result }
{
    let (tag, place, len) = match *target {
        Target::Nv { base, len } => (0u32, base, len),
        Target::Param { slot, len } => (1u32, slot, len),
    };
    put_pieces(sink, &[&bytes_of(tag), &bytes_of(place), &bytes_of(len)])
}

/// Writes an instruction with its site.
fn put_placed<O: Sink>(placed: &Placed, sink: &mut O) -> Result<(), SinkFault>
    ensures { Puts O.took O.faults sink.old (placed_bytes placed.now) sink.new result }
{
    let (kind, first, second) = numbers_of(placed.instr);
    put_pieces(
        sink,
        &[
            &bytes_of(kind),
            &bytes_of(placed.site),
            &bytes_of(first),
            &bytes_of(second),
        ],
    )
}

/// Writes how many names there are, and then each.
fn put_names<O: Sink>(names: &[Name], sink: &mut O) -> Result<(), SinkFault>
    requires few { IsFew names.now }
    requires each { All IsFew names.now }
    ensures { Puts O.took O.faults sink.old (list_bytes name_bytes names.now) sink.new result }
{
    if let Err(fault) = put_number(names.len() as u32, sink) {
        return Err(fault);
    }
    for name in names {
        if let Err(fault) = put_name(name, sink) {
            return Err(fault);
        }
    }
    Ok(())
}

/// Writes how many nonvolatile variables there are, and then each, of which `nvs` tells the words.
fn put_nvs<O: Sink>(names: &[Name], nvs: &[ImageNv], sink: &mut O) -> Result<(), SinkFault>
    requires few { IsFew names.now }
    requires each { All IsFew names.now }
    requires told { length nvs.now ≡ length names.now }
    ensures { Puts O.took O.faults sink.old (all_nvs_bytes names.now nvs.now) sink.new result }
{
    if let Err(fault) = put_number(names.len() as u32, sink) {
        return Err(fault);
    }
    for (place, name) in names.iter().enumerate() {
        if let Err(fault) = put_nv(name, &nvs[place], sink) {
            return Err(fault);
        }
    }
    Ok(())
}

/// Writes how many functions there are, and then each.
fn put_functions<O: Sink>(functions: &[ImageFunction], sink: &mut O) -> Result<(), SinkFault>
    requires few { IsFew functions.now }
    requires each { All (λ f. IsFew f.name) functions.now }
    ensures { Puts O.took O.faults sink.old
        (list_bytes function_bytes functions.now) sink.new result }
{
    if let Err(fault) = put_number(functions.len() as u32, sink) {
        return Err(fault);
    }
    for function in functions {
        if let Err(fault) = put_function(function, sink) {
            return Err(fault);
        }
    }
    Ok(())
}

/// Writes how many targets a region has, and then each.
fn put_region<O: Sink>(targets: &[Target], sink: &mut O) -> Result<(), SinkFault>
    requires few { IsFew targets.now }
    ensures { Puts O.took O.faults sink.old (list_bytes target_bytes targets.now) sink.new result }
{
    if let Err(fault) = put_number(targets.len() as u32, sink) {
        return Err(fault);
    }
    for target in targets {
        if let Err(fault) = put_target(target, sink) {
            return Err(fault);
        }
    }
    Ok(())
}

/// Writes how many regions there are, and then the targets of each.
fn put_regions<O: Sink>(regions: &[Vec<Target>], sink: &mut O) -> Result<(), SinkFault>
    requires few { IsFew regions.now }
    requires each { All (λ v. IsFew v.items) regions.now }
    ensures { Puts O.took O.faults sink.old
        (list_bytes (list_bytes target_bytes) (map (λ v. v.items) regions.now)) sink.new result }
{
    if let Err(fault) = put_number(regions.len() as u32, sink) {
        return Err(fault);
    }
    for targets in regions {
        if let Err(fault) = put_region(targets, sink) {
            return Err(fault);
        }
    }
    Ok(())
}

/// Writes how many instructions there are, and then each.
fn put_code<O: Sink>(code: &[Placed], sink: &mut O) -> Result<(), SinkFault>
    requires few { IsFew code.now }
    ensures { Puts O.took O.faults sink.old (list_bytes placed_bytes code.now) sink.new result }
{
    if let Err(fault) = put_number(code.len() as u32, sink) {
        return Err(fault);
    }
    for placed in code {
        if let Err(fault) = put_placed(placed, sink) {
            return Err(fault);
        }
    }
    Ok(())
}

/// Writes the parts of an image.
fn put_parts<O: Sink>(image: &RawImage, sink: &mut O) -> Result<(), SinkFault>
    requires made { IsWellMade (parts_of image.now) }
    requires small { IsSmall (parts_of image.now) }
    ensures { Puts O.took O.faults sink.old
        (files.image_bytes (parts_of image.now)) sink.new result }
{
    if let Err(fault) = sink.put(b"OCELOT1\n") {
        return Err(fault);
    }
    if let Err(fault) = put_names(&image.names.sensors, sink) {
        return Err(fault);
    }
    if let Err(fault) = put_names(&image.names.ports, sink) {
        return Err(fault);
    }
    if let Err(fault) = put_nvs(&image.names.nvs, &image.nv, sink) {
        return Err(fault);
    }
    if let Err(fault) = put_functions(&image.functions, sink) {
        return Err(fault);
    }
    if let Err(fault) = put_regions(&image.targets, sink) {
        return Err(fault);
    }
    if let Err(fault) = put_number(image.stack, sink) {
        return Err(fault);
    }
    put_code(&image.code, sink)
}

/// Writes the bytes of an image's file. At a fault of the sink a part of them was taken.
pub fn image_bytes<O: Sink>(image: &Image, sink: &mut O) -> Result<(), SinkFault>
    requires { IsSmall image.now }
    ensures { Puts O.took O.faults sink.old (files.image_bytes image.now) sink.new result }
{
    put_parts(image.raw(), sink)
}
