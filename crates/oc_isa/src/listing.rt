//! The listing of an image.
ghost use Rattle.std.specs.Prelude.{◌≡◌, ◌+◌, ◌++◌, map, codes, decimal};
ghost use Rattle.std.specs.Fmt.{signed_decimal};
ghost use Rattle.oc_io.specs.Faults.{Puts};
ghost use Rattle.oc_io.specs.Lines.{further};
ghost use Rattle.oc_isa.specs.Image.{Exists, IsWellMade, parts_of};
ghost use Rattle.oc_isa.specs.Listing.{
  binary_word,
  code_line,
  code_lines,
  fields_of,
  function_line,
  function_lines,
  listing_text,
  probe_word,
  region_lines,
  target_line,
  target_lines,
  unary_word,
};

use crate::image::{Image, ImageFunction, RawImage};
use crate::instr::{BinOp, Instr, Placed, ProbeKind};
use itoa::Buffer;
use oc_io::pieces::put_pieces;
use oc_io::sink::{Sink, SinkFault};
use oc_tree::said::Target;
use oc_tree::tree::UnaryOp;

/// The word for an operator on two words.
fn binary_bytes(op: BinOp) -> &'static [u8]
    ensures { result.now ≡ binary_word op }
{
    match op {
        BinOp::Add => b"add",
        BinOp::Sub => b"sub",
        BinOp::Mul => b"mul",
        BinOp::Div => b"div",
        BinOp::Rem => b"rem",
        BinOp::Eq => b"eq",
        BinOp::Ne => b"ne",
        BinOp::Lt => b"lt",
        BinOp::Le => b"le",
        BinOp::Gt => b"gt",
        BinOp::Ge => b"ge",
    }
}

/// The word for an operator on one word.
fn unary_bytes(op: UnaryOp) -> &'static [u8]
    ensures { result.now ≡ unary_word op }
{
    match op {
        UnaryOp::Neg => b"neg",
        UnaryOp::Not => b"not",
    }
}

/// The word for what a probe reports.
fn probe_bytes(kind: ProbeKind) -> &'static [u8]
    ensures { result.now ≡ probe_word kind }
{
    match kind {
        ProbeKind::Use => b"use",
        ProbeKind::Done => b"done",
        ProbeKind::Tag => b"tag",
    }
}

/// Ends a line by a word and a field.
fn put_field<O: Sink>(word: &[u8], field: &[u8], sink: &mut O) -> Result<(), SinkFault>
    ensures { Puts O.took O.faults sink.old
        (word.now ++ (field.now ++ codes "\n")) sink.new result }
{
    put_pieces(sink, &[word, field, b"\n"])
}

/// Ends a line by a word and a number.
fn put_number<O: Sink>(word: &[u8], number: u32, sink: &mut O) -> Result<(), SinkFault>
    ensures { Puts O.took O.faults sink.old
        (word.now ++ (decimal number ++ codes "\n")) sink.new result }
{
    let mut buffer = Buffer::new();
    put_field(word, buffer.format(number).as_bytes(), sink)
}

/// Ends a line by `push` and its number.
fn put_push<O: Sink>(number: i32, sink: &mut O) -> Result<(), SinkFault>
    ensures { Puts O.took O.faults sink.old
        (codes " push " ++ (signed_decimal number ++ codes "\n")) sink.new result }
{
    let mut buffer = Buffer::new();
    put_field(b" push ", buffer.format(number).as_bytes(), sink)
}

/// Ends a line by `probe`, what it reports, and its number.
fn put_probe<O: Sink>(kind: ProbeKind, number: u32, sink: &mut O) -> Result<(), SinkFault>
    ensures { Puts O.took O.faults sink.old
        (codes " probe " ++ (probe_word kind ++ (codes " " ++ (decimal number ++ codes "\n"))))
        sink.new result }
{
    let mut buffer = Buffer::new();
    let number = buffer.format(number).as_bytes();
    put_pieces(sink, &[b" probe ", probe_bytes(kind), b" ", number, b"\n"])
}

/// Ends a line by an instruction, whose function, sensor or port is one of the image's.
fn put_instr<O: Sink>(instr: &Instr, image: &RawImage, sink: &mut O) -> Result<(), SinkFault>
    requires { Exists (parts_of image.now) instr.now }
    ensures { Puts O.took O.faults sink.old
        (further (fields_of (parts_of image.now) instr.now)) sink.new result }
{
    match *instr {
        Instr::Push { c } => put_push(c, sink),
        Instr::Load { s } => put_number(b" load ", s, sink),
        Instr::Store { s } => put_number(b" store ", s, sink),
        Instr::Nload { a } => put_number(b" nload ", a, sink),
        Instr::Nstore { a } => put_number(b" nstore ", a, sink),
        Instr::Addr { s } => put_number(b" addr ", s, sink),
        Instr::Naddr { a } => put_number(b" naddr ", a, sink),
        Instr::Get => sink.put(b" get\n"),
        Instr::Put => sink.put(b" put\n"),
        Instr::Index { n } => put_number(b" index ", n, sink),
        Instr::Bin { op } => put_field(b" bin ", binary_bytes(op), sink),
        Instr::Un { op } => put_field(b" un ", unary_bytes(op), sink),
        Instr::Jump { t } => put_number(b" jump ", t, sink),
        Instr::Jfalse { t } => put_number(b" jfalse ", t, sink),
        Instr::Call { f } => put_field(b" call ", image.functions[f as usize].name.bytes(), sink),
        Instr::Ret { k } => put_number(b" ret ", k, sink),
        Instr::Retv { k } => put_number(b" retv ", k, sink),
        Instr::Drop => sink.put(b" drop\n"),
        Instr::Sense { s } => put_field(b" sense ", image.names.sensors[s as usize].bytes(), sink),
        Instr::Emit { p } => put_field(b" emit ", image.names.ports[p as usize].bytes(), sink),
        Instr::Probe { kind, n } => put_probe(kind, n, sink),
        Instr::Enter { r } => put_number(b" enter ", r, sink),
        Instr::Commit { r } => put_number(b" commit ", r, sink),
        Instr::Halt => sink.put(b" halt\n"),
    }
}

/// Begins a line by an address and a site.
fn put_front<O: Sink>(address: usize, site: u32, sink: &mut O) -> Result<(), SinkFault>
    ensures { Puts O.took O.faults sink.old
        (decimal address ++ (codes " " ++ decimal site)) sink.new result }
{
    let mut first = Buffer::new();
    let mut second = Buffer::new();
    let address = first.format(address).as_bytes();
    let site = second.format(site).as_bytes();
    put_pieces(sink, &[address, b" ", site])
}

/// Writes the line of an instruction of the image's code.
fn put_placed<O: Sink>(
    address: usize,
    placed: &Placed,
    image: &RawImage,
    sink: &mut O,
) -> Result<(), SinkFault>
    requires { Exists (parts_of image.now) placed.now.instr }
    ensures { Puts O.took O.faults sink.old
        (code_line (parts_of image.now) address placed.now) sink.new result }
{
    if let Err(fault) = put_front(address, placed.site, sink) {
        return Err(fault);
    }
    put_instr(&placed.instr, image, sink)
}

/// Writes a line for each address of the image's code.
fn put_code<O: Sink>(image: &RawImage, sink: &mut O) -> Result<(), SinkFault>
    requires { IsWellMade (parts_of image.now) }
    ensures { Puts O.took O.faults sink.old
        (code_lines (parts_of image.now) 0 (parts_of image.now).code) sink.new result }
{
    for (address, placed) in image.code.iter().enumerate() {
        if let Err(fault) = put_placed(address, placed, image, sink) {
            return Err(fault);
        }
    }
    Ok(())
}

/// Writes the line of a target of a region, of this kind and at this place.
fn put_place<O: Sink>(
    region: usize,
    kind: &[u8],
    place: u32,
    len: u32,
    sink: &mut O,
) -> Result<(), SinkFault>
    ensures { Puts O.took O.faults sink.old
        (codes "log " ++ (decimal region ++ (kind.now ++ (decimal place ++ (codes " "
        ++ (decimal len ++ codes "\n")))))) sink.new result }
{
    let mut first = Buffer::new();
    let mut second = Buffer::new();
    let mut third = Buffer::new();
    let region = first.format(region).as_bytes();
    let place = second.format(place).as_bytes();
    let len = third.format(len).as_bytes();
    put_pieces(sink, &[b"log ", region, kind, place, b" ", len, b"\n"])
}

/// Writes the line of a target of a region.
fn put_target<O: Sink>(region: usize, target: &Target, sink: &mut O) -> Result<(), SinkFault>
    ensures { Puts O.took O.faults sink.old (target_line region target.now) sink.new result }
{
    match *target {
        Target::Nv { base, len } => put_place(region, b" nv ", base, len, sink),
        Target::Param { slot, len } => put_place(region, b" param ", slot, len, sink),
    }
}

/// Writes a line for each target of a region.
fn put_region<O: Sink>(region: usize, targets: &[Target], sink: &mut O) -> Result<(), SinkFault>
    ensures { Puts O.took O.faults sink.old (region_lines region targets.now) sink.new result }
{
    for target in targets {
        if let Err(fault) = put_target(region, target, sink) {
            return Err(fault);
        }
    }
    Ok(())
}

/// Writes a line for each target of each region, which are numbered from 1.
fn put_targets<O: Sink>(regions: &[Vec<Target>], sink: &mut O) -> Result<(), SinkFault>
    ensures { Puts O.took O.faults sink.old
        (target_lines 1 (map (λ v. v.items) regions.now)) sink.new result }
{
    for (place, targets) in regions.iter().enumerate() {
        if let Err(fault) = put_region(place + 1, targets, sink) {
            return Err(fault);
        }
    }
    Ok(())
}

/// Writes the line of a function.
fn put_function<O: Sink>(function: &ImageFunction, sink: &mut O) -> Result<(), SinkFault>
    ensures { Puts O.took O.faults sink.old (function_line function.now) sink.new result }
{
    let mut entry = Buffer::new();
    let mut params = Buffer::new();
    let mut frame = Buffer::new();
    put_pieces(
        sink,
        &[
            b"fn ",
            function.name.bytes(),
            b" entry ",
            entry.format(function.entry).as_bytes(),
            b" params ",
            params.format(function.params).as_bytes(),
            b" frame ",
            frame.format(function.frame).as_bytes(),
            b"\n",
        ],
    )
}

/// Writes a line for each function.
fn put_functions<O: Sink>(functions: &[ImageFunction], sink: &mut O) -> Result<(), SinkFault>
    ensures { Puts O.took O.faults sink.old (function_lines functions.now) sink.new result }
{
    for function in functions {
        if let Err(fault) = put_function(function, sink) {
            return Err(fault);
        }
    }
    Ok(())
}

/// Writes the listing of an image: a line for each function, for each target of each region, and for
/// each address. At a fault of the sink a part of the text was taken.
pub fn listing<O: Sink>(image: &Image, sink: &mut O) -> Result<(), SinkFault>
    ensures { Puts O.took O.faults sink.old (listing_text image.now) sink.new result }
{
    let raw = image.raw();
    if let Err(fault) = put_functions(&raw.functions, sink) {
        return Err(fault);
    }
    if let Err(fault) = put_targets(&raw.targets, sink) {
        return Err(fault);
    }
    put_code(raw, sink)
}
