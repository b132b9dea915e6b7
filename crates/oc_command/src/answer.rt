//! Answers, their statuses and their lines.
ghost use Rattle.std.specs.Prelude.{◌≡◌, ◌≤◌, ◌⊎◌, ◌++◌, codes, decimal};
ghost use Rattle.oc_io.specs.Faults.{Puts};
ghost use Rattle.oc_command.specs.Meters.{told_by, told_of};
ghost use Rattle.oc_command.specs.Sinks.{TookAll, TookFront, writes};
ghost use Rattle.oc_command.specs.Statuses.{line_of, status_of};
ghost use Rattle.oc_command.specs.Commands.{words_read, word_at};
ghost use Rattle.oc_command.specs.declared.answer.Answer.TheVariants as answers;

use crate::command::Command;
use crate::gap::{Gap, put_gap};
use itoa::Buffer;
use oc_io::Memory;
use oc_io::pieces::put_pieces;
use oc_io::sink::{Sink, SinkFault};
use oc_meters::meter::Meter;
use oc_meters::text::put_meters;
use std::alloc::AllocError;

/// How a call ends. A file is told by its place among those of the command, from 0; lines and rows
/// count from 1.
#[derive(Drop)]
pub enum Answer {
    /// The words are no command, or no supply has the number.
    Usage,
    /// The shelf couldn't read a file, or tells that it has none of this name.
    Unreadable { file: usize },
    /// A file is longer than its limit.
    TooLong { file: usize },
    /// The source isn't tokens that spell a program within the depths.
    Syntax { line: usize },
    /// The first element of the program that breaks a rule, and the lowest rule that it breaks.
    Rule { line: u32, rule: u8 },
    /// The first bad row of the sensor file.
    BadSensors { row: u64 },
    /// The first bad row of the power file.
    BadPower { row: u64 },
    /// The report couldn't be written whole.
    WriteFault,
    /// The run ended.
    End,
    /// The run was trapped.
    Trapped,
    /// The periods were used up.
    Dark,
    /// There was no memory.
    Memory,
    /// A checkpoint didn't complete.
    Cut,
    /// The last item, from 1, of the shortest front part of a report that isn't honest.
    Dishonest { item: u64 },
    /// The first line with which a file stops to be a report.
    BadReport { line: u64 },
    /// The first byte of the first bad field of what is no image's file.
    BadImage { at: usize },
    /// The image breaks a rule.
    Refused,
    /// The blocks of a source don't suffice.
    Uncovered { gap: Gap },
}

impl From<Memory> for Answer {
    ghost from_gives = { λ _ a. a ≡ answers.Memory };

    fn from(_: Memory) -> Answer {
        Answer::Memory
    }
}

impl From<AllocError> for Answer {
    ghost from_gives = { λ _ a. a ≡ answers.Memory };

    fn from(_: AllocError) -> Answer {
        Answer::Memory
    }
}

/// The status of an answer.
pub fn status(answer: &Answer) -> u8
    ensures { result ≡ status_of answer.now }
{
    match answer {
        Answer::End => 0,
        Answer::Usage => 1,
        Answer::Unreadable { .. } => 2,
        Answer::TooLong { .. } => 3,
        Answer::Syntax { .. } => 4,
        Answer::Rule { .. } => 5,
        Answer::BadSensors { .. } => 6,
        Answer::BadPower { .. } => 7,
        Answer::Trapped => 8,
        Answer::Dark => 9,
        Answer::WriteFault => 10,
        Answer::Memory => 11,
        Answer::Cut => 12,
        Answer::Dishonest { .. } => 14,
        Answer::BadReport { .. } => 15,
        Answer::BadImage { .. } => 16,
        Answer::Refused => 17,
        Answer::Uncovered { .. } => 18,
    }
}

/// The bytes of the word of a command's file, or none.
fn word_bytes<'a>(command: Option<Command<'a>>, file: usize) -> &'a [u8]
    ensures { result.now ≡ word_at (words_read command.entry) file }
{
    match command {
        Some(command) => command.word(file).as_bytes(),
        None => b"",
    }
}

/// Writes a line with a number in it.
fn put_number<E: Sink>(
    before: &[u8],
    number: u64,
    behind: &[u8],
    err: &mut E,
) -> Result<(), SinkFault>
    ensures { Puts E.took E.faults err.old
        (before.now ++ (decimal number ++ behind.now)) err.new result }
{
    let mut digits = Buffer::new();
    put_pieces(err, &[before, digits.format(number).as_bytes(), behind])
}

/// Writes a line that ends with the word of a command's file.
fn put_word<E: Sink>(
    before: &[u8],
    command: Option<Command<'_>>,
    file: usize,
    err: &mut E,
) -> Result<(), SinkFault>
    ensures { Puts E.took E.faults err.old
        (before.now ++ (word_at (words_read command.entry) file ++ codes "\n")) err.new result }
{
    put_pieces(err, &[before, word_bytes(command, file), b"\n"])
}

/// Writes the line of a rule that is broken.
fn put_rule<E: Sink>(line: u32, rule: u8, err: &mut E) -> Result<(), SinkFault>
    ensures { Puts E.took E.faults err.old
        (codes "ocelot: rule "
        ++ (decimal rule ++ (codes " broken in line " ++ (decimal line ++ codes "\n"))))
        err.new result }
{
    let mut first = Buffer::new();
    let mut second = Buffer::new();
    let rule = first.format(rule).as_bytes();
    let line = second.format(line).as_bytes();
    put_pieces(
        err,
        &[b"ocelot: rule ", rule, b" broken in line ", line, b"\n"],
    )
}

/// Writes the line of an answer, which may be empty.
fn put_line_of<E: Sink>(
    answer: &Answer,
    command: Option<Command<'_>>,
    err: &mut E,
) -> Result<(), SinkFault>
    ensures { Puts E.took E.faults err.old
        (line_of (words_read command.entry) answer.now) err.new result }
{
    match answer {
        Answer::Usage => put_pieces(err, &[b"ocelot: not a command\n"]),
        Answer::Unreadable { file } => put_word(b"ocelot: cannot read ", command, *file, err),
        Answer::TooLong { file } => put_word(b"ocelot: too long ", command, *file, err),
        Answer::Syntax { line } => {
            put_number(b"ocelot: syntax error in line ", *line as u64, b"\n", err)
        }
        Answer::Rule { line, rule } => put_rule(*line, *rule, err),
        Answer::BadSensors { row } => put_number(b"ocelot: bad row ", *row, b" in sensors\n", err),
        Answer::BadPower { row } => put_number(b"ocelot: bad row ", *row, b" in power\n", err),
        Answer::WriteFault => put_pieces(err, &[b"ocelot: cannot write\n"]),
        Answer::Memory => put_pieces(err, &[b"ocelot: out of memory\n"]),
        Answer::Cut => put_pieces(err, &[b"ocelot: checkpoint lost\n"]),
        Answer::Dishonest { item } => {
            put_number(b"ocelot: report breaks at item ", *item, b"\n", err)
        }
        Answer::BadReport { line } => put_number(b"ocelot: bad report line ", *line, b"\n", err),
        Answer::BadImage { at } => {
            put_number(b"ocelot: bad image at byte ", *at as u64, b"\n", err)
        }
        Answer::Refused => put_pieces(err, &[b"ocelot: image refused\n"]),
        Answer::Uncovered { gap } => put_gap(gap, err),
        Answer::End | Answer::Trapped | Answer::Dark => Ok(()),
    }
}

/// Writes the lines of meters, if there are any.
fn put_told<M: Meter, E: Sink>(meters: &Option<Vec<M>>, err: &mut E) -> Result<(), SinkFault>
    ensures { Puts E.took E.faults err.old
        (told_by (told_of M.kind_of M.numbers meters.now)) err.new result }
{
    match meters {
        Some(meters) => put_meters(meters.as_slice(), err),
        None => Ok(()),
    }
}

/// Writes the line of an answer, and those of meters.
fn put_all<M: Meter, E: Sink>(
    answer: &Answer,
    command: Option<Command<'_>>,
    meters: &Option<Vec<M>>,
    err: &mut E,
) -> Result<(), SinkFault>
    ensures { Puts E.took E.faults err.old
        (line_of (words_read command.entry) answer.now
        ++ told_by (told_of M.kind_of M.numbers meters.now)) err.new result }
{
    if let Err(fault) = put_line_of(answer, command, err) {
        return Err(fault);
    }
    put_told(meters, err)
}

/// Writes the line of an answer and those of meters, and holds nothing back. At a fault a part of
/// the lines was taken.
pub fn put_lines<M: Meter, E: Sink>(
    answer: &Answer,
    command: Option<Command<'_>>,
    meters: &Option<Vec<M>>,
    err: &mut E,
)
    ensures line { TookAll (writes E.took E.held E.faults err.old err.new)
        (line_of (words_read command.entry) answer.now
        ++ told_by (told_of M.kind_of M.numbers meters.now))
        ⊎ TookFront (writes E.took E.held E.faults err.old err.new)
        (line_of (words_read command.entry) answer.now
        ++ told_by (told_of M.kind_of M.numbers meters.now)) }
    ensures count { E.faults err.old ≤ E.faults err.new }
{
    match put_all(answer, command, meters, err) {
        Ok(()) => {
            // The sink counts a fault here, and the status is the answer's either way.
            let _ = err.flush();
        }
        Err(_) => {}
    }
}
