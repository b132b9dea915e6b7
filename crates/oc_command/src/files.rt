//! Fetching files.
ghost use Rattle.std.specs.Prelude.{[], ◌∷◌, IfOk, IfErr, OnOk};
ghost use Rattle.oc_lex.specs.Limits.{source_limit};
ghost use Rattle.oc_io.specs.Faults.{Rose};
ghost use Rattle.oc_command.specs.Commands.{audit_limits, run_limits, run_words};
ghost use Rattle.oc_command.specs.Files.{AreFiles, IsFile, IsRefused, NotFetched, ShelfStays, bytes_of, fetches, listed, names_of};

use crate::answer::Answer;
use crate::command::RunWords;
use oc_io::shelf::{Shelf, ShelfError};
use std::alloc::Global;

/// The most bytes of a source: 1 MiB.
pub const SOURCE_LIMIT: usize = 1 << 20;

/// The most bytes of a sensor file, of a power file and of a report: 16 MiB.
pub const ROWS_LIMIT: usize = 1 << 24;

/// The most bytes of an image: 64 MiB.
pub const IMAGE_LIMIT: usize = 1 << 26;

/// The bytes of a run's three files. An image may stand in the place of the source.
#[derive(Drop)]
pub struct Fetched {
    pub source: Vec<u8>,
    pub sensors: Vec<u8>,
    pub power: Vec<u8>,
}

/// The bytes of an audit's two files.
#[derive(Drop)]
pub struct Audited {
    pub source: Vec<u8>,
    pub report: Vec<u8>,
}

/// The bytes of the file under a word, or the answer that there are none; the file stands at this
/// place among those of the command.
fn fetch_word<F: Shelf>(
    alloc: Global,
    word: &str,
    place: usize,
    limit: usize,
    shelf: &mut F,
) -> Result<Vec<u8>, Answer>
    ensures file { IfOk result (λ v. IsFile (F.holds shelf.old word.now) limit v.items) }
    ensures refused { IfErr result
        (λ a. IsRefused (F.holds shelf.old word.now) limit place
        (Rose (F.faults shelf.old) (F.faults shelf.new)) a) }
    ensures once { F.asked shelf.old ((word.now, limit) ∷ []) shelf.new }
    ensures stays { ShelfStays F.holds F.faults shelf.old shelf.new }
{
    match shelf.fetch(alloc, word, limit) {
        Ok(bytes) => Ok(bytes),
        Err(ShelfError::Unreadable) => Err(Answer::Unreadable { file: place }),
        Err(ShelfError::Absent) => Err(Answer::Unreadable { file: place }),
        Err(ShelfError::TooLong { .. }) => Err(Answer::TooLong { file: place }),
        Err(ShelfError::Memory) => Err(Answer::Memory),
    }
}

/// The three files of a run, in the order of their words, the first of them with this limit. The
/// first that is refused decides the answer, and no later one is fetched.
pub fn fetch_files<F: Shelf>(
    alloc: Global,
    words: RunWords<'_>,
    limit: usize,
    shelf: &mut F,
) -> Result<Fetched, Answer>
    ensures files { IfOk result
        (λ f. AreFiles (F.holds shelf.old) (run_words words.entry) (run_limits limit)
        (listed (bytes_of f))) }
    ensures refused { IfErr result
        (λ a. NotFetched (fetches F.holds F.asked F.faults shelf.old shelf.new)
        (run_words words.entry) (run_limits limit) a) }
    ensures asked { OnOk result
        (F.asked shelf.old (names_of (run_words words.entry) (run_limits limit) 3) shelf.new) }
    ensures stays { ShelfStays F.holds F.faults shelf.old shelf.new }
{
    let source = fetch_word(alloc, words.source, 0, limit, shelf)?;
    let sensors = fetch_word(alloc, words.sensors, 1, ROWS_LIMIT, shelf)?;
    let power = fetch_word(alloc, words.power, 2, ROWS_LIMIT, shelf)?;
    Ok(Fetched {
        source,
        sensors,
        power,
    })
}

/// The source under a word.
pub fn fetch_source<F: Shelf>(alloc: Global, word: &str, shelf: &mut F) -> Result<Vec<u8>, Answer>
    ensures source { IfOk result
        (λ v. AreFiles (F.holds shelf.old) (word.now ∷ []) (source_limit ∷ []) (v.items ∷ [])) }
    ensures refused { IfErr result
        (λ a. NotFetched (fetches F.holds F.asked F.faults shelf.old shelf.new) (word.now ∷ [])
        (source_limit ∷ []) a) }
    ensures asked { OnOk result
        (F.asked shelf.old (names_of (word.now ∷ []) (source_limit ∷ []) 1) shelf.new) }
    ensures stays { ShelfStays F.holds F.faults shelf.old shelf.new }
{
    let source = fetch_word(alloc, word, 0, SOURCE_LIMIT, shelf)?;
    Ok(source)
}

/// The two files of an audit, in the order of their words. The first that is refused decides the
/// answer, and no later one is fetched.
pub fn fetch_audited<F: Shelf>(
    alloc: Global,
    source: &str,
    report: &str,
    shelf: &mut F,
) -> Result<Audited, Answer>
    ensures files { IfOk result
        (λ f. AreFiles (F.holds shelf.old) (source.now ∷ report.now ∷ []) audit_limits
        (f.source.items ∷ f.report.items ∷ [])) }
    ensures refused { IfErr result
        (λ a. NotFetched (fetches F.holds F.asked F.faults shelf.old shelf.new)
        (source.now ∷ report.now ∷ []) audit_limits a) }
    ensures asked { OnOk result
        (F.asked shelf.old (names_of (source.now ∷ report.now ∷ []) audit_limits 2)
        shelf.new) }
    ensures stays { ShelfStays F.holds F.faults shelf.old shelf.new }
{
    let source = fetch_word(alloc, source, 0, SOURCE_LIMIT, shelf)?;
    let report = fetch_word(alloc, report, 1, ROWS_LIMIT, shelf)?;
    Ok(Audited { source, report })
}
