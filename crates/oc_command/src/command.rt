//! The command lines.
ghost use Rattle.std.specs.Prelude.{◌≡◌, map, option_map};
ghost use Rattle.std.specs.String.{string_bytes};
ghost use Rattle.oc_command.specs.Commands.{command_of, command_view, drill_with, file_words, files_with, is_file, run_with, source_task_of, supply_of, turns_of, with_both, with_one, with_meters, with_supply, with_three, with_two, word_at, run_words};

use oc_drill::files::MOST_TURNS;
use oc_rows::number::read_number;

/// What may be done with a source alone.
#[derive(Clone, Copy)]
pub enum SourceTask {
    /// To write its regions.
    Regions,
    /// To write the listing of its image.
    Build,
    /// To write the bytes of its image.
    Image,
    /// To judge its blocks.
    Check,
}

/// The words of a run's files. An image may stand in the place of the source.
#[derive(Clone, Copy)]
pub struct RunWords<'a> {
    pub source: &'a str,
    pub sensors: &'a str,
    pub power: &'a str,
}

/// What a line of words asks for, with the words of its files.
#[derive(Clone, Copy)]
pub enum Command<'a> {
    /// To run a source with the supply of this number. Where it is metered, the meters write their
    /// lines.
    Run {
        supply: u8,
        metered: bool,
        files: RunWords<'a>,
    },
    /// To run the files of a drill of so many turns, with the supply of the number 0.
    Drill {
        turns: u32,
    },
    /// To do this with a source alone.
    Source {
        task: SourceTask,
        source: &'a str,
    },
    /// To run an image with the supply of the number 0.
    Exec {
        files: RunWords<'a>,
    },
    /// To audit a report for a source.
    Audit {
        source: &'a str,
        report: &'a str,
    },
}

impl<'a> RunWords<'a> {
    /// The word at a place, or an empty one.
    fn word(&self, place: usize) -> &'a str
        ensures { result.now ≡ word_at (run_words self.now) place }
    {
        match place {
            0 => self.source,
            1 => self.sensors,
            2 => self.power,
            _ => "",
        }
    }
}

impl<'a> Command<'a> {
    /// The word of the file at a place, or an empty one.
    pub fn word(&self, place: usize) -> &'a str
        ensures { result.now ≡ word_at (file_words (command_view self.now)) place }
    {
        match (self, place) {
            (Command::Run { files, .. }, _) => files.word(place),
            (Command::Exec { files }, _) => files.word(place),
            (Command::Source { source, .. }, 0) => source,
            (Command::Audit { source, .. }, 0) => source,
            (Command::Audit { report, .. }, 1) => report,
            _ => "",
        }
    }
}

/// Whether a word may stand for a file.
fn names_file(word: &str) -> bool
    ensures { result ≡ is_file word.now }
{
    match word.as_bytes() {
        [first, ..] => *first != b'-',
        [] => false,
    }
}

/// The supply's number that a word spells.
fn read_supply(word: &str) -> Option<u8>
    ensures { result ≡ supply_of word.now }
{
    if 3 < word.len() {
        return None;
    }
    let number = read_number(word.as_bytes())?;
    if number < 256 {
        Some(number as u8)
    } else {
        None
    }
}

/// A run of these files with the supply that a word spells.
fn read_run<'a>(number: &str, metered: bool, files: RunWords<'a>) -> Option<Command<'a>>
    ensures { option_map command_view result
        ≡ run_with (supply_of number.now) metered (run_words files.entry) }
{
    let supply = read_supply(number)?;
    Some(Command::Run {
        supply,
        metered,
        files,
    })
}

/// The number of turns that a word spells.
fn read_turns(word: &str) -> Option<u32>
    ensures { result ≡ turns_of word.now }
{
    if 4 < word.len() {
        return None;
    }
    let number = read_number(word.as_bytes())?;
    if 1 <= number && number <= MOST_TURNS as u64 {
        Some(number as u32)
    } else {
        None
    }
}

/// A drill of the number of turns that a word spells.
fn read_drill<'a>(word: &str) -> Option<Command<'a>>
    ensures { option_map command_view result ≡ drill_with (turns_of word.now) }
{
    let turns = read_turns(word)?;
    Some(Command::Drill { turns })
}

/// What a word and a source ask for.
fn read_source_task(word: &str) -> Option<SourceTask>
    ensures { result ≡ source_task_of word.now }
{
    if word == "regions" {
        Some(SourceTask::Regions)
    } else if word == "build" {
        Some(SourceTask::Build)
    } else if word == "check" {
        Some(SourceTask::Check)
    } else {
        None
    }
}

/// The command of one word and another.
fn read_one<'a>(word: &str, other: &'a str) -> Option<Command<'a>>
    ensures { option_map command_view result ≡ with_one word.now other.now }
{
    if word == "drill" {
        read_drill(other)
    } else if names_file(other) {
        let task = read_source_task(word)?;
        Some(Command::Source {
            task,
            source: other,
        })
    } else {
        None
    }
}

/// The command of one word and two others.
fn read_two<'a>(word: &str, second: &'a str, third: &'a str) -> Option<Command<'a>>
    ensures { option_map command_view result ≡ with_two word.now second.now third.now }
{
    if word == "audit" && names_file(second) && names_file(third) {
        Some(Command::Audit {
            source: second,
            report: third,
        })
    } else if word == "build" && second == "--image" && names_file(third) {
        Some(Command::Source {
            task: SourceTask::Image,
            source: third,
        })
    } else {
        None
    }
}

/// The command of a word and three files.
fn read_three<'a>(word: &str, files: RunWords<'a>) -> Option<Command<'a>>
    ensures { option_map command_view result ≡ with_three word.now (run_words files.entry) }
{
    if word == "run" {
        Some(Command::Run {
            supply: 0,
            metered: false,
            files,
        })
    } else if word == "exec" {
        Some(Command::Exec { files })
    } else {
        None
    }
}

/// The command of two words and three files.
fn read_metered<'a>(word: &str, option: &str, files: RunWords<'a>) -> Option<Command<'a>>
    ensures { option_map command_view result
        ≡ with_meters word.now option.now (run_words files.entry) }
{
    if word == "run" && option == "--meters" {
        Some(Command::Run {
            supply: 0,
            metered: true,
            files,
        })
    } else {
        None
    }
}

/// The command of three words and three files.
fn read_with_supply<'a>(
    word: &str,
    option: &str,
    number: &str,
    files: RunWords<'a>,
) -> Option<Command<'a>>
    ensures { option_map command_view result
        ≡ with_supply word.now option.now number.now (run_words files.entry) }
{
    if word == "run" && option == "--supply" {
        read_run(number, false, files)
    } else {
        None
    }
}

/// The command of four words and three files.
fn read_with_both<'a>(
    word: &str,
    option: &str,
    number: &str,
    meters: &str,
    files: RunWords<'a>,
) -> Option<Command<'a>>
    ensures { option_map command_view result
        ≡ with_both word.now option.now number.now meters.now (run_words files.entry) }
{
    if word == "run" && option == "--supply" && meters == "--meters" {
        read_run(number, true, files)
    } else {
        None
    }
}

/// The words of three files, where each may stand for one.
fn read_files<'a>(
    source: &'a String,
    sensors: &'a String,
    power: &'a String,
) -> Option<RunWords<'a>>
    ensures { option_map run_words result
        ≡ files_with (string_bytes source.now) (string_bytes sensors.now)
        (string_bytes power.now) }
{
    let files = RunWords {
        source: source.as_str(),
        sensors: sensors.as_str(),
        power: power.as_str(),
    };
    if names_file(files.source) && names_file(files.sensors) && names_file(files.power) {
        Some(files)
    } else {
        None
    }
}

/// The command of a line of words: `run SOURCE SENSORS POWER`, behind whose `run` may stand
/// `--supply K`, where K has 1 to 3 digits and is at most 255, and then `--meters`;
/// `regions SOURCE`, `build SOURCE`, `build --image SOURCE`, `exec IMAGE SENSORS POWER`,
/// `check SOURCE`, `audit SOURCE REPORT`, or `drill N`, where N has 1 to 4 digits and is from 1 to
/// 1000. A word for a file isn't empty and doesn't begin with `-`.
pub fn read_command(words: &[String]) -> Option<Command<'_>>
    ensures { option_map command_view result ≡ command_of (map string_bytes words.now) }
{
    match words {
        [word, other] => read_one(word.as_str(), other.as_str()),
        [word, second, third] => read_two(word.as_str(), second.as_str(), third.as_str()),
        [word, source, sensors, power] => {
            let files = read_files(source, sensors, power)?;
            read_three(word.as_str(), files)
        }
        [word, option, source, sensors, power] => {
            let files = read_files(source, sensors, power)?;
            read_metered(word.as_str(), option.as_str(), files)
        }
        [word, option, number, source, sensors, power] => {
            let files = read_files(source, sensors, power)?;
            read_with_supply(word.as_str(), option.as_str(), number.as_str(), files)
        }
        [word, option, number, meters, source, sensors, power] => {
            let files = read_files(source, sensors, power)?;
            read_with_both(
                word.as_str(),
                option.as_str(),
                number.as_str(),
                meters.as_str(),
                files,
            )
        }
        _ => None,
    }
}
