//! Sensors over time.
ghost use Rattle.std.specs.Prelude.{◌≡◌, ℕ, ◌<◌, ◌≤◌, pos, length, get_or, IfOk};
ghost use Rattle.oc_sensors.specs.History.{ShowsWords, history};
ghost use Rattle.oc_sensors.specs.Keeping.{Keeps, Ordered};

use oc_io::Memory;
use std::alloc::Global;
use std::marker::Model;

/// From this time on a sensor shows this value. Sensors go by their places among the names.
#[derive(Clone, Copy)]
pub struct Row {
    pub time: u64,
    pub sensor: u32,
    pub value: i32,
}

/// The rows of a sensor file, a place among them, and what each sensor showed last before it.
/// Contracts see the number of sensors, the rows, and the tick of the last sample, 0 at first.
#[derive(Drop)]
pub struct Sensors {
    rows: Vec<Row>,
    last: Vec<i32>,
    place: usize,
    now: u64,
}

impl Model for Sensors {
    ghost use Rattle.std.specs.Prelude.{length};
    ghost use Rattle.oc_sensors.specs.History.{ShowsWords, Told};
    ghost use Rattle.oc_sensors.specs.Keeping.{Keeps};

    ghost Value = { Told };

    ghost view = { λ a. record {
      sensors = length a.last.items;
      rows = a.rows.items;
      now = a.now;
    } };

    ghost invariant = { λ a. Keeps a.rows.items a.last.items a.place a.now
        × ShowsWords a.rows.items };
}

/// Takes in the rows up to a tick, from a place on, and answers the place of the first later row.
fn move_on(rows: &[Row], last: &mut [i32], place: usize, now: u64) -> usize
    requires { Keeps rows.now last.old place now }
    ensures kept { Keeps rows.now last.new result now }
    ensures shown { (sensor : ℕ) → sensor < length last.new
        → get_or last.new sensor (pos 0) ≡ history rows.now sensor now }
{
    let mut at = place;
    while at < rows.len() && rows[at].time <= now {
        let row = rows[at];
        last[row.sensor as usize] = row.value;
        at += 1;
    }
    at
}

impl Sensors {
    /// So many sensors that show these rows, at tick 0.
    pub fn new(alloc: Global, rows: Vec<Row>, sensors: usize) -> Result<Sensors, Memory>
        requires ordered { Ordered sensors 0 rows.items }
        requires words { ShowsWords rows.items }
        ensures { IfOk result (λ s. s ≡ record { sensors = sensors; rows = rows.items; now = 0 }) }
    {
        match vec![in alloc; 0i32; sensors] {
            Ok(last) => Ok(Sensors {
                rows,
                last,
                place: 0,
                now: 0,
            }),
            Err(_) => Err(Memory),
        }
    }

    /// The rows, in order. Whatever they show at a tick is a word.
    pub fn rows(&self) -> &[Row]
        ensures rows { result.now ≡ self.entry.now.rows }
        ensures words { ShowsWords self.entry.now.rows }
    {
        &self.rows
    }

    /// What a sensor shows at a tick, which isn't before that of the last sample: the value of its
    /// last row up to then, or 0. The rows up to a tick are gone through once.
    pub fn sample(&mut self, sensor: u8, now: u64) -> i32
        requires named { sensor < self.old.sensors }
        requires later { self.old.now ≤ now }
        ensures value { result ≡ history self.old.rows sensor now }
        ensures after { self.new ≡ record self.old { now = now } }
    {
        self.now = now;
        self.place = move_on(&self.rows, &mut self.last, self.place, now);
        self.last[sensor as usize]
    }
}
