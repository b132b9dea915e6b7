//! Sensor files.
ghost use Rattle.std.specs.Prelude.{◌≡◌, ◌+◌, ◌≤◌, ◌^◌, length, Some, None, IfOk, IfErr};
ghost use Rattle.oc_sensors.specs.History.{ShowsWords};
ghost use Rattle.oc_rows.specs.Rows.{file_rows};
ghost use Rattle.oc_sensors.specs.Causes.{ExplainsSensors, TellsCause, why_file, why_row, why_rows};
ghost use Rattle.oc_sensors.specs.File.{is_header, readings, sensor_file, sensor_of, sensor_row, sensor_rows, value_of};
ghost use Rattle.oc_sensors.specs.declared.file.SensorError.TheVariants as error;

use crate::sensors::{Row, Sensors};
use oc_io::Memory;
use oc_rows::number::read_number;
use oc_rows::rows::Rows;
use oc_tree::name::Name;
use std::alloc::{AllocFailed, Global};
use thiserror::Error;

/// What is wrong with a row.
#[derive(Clone, Copy, Debug, Error)]
pub enum SensorWhat {
    #[error("the header is not `time,sensor,value`")]
    Header,
    #[error("there are not 3 fields")]
    Fields,
    #[error("the time is no number below 2^63")]
    Time,
    #[error("the time is below that of the row before")]
    Order,
    #[error("there is no sensor of this name")]
    Sensor,
    #[error("the value is no number of 32 bits")]
    Value,
}

/// Why a sensor file wasn't read: the first bad row, with rows numbered from 1, or want of memory.
#[derive(Clone, Copy, Debug, Error)]
pub enum SensorError {
    #[error("row {row}: {what}")]
    Row { row: u64, what: SensorWhat },
    #[error("out of memory")]
    Memory,
}

impl From<Memory> for SensorError {
    ghost from_gives = { λ _ e. e ≡ error.Memory };

    fn from(_: Memory) -> SensorError {
        SensorError::Memory
    }
}

impl<T: Drop> From<AllocFailed<T>> for SensorError {
    ghost from_gives = { λ _ e. e ≡ error.Memory };

    fn from(_: AllocFailed<T>) -> SensorError {
        SensorError::Memory
    }
}

/// A number, perhaps after a `-`, that 32 bits hold.
fn read_value(bytes: &[u8]) -> Option<i32>
    ensures { result ≡ value_of bytes.now }
{
    match bytes {
        [b'-', digits @ ..] => i32::try_from(-(read_number(digits)? as i64)).ok(),
        _ => i32::try_from(read_number(bytes)?).ok(),
    }
}

/// The place of a name.
fn find_sensor(names: &[Name], name: &[u8]) -> Option<u32>
    requires { length names.now ≤ 2 ^ 32 }
    ensures { result ≡ sensor_of names.now name.now }
{
    for (place, known) in names.iter().enumerate() {
        if known.bytes() == name {
            return Some(place as u32);
        }
    }
    None
}

/// Whether the row at hand is the header of a sensor file: `time,sensor,value`.
fn has_header(rows: &Rows) -> bool
    ensures { result ≡ is_header rows.now.row }
{
    rows.field_count() == 3
        && rows.field(0) == b"time".as_slice()
        && rows.field(1) == b"sensor".as_slice()
        && rows.field(2) == b"value".as_slice()
}

/// The row at hand, after a row of this time.
fn read_row(rows: &Rows, names: &[Name], before: u64) -> Result<Row, SensorWhat>
    requires { length names.now ≤ 2 ^ 32 }
    ensures row { IfOk result (λ row. sensor_row names.now before rows.now.row ≡ Some row) }
    ensures none { IfErr result (λ what. sensor_row names.now before rows.now.row ≡ None) }
    ensures why { IfErr result (λ what. what ≡ why_row names.now before rows.now.row) }
{
    if rows.field_count() != 3 {
        return Err(SensorWhat::Fields);
    }
    let Some(time) = read_number(rows.field(0)) else {
        return Err(SensorWhat::Time);
    };
    if time < before {
        return Err(SensorWhat::Order);
    }
    let Some(sensor) = find_sensor(names, rows.field(1)) else {
        return Err(SensorWhat::Sensor);
    };
    let Some(value) = read_value(rows.field(2)) else {
        return Err(SensorWhat::Value);
    };
    Ok(Row {
        time,
        sensor,
        value,
    })
}

/// The rows left.
fn read_rows(alloc: Global, rows: &mut Rows, names: &[Name]) -> Result<Vec<Row>, SensorError>
    requires { length names.now ≤ 2 ^ 32 }
    ensures ok { IfOk result
        (λ v. sensor_rows names.now (rows.old.number + 1) 0 rows.old.left ≡ readings v.items) }
    ensures row { IfErr result
        (λ e. ExplainsSensors (sensor_rows names.now (rows.old.number + 1) 0 rows.old.left) e) }
    ensures why { IfErr result (λ e. TellsCause (why_rows names.now 0 rows.old.left) e) }
{
    let mut read: Vec<Row> = Vec::new(alloc);
    let mut before: u64 = 0;
    while rows.step_on()? {
        match read_row(rows, names, before) {
            Ok(row) => {
                before = row.time;
                read.push(row)?;
            }
            Err(what) => {
                return Err(SensorError::Row {
                    row: rows.number(),
                    what,
                });
            }
        }
    }
    Ok(read)
}

/// The sensors of a sensor file, at tick 0. Its header is `time,sensor,value`; each row after it
/// has a time, not below that of the row before, the name of a sensor, and a value. A row keeps the
/// place of its sensor in 32 bits, so memory is wanting where there are more names than these count.
pub fn read_sensors(alloc: Global, bytes: &[u8], names: &[Name]) -> Result<Sensors, SensorError>
    ensures rows { IfOk result (λ s. sensor_file names.now bytes.now ≡ readings s.rows) }
    ensures sensors { IfOk result (λ s. s.sensors ≡ length names.now) }
    ensures now { IfOk result (λ s. s.now ≡ 0) }
    ensures words { IfOk result (λ s. ShowsWords s.rows) }
    ensures bad { IfErr result (λ e. ExplainsSensors (sensor_file names.now bytes.now) e) }
    ensures why { IfErr result (λ e. TellsCause (why_file names.now (file_rows bytes.now)) e) }
{
    let mut rows = Rows::new(alloc, bytes);
    if !rows.step_on()? || !has_header(&rows) {
        return Err(SensorError::Row {
            row: 1,
            what: SensorWhat::Header,
        });
    }
    if names.len() > 1 << 32 {
        return Err(SensorError::Memory);
    }
    let read = read_rows(alloc, &mut rows, names)?;
    Ok(Sensors::new(alloc, read, names.len())?)
}
