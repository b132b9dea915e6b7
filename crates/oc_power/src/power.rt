//! Power files.
ghost use Rattle.std.specs.Prelude.{◌≡◌, ◌+◌, ◌<◌, ◌^◌, Some, None, IfOk, IfErr};
ghost use Rattle.oc_rows.specs.Rows.{file_rows};
ghost use Rattle.oc_power.specs.Causes.{ExplainsPower, TellsCause, why_file, why_row, why_rows};
ghost use Rattle.oc_power.specs.Power.{is_header, period_row, periods, power_file, power_rows};
ghost use Rattle.oc_power.specs.Total.{total};
ghost use Rattle.oc_power.specs.declared.power.PowerError.TheVariants as error;

use crate::trace::Trace;
use oc_io::Memory;
use oc_io::period::Period;
use oc_rows::number::read_number;
use oc_rows::rows::Rows;
use std::alloc::Global;
use thiserror::Error;

/// What is wrong with a row.
#[derive(Clone, Copy, Debug, Error)]
pub enum PowerWhat {
    #[error("the header is not `on,off`")]
    Header,
    #[error("there are not 2 or 3 fields")]
    Fields,
    #[error("a time is no number below 2^63")]
    Number,
    #[error("the mark is not `cut`")]
    Mark,
    #[error("the times so far reach 2^63")]
    Sum,
}

/// Why a power file wasn't read: the first bad row, with rows numbered from 1, or want of memory.
#[derive(Clone, Copy, Debug, Error)]
pub enum PowerError {
    #[error("row {row}: {what}")]
    Row { row: u64, what: PowerWhat },
    #[error("out of memory")]
    Memory,
}

impl From<Memory> for PowerError {
    ghost from_gives = { λ _ e. e ≡ error.Memory };

    fn from(_: Memory) -> PowerError {
        PowerError::Memory
    }
}

/// Sums of times stay below this.
const LIMIT: u64 = 1 << 63;

/// Whether the row at hand is the header of a power file: `on,off`.
fn has_header(rows: &Rows) -> bool
    ensures { result ≡ is_header rows.now.row }
{
    rows.field_count() == 2
        && rows.field(0) == b"on".as_slice()
        && rows.field(1) == b"off".as_slice()
}

/// The period of the row at hand, after periods of this sum.
fn read_period(rows: &Rows, sum: u64) -> Result<Period, PowerWhat>
    requires { sum < 2 ^ 63 }
    ensures period { IfOk result (λ p. period_row sum rows.now.row ≡ Some p) }
    ensures none { IfErr result (λ what. period_row sum rows.now.row ≡ None) }
    ensures why { IfErr result (λ what. what ≡ why_row rows.now.row) }
    ensures small { IfOk result (λ p. sum + p.on + p.off < 2 ^ 63) }
{
    let fields = rows.field_count();
    if fields != 2 && fields != 3 {
        return Err(PowerWhat::Fields);
    }
    let (on, off) = match (read_number(rows.field(0)), read_number(rows.field(1))) {
        (Some(on), Some(off)) => (on, off),
        _ => return Err(PowerWhat::Number),
    };
    let cut = fields == 3;
    if cut && rows.field(2) != b"cut".as_slice() {
        return Err(PowerWhat::Mark);
    }
    let left = LIMIT - sum;
    if left <= on || left - on <= off {
        return Err(PowerWhat::Sum);
    }
    Ok(Period { on, off, cut })
}

/// The periods of the rows left.
fn read_periods(alloc: Global, rows: &mut Rows) -> Result<Trace, PowerError>
    ensures ok { IfOk result
        (λ trace. power_rows (rows.old.number + 1) 0 rows.old.left ≡ periods trace) }
    ensures sum { IfOk result (λ trace. total trace < 2 ^ 63) }
    ensures row { IfErr result
        (λ e. ExplainsPower (power_rows (rows.old.number + 1) 0 rows.old.left) e) }
    ensures why { IfErr result (λ e. TellsCause (why_rows 0 rows.old.left) e) }
{
    let mut periods = Trace::new(alloc);
    let mut sum: u64 = 0;
    while rows.step_on()? {
        match read_period(rows, sum) {
            Ok(period) => {
                sum += period.on + period.off;
                periods.push(period)?;
            }
            Err(what) => {
                return Err(PowerError::Row {
                    row: rows.number(),
                    what,
                });
            }
        }
    }
    Ok(periods)
}

/// The rows of a power file as a trace. Its header is `on,off`; each row after it has the steps
/// and the ticks of a period, below 2^63 in all, and `cut` as a third field where the checkpoint
/// at the end of its steps doesn't complete.
pub fn read_trace(alloc: Global, bytes: &[u8]) -> Result<Trace, PowerError>
    ensures ok { IfOk result (λ trace. power_file bytes.now ≡ periods trace) }
    ensures sum { IfOk result (λ trace. total trace < 2 ^ 63) }
    ensures row { IfErr result (λ e. ExplainsPower (power_file bytes.now) e) }
    ensures why { IfErr result (λ e. TellsCause (why_file (file_rows bytes.now)) e) }
{
    let mut rows = Rows::new(alloc, bytes);
    if !rows.step_on()? || !has_header(&rows) {
        return Err(PowerError::Row {
            row: 1,
            what: PowerWhat::Header,
        });
    }
    read_periods(alloc, &mut rows)
}

/// The periods of a power file, in order, as [`read_trace`] finds them.
pub fn read_power(alloc: Global, bytes: &[u8]) -> Result<Vec<Period>, PowerError>
    ensures ok { IfOk result (λ v. power_file bytes.now ≡ periods v.items) }
    ensures sum { IfOk result (λ v. total v.items < 2 ^ 63) }
    ensures row { IfErr result (λ e. ExplainsPower (power_file bytes.now) e) }
    ensures why { IfErr result (λ e. TellsCause (why_file (file_rows bytes.now)) e) }
{
    let trace = read_trace(alloc, bytes)?;
    let periods = trace.to_vec()?;
    Ok(periods)
}
