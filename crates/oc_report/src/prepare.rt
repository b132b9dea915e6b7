//! The steps before the first byte of a report is written, from an image on.
ghost use Rattle.std.specs.Prelude.{◌≡◌, ◌<◌, ◌^◌, length, IfOk, IfErr};
ghost use Rattle.oc_power.specs.Power.{periods, power_file};
ghost use Rattle.oc_power.specs.Total.{total};
ghost use Rattle.oc_sensors.specs.File.{readings, sensor_file};
ghost use Rattle.oc_isa.specs.Run.{IsSound};
ghost use Rattle.oc_isa.specs.Table.{device_of};
ghost use Rattle.oc_command.specs.Files.{bytes_of};
ghost use Rattle.oc_report.specs.Images.{IsAdmitted, IsNotLoaded, IsNotRun, for_bytes, for_image};
ghost use Rattle.oc_report.specs.Ready.{IsNotReady, IsReadyFor, IsUnpowered, IsUnsensed, for_power, for_sensors};

use oc_command::answer::Answer;
use oc_command::files::Fetched;
use oc_isa::image::Image;
use oc_machine::machine::Machine;
use oc_power::power::{PowerError, read_trace};
use oc_power::supply::Supply;
use oc_power::trace::Trace;
use oc_sensors::file::{SensorError, read_sensors};
use oc_sensors::sensors::Sensors;
use oc_verify::{ImageError, VerifyError, read_image, verify};
use std::alloc::Global;

/// A newly loaded machine, and the sensors that it reads.
#[derive(Drop)]
pub struct Prepared {
    pub machine: Machine,
    pub sensors: Sensors,
}

/// The answer to a sensor file that wasn't read.
fn without_sensors(error: SensorError) -> Answer
    ensures { result ≡ for_sensors error }
{
    match error {
        SensorError::Row { row, .. } => Answer::BadSensors { row },
        SensorError::Memory => Answer::Memory,
    }
}

/// The answer to a power file that wasn't read.
fn without_power(error: PowerError) -> Answer
    ensures { result ≡ for_power error }
{
    match error {
        PowerError::Row { row, .. } => Answer::BadPower { row },
        PowerError::Memory => Answer::Memory,
    }
}

/// The answer to bytes that are no image's.
fn without_image(error: ImageError) -> Answer
    ensures { result ≡ for_bytes error }
{
    match error {
        ImageError::Bytes { at } => Answer::BadImage { at },
        ImageError::Memory => Answer::Memory,
    }
}

/// The answer to an image that isn't accepted.
fn without_verdict(error: VerifyError) -> Answer
    ensures { result ≡ for_image error }
{
    match error {
        VerifyError::Refused { .. } => Answer::Refused,
        VerifyError::Memory => Answer::Memory,
    }
}

/// The sensors of an image, which show the rows of a sensor file.
fn sensors_for(alloc: Global, bytes: &[u8], image: &Image) -> Result<Sensors, Answer>
    ensures rows { IfOk result
        (λ s. sensor_file image.now.names.sensors bytes.now ≡ readings s.rows) }
    ensures sensors { IfOk result (λ s. s.sensors ≡ length image.now.names.sensors) }
    ensures now { IfOk result (λ s. s.now ≡ 0) }
    ensures bad { IfErr result
        (λ a. IsUnsensed (sensor_file image.now.names.sensors bytes.now) a) }
{
    match read_sensors(alloc, bytes, &image.raw().names.sensors) {
        Ok(sensors) => Ok(sensors),
        Err(error) => Err(without_sensors(error)),
    }
}

/// The periods of a power file.
fn periods_of(alloc: Global, bytes: &[u8]) -> Result<Trace, Answer>
    ensures ok { IfOk result (λ trace. power_file bytes.now ≡ periods trace) }
    ensures sum { IfOk result (λ trace. total trace < 2 ^ 63) }
    ensures row { IfErr result (λ a. IsUnpowered (power_file bytes.now) a) }
{
    match read_trace(alloc, bytes) {
        Ok(trace) => Ok(trace),
        Err(error) => Err(without_power(error)),
    }
}

/// A machine with an image, the sensors of the sensor file, and the supply fed with the rows of the
/// power file. The first file that is refused, in this order, decides the answer.
pub fn set_up(
    alloc: Global,
    image: Image,
    files: &Fetched,
    supply: &mut dyn Supply,
) -> Result<Prepared, Answer>
    requires { IsSound (device_of image) }
    ensures ready { IfOk result
        (λ p. IsReadyFor (λ i. i ≡ image) (bytes_of files.now) (plan supply.old) p.machine p.sensors
        (left supply.new)) }
    ensures refused { IfErr result
        (λ a. IsNotReady image (bytes_of files.now) (plan supply.old) a) }
{
    let sensors = sensors_for(alloc, &files.sensors, &image)?;
    let periods = periods_of(alloc, &files.power)?;
    supply.take(periods)?;
    let machine = Machine::load(alloc, image)?;
    Ok(Prepared { machine, sensors })
}

/// The image that a file holds, which breaks no rule.
fn load(alloc: Global, bytes: &[u8]) -> Result<Image, Answer>
    ensures admitted { IfOk result (λ i. IsAdmitted bytes.now i) }
    ensures sound { IfOk result (λ i. IsSound (device_of i)) }
    ensures refused { IfErr result (λ a. IsNotLoaded bytes.now a) }
{
    let raw = match read_image(alloc, bytes) {
        Ok(raw) => raw,
        Err(error) => return Err(without_image(error)),
    };
    match verify(alloc, raw) {
        Ok(image) => Ok(image),
        Err((_, error)) => Err(without_verdict(error)),
    }
}

/// A machine with the image that the first file holds, its sensors, and the supply fed with the rows
/// of the power file.
pub fn prepare_image(
    alloc: Global,
    files: &Fetched,
    supply: &mut dyn Supply,
) -> Result<Prepared, Answer>
    ensures ready { IfOk result
        (λ p. IsReadyFor (IsAdmitted files.now.source.items) (bytes_of files.now) (plan supply.old)
        p.machine p.sensors (left supply.new)) }
    ensures refused { IfErr result (λ a. IsNotRun (bytes_of files.now) (plan supply.old) a) }
{
    let image = load(alloc, &files.source)?;
    set_up(alloc, image, files, supply)
}
