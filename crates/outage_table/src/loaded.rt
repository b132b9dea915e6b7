//! Machines for sound images, and their runs.
ghost use Rattle.std.specs.Prelude.{◌<◌, ◌≡◌, ◌^◌, IfOk};
ghost use Rattle.oc_isa.specs.Power.{first_state};
ghost use Rattle.oc_isa.specs.Run.{IsSound};
ghost use Rattle.oc_isa.specs.Table.{device_of};
ghost use Rattle.oc_power.specs.Total.{total};

use anyhow::bail;
use oc_io::sink::Sink;
use oc_machine::machine::Machine;
use oc_power::supply::Supply;
use oc_sensors::file::read_sensors;
use oc_verify::{read_image, verify};
use std::alloc::Global;

/// A machine for the image of these hexadecimal digits, before its first period.
pub fn load(alloc: Global, digits: &str) -> anyhow::Result<Machine>
    ensures new { IfOk result (λ m. m.state ≡ first_state (device_of m.parts)) }
    ensures sound { IfOk result (λ m. IsSound (device_of m.parts)) }
{
    let bytes = hex::decode(alloc, digits)?;
    let Ok(raw) = read_image(alloc, &bytes) else {
        bail!("no image");
    };
    let Ok(image) = verify(alloc, raw) else {
        bail!("no sound image");
    };
    Ok(Machine::load(alloc, image)?)
}

/// Runs a machine over a sensor file and what a supply has left, and writes its report.
pub fn put_report<O: Sink>(
    alloc: Global,
    machine: &mut Machine,
    sensors: &[u8],
    supply: &mut dyn Supply,
    out: &mut O,
) -> anyhow::Result<()>
    requires new { machine.old.state ≡ first_state (device_of machine.old.parts) }
    requires sound { IsSound (device_of machine.old.parts) }
    requires sum { total (left supply.old) < 2 ^ 63 }
{
    let names = &machine.image().raw().names;
    let mut sensors = read_sensors(alloc, sensors, &names.sensors)?;
    machine.run(&mut sensors, supply, out);
    Ok(())
}
