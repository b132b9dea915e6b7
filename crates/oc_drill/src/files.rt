//! The three files.
ghost use Rattle.std.specs.Prelude.{◌≡◌, ◌≤◌, ◌<◌, ◌+◌, ◌*◌, ◌++◌, length, IfOk, OnOk};
ghost use Rattle.std.specs.List.{flat_map};
ghost use Rattle.oc_drill.specs.Drill.{drill_power, drill_sensors, drill_source, power_row, sensor_row, turn_limit};

use itoa::Buffer;
use std::alloc::{AllocError, Global};

/// The most turns of a drill.
pub const MOST_TURNS: u32 = 1000;

/// Adds pieces to a text.
fn add(text: &mut Vec<u8>, pieces: &[&[u8]]) -> Result<(), AllocError>
    ensures { OnOk result
        (text.new.items ≡ text.old.items ++ flat_map (λ p. p.now) pieces.now) }
{
    for piece in pieces {
        text.extend_from_slice(piece)?;
    }
    Ok(())
}

/// Adds the row of a sample.
fn add_sample(text: &mut Vec<u8>, place: u32) -> Result<(), AllocError>
    requires { place < turn_limit }
    ensures { OnOk result (text.new.items ≡ text.old.items ++ sensor_row place) }
{
    let mut time = Buffer::new();
    let mut value = Buffer::new();
    let time = time.format(100 * place).as_bytes();
    let value = value.format(37 * place % 1000).as_bytes();
    add(text, &[time, b",s,", value, b"\n"])
}

/// Adds the row of a period.
fn add_period(text: &mut Vec<u8>, place: u32) -> Result<(), AllocError>
    requires { place < 24 * turn_limit + 8 }
    ensures { OnOk result (text.new.items ≡ text.old.items ++ power_row place) }
{
    let mut on = Buffer::new();
    let mut off = Buffer::new();
    let on = on.format(40 + 13 * place % 30).as_bytes();
    let off = off.format(place % 7).as_bytes();
    add(text, &[on, b",", off, b"\n"])
}

/// The source of a drill of so many turns.
pub fn source(alloc: Global, turns: u32) -> Result<Vec<u8>, AllocError>
    requires { turns ≤ turn_limit }
    ensures text { IfOk result (λ v. v.items ≡ drill_source turns) }
    ensures within { IfOk result (λ v. length v.items ≤ 200) }
{
    let mut number = Buffer::new();
    let number = number.format(turns).as_bytes();
    let head = b"sensor s; port p; nv n: i32 = 0; fn main() { for i in 0..";
    let body = b" { let x = sense(s); Fresh(x); n = n + x; emit(p, x); } }";
    let mut text = Vec::new(alloc);
    add(&mut text, &[head, number, body])?;
    Ok(text)
}

/// Its sensor file, which has a sample for each turn.
pub fn sensors(alloc: Global, turns: u32) -> Result<Vec<u8>, AllocError>
    requires { turns ≤ turn_limit }
    ensures { IfOk result (λ v. v.items ≡ drill_sensors turns) }
{
    let mut text = Vec::new(alloc);
    add(&mut text, &[b"time,sensor,value\n"])?;
    for place in 0..turns {
        add_sample(&mut text, place)?;
    }
    Ok(text)
}

/// Its power file, which has 24 periods for each turn, and 8 more.
pub fn power(alloc: Global, turns: u32) -> Result<Vec<u8>, AllocError>
    requires { turns ≤ turn_limit }
    ensures { IfOk result (λ v. v.items ≡ drill_power turns) }
{
    let mut text = Vec::new(alloc);
    add(&mut text, &[b"on,off\n"])?;
    for place in 0..24 * turns + 8 {
        add_period(&mut text, place)?;
    }
    Ok(text)
}
