//! What hand-written blocks leave open.
ghost use Rattle.std.specs.Prelude.{◌≡◌, ◌∷◌, IfOk};
ghost use Rattle.oc_io.specs.Lines.{line_of};
ghost use Rattle.oc_io.specs.Faults.{Puts};
ghost use Rattle.oc_command.specs.Gaps.{gap_line, gap_of, needed_lines};

use crate::names::{function_name, line_at, policy_name};
use itoa::Buffer;
use oc_effects::effects::Effects;
use oc_io::pieces::put_pieces;
use oc_io::sink::{Sink, SinkFault};
use oc_tree::marked::{Policy, PolicyKind};
use oc_tree::name::Name;
use oc_tree::tree::StmtId;
use std::alloc::{AllocError, Global};

/// Two statements that a policy needs inside one block, where no block has both inside, by the names
/// and lines of the source.
#[derive(Drop)]
pub struct Gap {
    /// What the policy is, by its variable or its number.
    pub kind: PolicyKind,
    /// The policy's function.
    pub owner: Name,
    /// The policy's variable; empty for a consistent set.
    pub variable: Name,
    /// The line of the one statement.
    pub first: u32,
    /// The line of the other.
    pub second: u32,
    /// The function in which they stand.
    pub function: Name,
}

/// A name with these bytes.
fn make_name(alloc: Global, bytes: &[u8]) -> Result<Name, AllocError>
    ensures { IfOk result (λ n. n ≡ bytes.now) }
{
    Ok(Name::new(Vec::from_slice(alloc, bytes)?))
}

/// The gap of a policy between two statements of a function.
pub fn gap_of(
    alloc: Global,
    effects: &Effects,
    policy: Policy,
    function: u32,
    first: StmtId,
    second: StmtId,
) -> Result<Gap, AllocError>
    ensures { IfOk result
        (λ g. g ≡ gap_of effects.now.program policy function first second) }
{
    let program = effects.checked().program();
    Ok(Gap {
        kind: policy.kind,
        owner: make_name(alloc, function_name(program, policy.function))?,
        variable: make_name(alloc, policy_name(program, policy))?,
        first: line_at(effects, first),
        second: line_at(effects, second),
        function: make_name(alloc, function_name(program, function))?,
    })
}

/// Writes the line of a gap that begins with these words, behind which this names the policy of its
/// function.
fn put_needed<'a, E: Sink>(
    before: &'a [u8],
    policy: &'a [u8],
    gap: &'a Gap,
    sink: &mut E,
) -> Result<(), SinkFault>
    ensures { Puts E.took E.faults sink.old
        (line_of (before.now ∷ gap.now.owner ∷ policy.now ∷ needed_lines gap.now)) sink.new result }
{
    let mut first = Buffer::new();
    let mut second = Buffer::new();
    let first = first.format(gap.first).as_bytes();
    let second = second.format(gap.second).as_bytes();
    put_pieces(
        sink,
        &[
            before,
            b" ",
            gap.owner.bytes(),
            b" ",
            policy,
            b" needs lines ",
            first,
            b" and ",
            second,
            b" in ",
            gap.function.bytes(),
            b"\n",
        ],
    )
}

/// Writes the line of a gap.
pub fn put_gap<E: Sink>(gap: &Gap, sink: &mut E) -> Result<(), SinkFault>
    ensures { Puts E.took E.faults sink.old (gap_line gap.now) sink.new result }
{
    match gap.kind {
        PolicyKind::Fresh { .. } => {
            put_needed(
                b"ocelot: not covered: fresh",
                gap.variable.bytes(),
                gap,
                sink,
            )
        }
        PolicyKind::Consistent { id } => {
            let mut digits = Buffer::new();
            let set = digits.format(id).as_bytes();
            put_needed(b"ocelot: not covered: consistent", set, gap, sink)
        }
    }
}
