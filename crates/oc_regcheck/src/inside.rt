//! Which statements are inside which blocks.
ghost use Rattle.std.specs.Prelude.{◌≡◌};
ghost use Rattle.std.specs.List.{list_all};
ghost use Rattle.oc_tree.specs.Members.{is_number_of};
ghost use Rattle.oc_regcheck.specs.Code.{is_at, outer, same_place, second_by, share_all};

use crate::blocks::Blocks;
use oc_effects::effects::Effects;
use oc_tree::tree::StmtId;

/// The outermost block around a statement.
pub fn outer(effects: &Effects, blocks: &Blocks, s: StmtId) -> Option<StmtId>
    ensures { result ≡ outer effects.now.program (is_number_of blocks.now) s }
{
    let mut found = None;
    for t in effects.around(s) {
        if blocks.has(*t) {
            found = Some(*t);
        }
    }
    found
}

/// Whether there are both blocks, and they are one.
fn is_same(block: Option<StmtId>, other: Option<StmtId>) -> bool
    ensures { result ≡ same_place block other }
{
    match (block, other) {
        (Some(block), Some(other)) => block == other,
        _ => false,
    }
}

/// Whether this is the outermost block around a statement.
fn is_at(effects: &Effects, blocks: &Blocks, block: Option<StmtId>, s: StmtId) -> bool
    ensures { result ≡ is_at effects.now.program (is_number_of blocks.now) block s }
{
    is_same(block, outer(effects, blocks, s))
}

/// Whether this is the outermost block around each of these statements.
fn all_at(effects: &Effects, blocks: &Blocks, block: Option<StmtId>, sites: &[StmtId]) -> bool
    ensures { result
        ≡ list_all (is_at effects.now.program (is_number_of blocks.now) block) sites.now }
{
    sites.iter().all(|s| is_at(effects, blocks, block, *s))
}

/// Whether one block has all these statements inside.
pub fn share_all(effects: &Effects, blocks: &Blocks, sites: &[StmtId]) -> bool
    ensures { result ≡ share_all effects.now.program (is_number_of blocks.now) sites.now }
{
    match sites {
        [] => false,
        [first, ..] => all_at(effects, blocks, outer(effects, blocks, *first), sites),
    }
}

/// The first of these statements that no block has inside together with another statement.
pub fn second(effects: &Effects, blocks: &Blocks, first: StmtId, sites: &[StmtId]) -> Option<StmtId>
    ensures { result ≡ second_by effects.now.program (is_number_of blocks.now) first sites.now }
{
    let block = outer(effects, blocks, first);
    for s in sites {
        if !is_at(effects, blocks, block, *s) {
            return Some(*s);
        }
    }
    None
}
