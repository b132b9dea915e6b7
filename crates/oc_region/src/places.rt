//! Where statements stand, by their numbers.
ghost use Rattle.std.specs.Prelude.{◌≡◌, Some};
ghost use Rattle.oc_tree.specs.Places.{block_of};
ghost use Rattle.oc_tree.specs.Checked.{same_block};
ghost use Rattle.oc_tree.specs.Marked.{covers, is_in_region};
ghost use Rattle.oc_region.specs.Smallest.{common_block, in_block};
ghost use Rattle.oc_region.specs.Views.{all_in_block, block_holding, is_within, stretch_view};

use crate::range::Stretch;
use oc_effects::effects::Effects;
use oc_tree::tree::{BlockId, StmtId};

/// Whether a statement stands directly in a block.
pub fn is_in_block(effects: &Effects, s: StmtId, block: BlockId) -> bool
    ensures { result ≡ same_block (block_of effects.now.program s) (Some block) }
{
    match effects.block_of(s) {
        Some(own) => own == block,
        None => false,
    }
}

/// Whether a statement stands directly in a range.
fn is_in(effects: &Effects, r: Stretch, s: StmtId) -> bool
    ensures { result ≡ is_in_region effects.now.program (stretch_view r) s }
{
    r.range.first <= s && s <= r.range.last && is_in_block(effects, s, r.range.block)
}

/// Whether a statement stands inside a statement of a range.
pub fn is_within(effects: &Effects, r: Stretch, s: StmtId) -> bool
    ensures { result ≡ is_within effects.now.program (stretch_view r) s }
{
    for t in effects.around(s) {
        if is_in(effects, r, *t) {
            return true;
        }
    }
    false
}

/// Whether a statement stands in a range, or in a statement of it.
pub fn covers(effects: &Effects, r: Stretch, s: StmtId) -> bool
    ensures { result ≡ covers effects.now.program (stretch_view r) s }
{
    is_in(effects, r, s) || is_within(effects, r, s)
}

/// The statement directly in a block that is `s`, or in which `s` stands.
pub fn in_block(effects: &Effects, block: BlockId, s: StmtId) -> Option<StmtId>
    ensures { result ≡ in_block effects.now.program block s }
{
    if is_in_block(effects, s, block) {
        return Some(s);
    }
    for t in effects.around(s) {
        if is_in_block(effects, *t, block) {
            return Some(*t);
        }
    }
    None
}

/// Whether all these statements stand in a block.
fn all_in_block(effects: &Effects, sites: &[StmtId], block: BlockId) -> bool
    ensures { result ≡ all_in_block effects.now.program sites.now block }
{
    for s in sites {
        if in_block(effects, block, *s).is_none() {
            return false;
        }
    }
    true
}

/// The block of a statement, if all these stand in it.
fn block_holding(effects: &Effects, sites: &[StmtId], s: StmtId) -> Option<BlockId>
    ensures { result ≡ block_holding effects.now.program sites.now s }
{
    let block = effects.block_of(s)?;
    if all_in_block(effects, sites, block) {
        Some(block)
    } else {
        None
    }
}

/// The innermost block in which all these statements stand.
pub fn common_block(effects: &Effects, sites: &[StmtId]) -> Option<BlockId>
    ensures { result ≡ common_block effects.now.program sites.now }
{
    let (first, others) = sites.split_first()?;
    if let Some(block) = block_holding(effects, others, *first) {
        return Some(block);
    }
    for t in effects.around(*first) {
        if let Some(block) = block_holding(effects, others, *t) {
            return Some(block);
        }
    }
    None
}
