//! The regions that begin and end with statements.
ghost use Rattle.std.specs.Prelude.{◌≡◌, map};
ghost use Rattle.oc_tree.specs.Regions.{region_view};
ghost use Rattle.oc_meaning.specs.Exec.{begun_by, ended_by};

use oc_tree::marked::Region;
use oc_tree::tree::StmtId;

/// The region that begins with a statement.
pub fn begun_by(regions: &[Region], n: StmtId) -> Option<u32>
    ensures { result ≡ begun_by (map region_view regions.now) n }
{
    for region in regions {
        if n == region.range.first {
            return Some(region.id);
        }
    }
    None
}

/// The region that ends with a statement.
pub fn ended_by(regions: &[Region], n: StmtId) -> Option<u32>
    ensures { result ≡ ended_by (map region_view regions.now) n }
{
    for region in regions {
        if n == region.range.last {
            return Some(region.id);
        }
    }
    None
}
