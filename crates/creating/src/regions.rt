ghost use Rattle.std.specs.Prelude.{◌≡◌, ◌+◌, ◌≤◌, ◌++◌, map, replicate, vec_len};
ghost use Rattle.ir.specs.Limits.{limits};
ghost use Rattle.model.specs.Model.{new_region};
ghost use Rattle.rows.specs.Counts.{listed_blocks};
ghost use Rattle.rows.specs.Of.{region_model};

use book::table::Table;
use ir::limits::MAX_REGIONS;
use rows::region::Region;

// n regions of one owner
pub fn add_regions(regions: &mut Table<Region, MAX_REGIONS>, owner: usize, n: usize)
    requires { vec_len regions.old.rows + n ≤ limits.regions }
    ensures rows { map region_model regions.new.rows.items ≡ map region_model regions.old.rows.items ++ replicate n (new_region owner) }
    ensures len { vec_len regions.new.rows ≡ vec_len regions.old.rows + n }
    ensures listed { listed_blocks regions.new.rows.items ≡ listed_blocks regions.old.rows.items }
{
    for _i in 0..n {
        let at = regions.add();
        regions.rows[at].fill(owner);
    }
}
