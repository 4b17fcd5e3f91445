//! Limits of cgroups.
ghost use Rattle.std.specs.Prelude.{◌≡◌};
ghost use Rattle.cg_model.specs.Limits.{is_under};
ghost use Rattle.cg_model.specs.NearestFull.{bars_child};

use cg_cgroup::files::Limit;

/// Whether so many are fewer than a limit allows.
pub fn is_under(count: u64, limit: Limit) -> bool
    ensures { result ≡ is_under count limit }
{
    match limit {
        Limit::Max => true,
        Limit::At(most) => count < most,
    }
}

/// Whether a cgroup with so many below it bars a child of the cgroup so many levels below it, by its two limits.
pub fn bars_child(count: u64, max_descendants: Limit, levels: u64, max_depth: Limit) -> bool
    ensures { result ≡ bars_child count max_descendants levels max_depth }
{
    !(is_under(count, max_descendants) && is_under(levels, max_depth))
}
