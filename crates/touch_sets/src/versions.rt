//! The two versions of a joint core.

ghost use Rattle.std.specs.Prelude.{◌≡◌};
ghost use Rattle.core_ir.specs.Joint.{core_of};
ghost use Rattle.touch_sets.specs.Touching.{side_of};

use core_ir::{Core, JointCore};

/// The old version, or the new one.
pub fn version(core: &JointCore, old_side: bool) -> &Core
    ensures { result.now ≡ core_of core.now (side_of old_side) }
{
    if old_side {
        return &core.old;
    }
    &core.new_side
}
