// The moment by which the rules are read.
ghost use Rattle.std.specs.Prelude.{◌≡◌, ◌≤◌, false, IfOk, IfErr};
ghost use Rattle.cmd_expire.specs.Faults.{ClockHalts};
ghost use Rattle.cmd_expire.specs.Pruning.{counts_days, ShowsMoment};

use crate::fault::ExpireCommandFault;
use base_devices::Clock;
use cmd_types::{Halt, Object, halted};
use expire_rules::{FullRule, Rules};

/// The present second where the rules count days; else 0, and the clock isn't asked.
pub(crate) fn moment_for<C: Clock>(
    clock: &mut C,
    rules: &Rules,
) -> Result<u64, Halt<ExpireCommandFault>>
    ensures known { IfOk result (ShowsMoment rules.now.full (C.state clock.old) (C.state clock.new)) }
    ensures unread { counts_days rules.now.full ≡ false → clock.new ≡ clock.old }
    ensures later { (C.state clock.old).faults ≤ (C.state clock.new).faults }
    ensures least { (C.state clock.old).least ≤ (C.state clock.new).least }
    ensures cause { IfErr result (ClockHalts (C.state clock.old) (C.state clock.new)) }
{
    match rules.full {
        FullRule::Unset | FullRule::Count(_) => Ok(0),
        FullRule::Days(_) => match clock.now() {
            Ok(second) => Ok(second),
            Err(error) => Err(halted(Object::Clock, error)),
        },
    }
}
