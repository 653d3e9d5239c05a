//! The limits on the size of an input, by whether the command line has `--large`.

ghost use Rattle.std.specs.Prelude.{◌≡◌};
ghost use Rattle.node_main.specs.ReadLimits.{limits_by};

use dimacs::Limits;

/// The large limits if they are asked for, else the written ones.
pub fn read_limits(large: bool) -> Limits
    ensures { result ≡ limits_by large }
{
    if large {
        Limits::large()
    } else {
        Limits::written()
    }
}
