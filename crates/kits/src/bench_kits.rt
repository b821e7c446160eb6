// The kits of the two benches, each by its name: a generic maker would leave the second kit to be named by its caller.
ghost use Rattle.std.specs.Prelude.{◌≡◌};
ghost use Rattle.kit.specs.Orderly.{Orderly};
ghost use Rattle.kits.specs.Common.{common};
ghost use Rattle.kits.specs.Number.{number};
ghost use Rattle.kits.specs.Switch.{switch};

use crate::common::CommonKit;
use crate::number::NumberKit;
use crate::switch::SwitchKit;
use kit::joined::Joined;

pub type NumberBenchKit = Joined<CommonKit, NumberKit>;

pub type SwitchBenchKit = Joined<CommonKit, SwitchKit>;

// Common joined with number.
pub fn number_bench_kit() -> NumberBenchKit
    ensures { result ≡ record { first = record {}; second = record {} } }
{
    Joined {
        first: CommonKit,
        second: NumberKit,
    }
}

// Common joined with switch.
pub fn switch_bench_kit() -> SwitchBenchKit
    ensures { result ≡ record { first = record {}; second = record {} } }
{
    Joined {
        first: CommonKit,
        second: SwitchKit,
    }
}

// Beside the two laws the three kits keep to their kinds, their ports and their inputs.
pub fn kits_are_orderly<V>()
    ensures of_common { Orderly (common {V = V}) }
    ensures of_number { Orderly number }
    ensures of_switch { Orderly switch }
{}
