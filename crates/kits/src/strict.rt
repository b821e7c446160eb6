// Strict kinds.
ghost use Rattle.kits.specs.Following.{Follows};

use kit::signal::Signal;

// A strict kind on its inputs taken together: unknown if one is unknown, else absent if one is absent, else its rule.
pub(crate) fn strict<A, V, F: FnOnce(A) -> V>(inputs: Signal<A>, rule: F) -> Signal<V>
    requires { F.IsAlwaysCallable rule }
    ensures { Follows (F.post rule) inputs result }
{
    match inputs {
        Signal::Unknown => Signal::Unknown,
        Signal::Absent => Signal::Absent,
        Signal::Present(x) => Signal::Present(rule(x)),
    }
}
