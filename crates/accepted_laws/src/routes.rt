ghost use Rattle.filt_steps.specs.Limits.{AttrsAreWithin};

use attrs::Route;

/// The lists of a route in memory are within the limits that the law of steps asks for.
pub fn lists_of_routes_are_within_limits(route: &Route)
    ensures { AttrsAreWithin route.now.attrs }
{
    let attrs = &*route.attrs;
    let _path = attrs.path.as_slice();
    let _coms = attrs.coms.as_slice();
}
