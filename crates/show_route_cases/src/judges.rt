//! The filters of the cases.
ghost use Rattle.std.specs.Prelude.{◌≡◌, IfOk};
ghost use Rattle.show_route_cases.specs.Judges.{with_preference};

use attrs::{Attrs, Judge, Route, Shared, Verdict};
use bits_ip::{OutOfMemory, Prefix};
use std::alloc::Global;

/// Accepts routes from a preference on, and may give them another.
#[derive(Clone, Copy, Drop)]
pub struct Least {
    pub alloc: Global,
    pub least: u32,
    pub given: Option<u32>,
}

impl Judge for Least {
    ghost use Rattle.show_route_cases.specs.Judges.{verdict_of};

    ghost verdict = { λ judge _ route. verdict_of judge.least judge.given route };

    fn judge(&self, _net: &Prefix, route: &Route) -> Result<Verdict, OutOfMemory> {
        if self.least <= route.attrs.pref {
            Ok(Verdict::Accept(with_preference(self.alloc, self.given, &route.attrs)?))
        } else {
            Ok(Verdict::Reject(None))
        }
    }
}

fn with_preference(
    alloc: Global,
    given: Option<u32>,
    attrs: &Shared<Attrs>,
) -> Result<Shared<Attrs>, OutOfMemory>
    ensures { IfOk result (λ changed. changed ≡ with_preference given attrs.now) }
{
    let Some(pref) = given else {
        return attrs.share();
    };
    let mut changed = attrs.copy()?;
    changed.pref = pref;
    Ok(Shared::new(alloc, changed)?)
}
