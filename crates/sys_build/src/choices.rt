//! The filters by which queries choose.
ghost use Rattle.std.specs.Prelude.{◌≡◌, All, IfOk, map};
ghost use Rattle.sys_build.specs.Setups.{choices_of};
ghost use Rattle.conf_system.specs.Coded.{HasCode, CanRunOver};
ghost use Rattle.conf_system.specs.Seen.{filter_says, system_of};

use attrs::Judge;
use bits_ip::OutOfMemory;
use conf_system::{Code, Passes, System};
use filt_meaning::TFilter;
use std::alloc::Global;

/// The filters that have names, by their numbers, and behind them conditions.
pub(crate) fn choices<'a>(
    alloc: Global,
    system: &'a System,
    code: &'a Code<'a>,
    conditions: &'a [TFilter],
) -> Result<Vec<Passes<'a>>, OutOfMemory>
    requires code { HasCode system.now code.now }
    requires before { All (CanRunOver system.now) conditions.now }
    ensures { IfOk result (λ choices. map (⟦<Passes<'a> as Judge>⟧.verdict) choices.items
        ≡ choices_of (system_of system.now) (map (filter_says system.now) conditions.now)) }
{
    let mut choices = filters(alloc, system, code)?;
    for condition in conditions {
        choices.push(system.filter(alloc, code, condition)?)?;
    }
    Ok(choices)
}

/// The filters that have names, by their numbers.
fn filters<'a>(
    alloc: Global,
    system: &'a System,
    code: &'a Code<'a>,
) -> Result<Vec<Passes<'a>>, OutOfMemory>
    requires { HasCode system.now code.now }
    ensures { IfOk result (λ filters. map (⟦<Passes<'a> as Judge>⟧.verdict) filters.items
        ≡ map (λ filter. filter.1) (system_of system.now).filters) }
{
    let mut filters = Vec::new(alloc);
    for number in 0..system.filter_count() {
        filters.push(system.numbered(alloc, code, number))?;
    }
    Ok(filters)
}
