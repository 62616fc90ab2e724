//! The filter of a configuration over routes, again and again: how many it accepted.
//!
//! A case is `CONFIG NUMBER`, the configuration's file and how many rounds there are. A round goes
//! over 256 routes, of 10.0.0.0/24 to 10.0.255.0/24, alike but for the net, the MED, the last
//! number of the path and the community, which count them.
ghost use Rattle.std.specs.Prelude.{◌<◌, ◌^◌, ◌-◌, length};
ghost use Rattle.conf_system.specs.Coded.{AllCanRun, HasCode};
ghost use Rattle.conf_system.specs.Seen.{system_of};

use crate::faults::{bad, no_memory};
use attrs::{Judge, Route, Verdict};
use bits_ip::{Prefix, parse_decimal};
use case_routes::read_route;
use conf_system::{Code, System, read_system};
use std::alloc::Global;
use std::{fs, io, str};

/// How many routes there are.
const ROUTES: u16 = 256;

/// The longest configuration, in bytes.
const LONGEST: usize = 1 << 24;

fn route(alloc: Global, index: u16) -> io::Result<(Prefix, Route)> {
    let last = 65100 + u32::from(index);
    let words = format!(in alloc;
        "10.0.{index}.0/24 path 65001 65002 65003 {last} med {index} com 65000:{index} 65001:1"
    )?;
    read_route(alloc, words.as_bytes())
}

fn routes(alloc: Global) -> io::Result<Vec<(Prefix, Route)>> {
    let mut routes = Vec::new(alloc);
    for index in 0..ROUTES {
        routes.push(route(alloc, index)?)?;
    }
    Ok(routes)
}

/// How many of the routes the filter accepts.
fn round<J: Judge>(judge: &J, routes: &[(Prefix, Route)]) -> io::Result<u64> {
    let mut accepted: u64 = 0;
    for (net, route) in routes {
        if let Verdict::Accept(_) = judge.judge(net, route).map_err(no_memory)? {
            accepted = accepted.saturating_add(1);
        }
    }
    Ok(accepted)
}

/// How many the last filter accepts in so many rounds.
fn counted(
    alloc: Global,
    system: &System,
    code: &Code,
    number: usize,
    rounds: u32,
) -> io::Result<u64>
    requires code { HasCode system.now code.now }
    requires number { number < length (system_of system.now).filters }
{
    let judge = system.numbered(alloc, code, number);
    let routes = routes(alloc)?;
    let mut accepted: u64 = 0;
    for _ in 0..rounds {
        accepted = accepted.saturating_add(round(&judge, &routes)?);
    }
    Ok(accepted)
}

/// How many the last filter of a system accepts in so many rounds.
fn of_last(alloc: Global, system: &System, rounds: u32) -> io::Result<u64>
    requires { AllCanRun system.now }
{
    let code = system.code(alloc).map_err(no_memory)?;
    let filters = system.filter_count();
    if filters == 0 {
        return Err(bad());
    }
    counted(alloc, system, &code, filters - 1, rounds)
}

fn count(alloc: Global, text: &[u8], rounds: u32) -> io::Result<u64>
    requires { length text.now < 2 ^ 32 - 1 }
{
    match read_system(alloc, text) {
        Ok(system) => of_last(alloc, &system, rounds),
        Err(_) => Err(bad()),
    }
}

/// How many routes the last filter of the configuration in a file accepts in so many rounds.
pub fn accepted(rt: &HostRuntime, config: &str, rounds: &str) -> io::Result<u64> {
    let rounds = parse_decimal(rounds.as_bytes()).ok_or(bad())?;
    let text = fs::read(rt, config)?;
    if text.len() > LONGEST {
        return Err(bad());
    }
    count(rt.alloc(), &text, rounds)
}

/// How many routes are accepted.
pub fn answer(rt: &HostRuntime, case: &[u8]) -> io::Result<String> {
    let text = str::from_utf8(case).map_err(|_| bad())?;
    let (config, rounds) = text.split_once(' ').ok_or(bad())?;
    let accepted = accepted(rt, config, rounds)?;
    Ok(format!(in rt.alloc(); "{accepted}")?)
}
