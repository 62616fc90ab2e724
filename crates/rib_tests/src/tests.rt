ghost use Rattle.std.specs.Prelude.{◌≡◌, ◌≤◌, IfOk};

use crate::{Step, change_of, net, new_route, play};
use attrs::{Change, Row, Select};
use bits_ip::{Addr, Family};
use rib::{Outcome, Prospect, Rib};
use std::alloc::Global;
use std::process::Abort;
use std::test::Fail;

const TEN: u32 = 0x0A00_0000;

const TEN_ONE: u32 = 0x0A01_0000;

const TEN_ONE_TWO: u32 = 0x0A01_0200;

const MOVED: Outcome = Outcome::Changed { moved: true };

const BEHIND: Outcome = Outcome::Changed { moved: false };

fn add(number: u32, len: u8, num: u32, pref: u32) -> Step {
    Step {
        number,
        len,
        num,
        pref: Some(pref),
    }
}

fn del(number: u32, len: u8, num: u32) -> Step {
    Step {
        number,
        len,
        num,
        pref: None,
    }
}

/// A net's address and length, and the source and the preference of a route of it.
type Line = (u32, u8, u32, u32);

/// The routes of rows.
fn lines(alloc: Global, rows: &[Row]) -> Result<Vec<Line>, Fail> {
    let mut lines = Vec::new(alloc);
    for row in rows {
        let number = match row.net.addr() {
            Addr::V4(number) => number,
            Addr::V6(_) => 0,
        };
        for route in row.routes.as_slice() {
            lines.push((number, row.net.len(), route.src.num, route.attrs.pref))?;
        }
    }
    Ok(lines)
}

/// The addresses and lengths of nets of rows.
fn nets(alloc: Global, rows: &[Row]) -> Result<Vec<(u32, u8)>, Fail> {
    let mut nets = Vec::new(alloc);
    for (number, len, _, _) in lines(alloc, rows)? {
        nets.push((number, len))?;
    }
    Ok(nets)
}

// The tests hand tables on by reference: what holds one is dear to prove, once for each way out.

/// All routes of a table.
fn all_lines(alloc: Global, table: &Rib) -> Result<Vec<Line>, Fail> {
    lines(alloc, &table.select(&Select::All)?)
}

/// All routes of a table that is given up.
fn last_lines(alloc: Global, table: Rib) -> Result<Vec<Line>, Fail> {
    lines(alloc, &table.into_rows()?)
}

/// A table behind these steps.
fn table_of(rt: &impl Abort, alloc: Global, steps: &[Step]) -> Result<Rib, Fail>
    ensures { IfOk result (λ table. table.family ≡ Family.V4) }
{
    let mut table = Rib::make(alloc, Family::V4);
    assert!(rt; play(alloc, &mut table, steps).is_some());
    Ok(table)
}

/// What steps on an empty table answer, and the routes behind them.
fn played(alloc: Global, steps: &[Step]) -> Result<(Vec<Outcome>, Vec<Line>), Fail> {
    let mut table = Rib::make(alloc, Family::V4);
    let outcomes = play(alloc, &mut table, steps).ok_or("a step wasn't taken")?;
    let lines = all_lines(alloc, &table)?;
    Ok((outcomes, lines))
}

fn assert_lines(rt: &impl Abort, lines: &[Line], want: &[Line]) {
    assert_eq!(rt; lines, want);
}

#[test]
fn rows_are_in_the_order_of_nets_and_of_selection(rt: HostRuntime) -> Result<(), Fail> {
    let alloc = rt.alloc();
    let steps = [
        add(TEN_ONE, 16, 1, 100),
        add(TEN, 16, 2, 100),
        add(TEN, 8, 3, 100),
        add(TEN, 8, 2, 200),
        add(TEN, 8, 1, 100),
    ];
    let table = table_of(&rt, alloc, &steps)?;
    let want = [
        (TEN, 8, 2, 200),
        (TEN, 8, 1, 100),
        (TEN, 8, 3, 100),
        (TEN, 16, 2, 100),
        (TEN_ONE, 16, 1, 100),
    ];
    assert_eq!(rt; table.total(), 5);
    assert_lines(&rt, &all_lines(alloc, &table)?, &want);
    assert_lines(&rt, &last_lines(alloc, table)?, &want);
    Ok(())
}

#[test]
fn a_change_tells_what_it_did(rt: HostRuntime) -> Result<(), Fail> {
    let steps = [
        del(TEN, 8, 1),
        add(TEN, 8, 1, 100),
        add(TEN, 8, 2, 100),
        add(TEN, 8, 2, 100),
        add(TEN, 8, 2, 90),
        add(TEN, 8, 1, 95),
        add(TEN, 8, 2, 110),
    ];
    let (outcomes, lines) = played(rt.alloc(), &steps)?;
    let same = Outcome::Same;
    let want = [same, MOVED, BEHIND, same, BEHIND, MOVED, MOVED];
    assert_eq!(rt; outcomes.as_slice(), want.as_slice());
    assert_lines(&rt, &lines, &[(TEN, 8, 2, 110), (TEN, 8, 1, 95)]);
    Ok(())
}

#[test]
fn a_table_may_be_emptied(rt: HostRuntime) -> Result<(), Fail> {
    let steps = [
        add(TEN, 8, 2, 110),
        add(TEN, 8, 1, 95),
        del(TEN, 8, 1),
        del(TEN, 8, 2),
    ];
    let (outcomes, lines) = played(rt.alloc(), &steps)?;
    let want = [MOVED, BEHIND, BEHIND, MOVED];
    assert_eq!(rt; outcomes.as_slice(), want.as_slice());
    assert_eq!(rt; lines.len(), 0);
    Ok(())
}

/// A table of four nets, each with one route.
fn four_nets(rt: &impl Abort, alloc: Global) -> Result<Rib, Fail>
    ensures { IfOk result (λ table. table.family ≡ Family.V4) }
{
    let steps = [
        add(TEN, 8, 1, 100),
        add(TEN_ONE_TWO, 24, 1, 100),
        add(0, 0, 1, 100),
        add(TEN_ONE, 16, 1, 100),
    ];
    table_of(rt, alloc, &steps)
}

/// The nets of the rows that are selected.
fn selected(alloc: Global, table: &Rib, pick: &Select) -> Result<Vec<(u32, u8)>, Fail> {
    nets(alloc, &table.select(pick)?)
}

fn assert_selects(
    rt: &impl Abort,
    alloc: Global,
    table: &Rib,
    pick: &Select,
    want: &[(u32, u8)],
) -> Result<(), Fail> {
    assert_eq!(rt; selected(alloc, table, pick)?.as_slice(), want);
    Ok(())
}

/// The longest cover, which may be the net itself.
fn assert_longest_covers(rt: &impl Abort, alloc: Global, table: &Rib) -> Result<(), Fail> {
    let cases = [
        (TEN_ONE_TWO + 3, 32, (TEN_ONE_TWO, 24)),
        (TEN_ONE + 0x0909, 32, (TEN_ONE, 16)),
        (TEN_ONE, 16, (TEN_ONE, 16)),
        (0x0B00_0001, 32, (0, 0)),
    ];
    for (number, len, want) in cases {
        let pick = Select::For(net(number, len)?);
        assert_selects(rt, alloc, table, &pick, &[want])?;
    }
    Ok(())
}

fn assert_exact_and_within(rt: &impl Abort, alloc: Global, table: &Rib) -> Result<(), Fail> {
    let pick = Select::Exact(net(TEN, 8)?);
    assert_selects(rt, alloc, table, &pick, &[(TEN, 8)])?;
    let pick = Select::Exact(net(TEN, 16)?);
    assert_selects(rt, alloc, table, &pick, &[])?;
    let pick = Select::Within(net(TEN_ONE, 16)?);
    let want = [(TEN_ONE, 16), (TEN_ONE_TWO, 24)];
    assert_selects(rt, alloc, table, &pick, &want)?;
    let pick = Select::Within(net(TEN_ONE_TWO, 24)?);
    assert_selects(rt, alloc, table, &pick, &[(TEN_ONE_TWO, 24)])?;
    let pick = Select::Within(net(TEN_ONE_TWO, 25)?);
    assert_selects(rt, alloc, table, &pick, &[])
}

#[test]
fn rows_are_selected_by_their_nets(rt: HostRuntime) -> Result<(), Fail> {
    let alloc = rt.alloc();
    let table = four_nets(&rt, alloc)?;
    assert_longest_covers(&rt, alloc, &table)?;
    assert_exact_and_within(&rt, alloc, &table)
}

#[test]
fn no_cover_selects_no_row(rt: HostRuntime) -> Result<(), Fail> {
    let alloc = rt.alloc();
    let table = table_of(&rt, alloc, &[add(TEN, 8, 1, 100)])?;
    let pick = Select::For(net(0x0B00_0001, 32)?);
    assert_selects(&rt, alloc, &table, &pick, &[])
}

/// What a change of 10.0.0.0 of this length would do: nothing, or leave a best of this preference.
fn prospect(
    alloc: Global,
    table: &Rib,
    len: u8,
    num: u32,
    pref: Option<u32>,
) -> Result<Option<Option<u32>>, Fail> {
    let change = Change {
        net: net(TEN, len)?,
        num,
        new: new_route(alloc, num, pref),
    };
    Ok(match table.prospect(&change)? {
        Prospect::Same => None,
        Prospect::Changes { best: Some(route) } => Some(Some(route.attrs.pref)),
        Prospect::Changes { best: None } => Some(None),
    })
}

/// The preference of the best of 10.0.0.0 of this length.
fn best_of(table: &Rib, len: u8) -> Result<Option<u32>, Fail> {
    Ok(match table.copy_best(&net(TEN, len)?)? {
        Some(route) => Some(route.attrs.pref),
        None => None,
    })
}

#[test]
fn a_change_to_what_stands_would_do_nothing(rt: HostRuntime) -> Result<(), Fail> {
    let alloc = rt.alloc();
    let table = table_of(&rt, alloc, &[add(TEN, 8, 1, 100), add(TEN, 8, 2, 90)])?;
    // The length, the source and its new preference, and whether it stands.
    let cases = [
        (8, 1, Some(100), true),
        (8, 1, Some(90), false),
        (8, 1, None, false),
        (8, 2, Some(90), true),
        (8, 2, Some(100), false),
        (8, 3, Some(100), false),
        (8, 3, None, true),
        (16, 1, Some(100), false),
        (16, 1, None, true),
    ];
    for (len, num, pref, want) in cases {
        assert_eq!(rt; prospect(alloc, &table, len, num, pref)?.is_none(), want);
    }
    Ok(())
}

#[test]
fn the_best_is_told_before_a_change(rt: HostRuntime) -> Result<(), Fail> {
    let alloc = rt.alloc();
    let table = table_of(&rt, alloc, &[add(TEN, 8, 1, 100), add(TEN, 8, 2, 90)])?;
    // The source, its new preference, and the preference of the best then.
    let cases = [
        (1, Some(80), Some(90)),
        (1, None, Some(90)),
        (2, Some(110), Some(110)),
        (2, None, Some(100)),
        (3, Some(95), Some(100)),
        (3, Some(100), Some(100)),
        (3, Some(120), Some(120)),
    ];
    for (num, pref, want) in cases {
        assert_eq!(rt; prospect(alloc, &table, 8, num, pref)?, Some(want));
        assert_eq!(rt; best_of(&table, 8)?, Some(100));
    }
    assert_eq!(rt; best_of(&table, 16)?, None);
    assert_eq!(rt; table.copy_routes(&net(TEN, 16)?)?.len(), 0);
    Ok(())
}

#[test]
fn a_lone_route_comes_and_goes(rt: HostRuntime) -> Result<(), Fail> {
    let alloc = rt.alloc();
    let table = table_of(&rt, alloc, &[add(TEN, 8, 1, 100)])?;
    assert_eq!(rt; prospect(alloc, &table, 8, 1, None)?, Some(None));
    assert_eq!(rt; prospect(alloc, &table, 16, 1, Some(70))?, Some(Some(70)));
    Ok(())
}

/// The nets of the first rows from a net on.
fn next(
    alloc: Global,
    table: &Rib,
    from: Option<(u32, u8)>,
    max: u32,
) -> Result<Vec<(u32, u8)>, Fail>
    requires { 1 ≤ max }
{
    let rows = match from {
        Some((number, len)) => table.next_nets(Some(&net(number, len)?), max)?,
        None => table.next_nets(None, max)?,
    };
    nets(alloc, &rows)
}

fn assert_parts(rt: &impl Abort, alloc: Global, table: &Rib) -> Result<(), Fail> {
    let first = next(alloc, table, None, 3)?;
    assert_eq!(rt;
        first.as_slice(),
        [(0, 0), (TEN, 8), (TEN_ONE, 16)].as_slice()
    );
    let more = next(alloc, table, Some((TEN_ONE, 16)), 3)?;
    assert_eq!(rt;
        more.as_slice(),
        [(TEN_ONE, 16), (TEN_ONE_TWO, 24)].as_slice()
    );
    let between = next(alloc, table, Some((TEN, 16)), 1)?;
    assert_eq!(rt; between.as_slice(), [(TEN_ONE, 16)].as_slice());
    assert_eq!(rt; next(alloc, table, Some((0x0B00_0000, 8)), 1)?.len(), 0);
    Ok(())
}

#[test]
fn nets_are_given_in_parts(rt: HostRuntime) -> Result<(), Fail> {
    let alloc = rt.alloc();
    let table = four_nets(&rt, alloc)?;
    assert_parts(&rt, alloc, &table)
}

fn reserve_at(alloc: Global, table: &mut Rib, len: u8) -> Result<(), Fail> {
    let change = change_of(alloc, net(TEN_ONE, len)?, 1, 100)?;
    table.reserve(&change)?;
    Ok(())
}

fn reserve_three(alloc: Global, table: &mut Rib) -> Result<(), Fail> {
    for len in [17, 18, 16] {
        reserve_at(alloc, table, len)?;
    }
    Ok(())
}

fn assert_four(rt: &impl Abort, alloc: Global, table: &Rib) -> Result<(), Fail> {
    assert_eq!(rt; table.len(), 4);
    assert_eq!(rt; table.total(), 4);
    let (third, routes) = table.row(2);
    assert_eq!(rt; (third.len(), routes.len()), (16, 1));
    assert_eq!(rt; next(alloc, table, None, 9)?.len(), 4);
    Ok(())
}

/// Room that isn't used leaves no net behind.
#[test]
fn room_alone_adds_no_net(rt: HostRuntime) -> Result<(), Fail> {
    let alloc = rt.alloc();
    let mut table = four_nets(&rt, alloc)?;
    reserve_three(alloc, &mut table)?;
    assert_four(&rt, alloc, &table)
}
