ghost use Rattle.std.specs.Prelude.{◌≡◌};
ghost use Rattle.conf_system.specs.Seen.{IsRuleNeverStuck, rule_says};

use crate::code::Code;
use attrs::{Judge, Names, Route, Verdict};
use bits_ip::{OutOfMemory, Prefix};
use filt_code::Draft;
use filt_vm::run;
use std::alloc::Global;
use std::marker::Model;

/// What a judge goes by.
#[derive(Drop)]
pub(crate) enum Rule<'a> {
    /// Each route is accepted.
    All,
    /// None is.
    None,
    /// What this code of a filter by name says.
    Filter(&'a Draft<'a>),
    /// What this code says.
    Own(Draft<'a>),
}

/// A policy, a filter by name or a condition, as one that judges routes by its code, which is never
/// stuck (BIRD User's Guide, "Channel options", `import` and `export`, and "Remote control",
/// `show route`).
#[derive(Drop)]
pub struct Passes<'a> {
    alloc: Global,
    code: &'a Code<'a>,
    names: &'a Names,
    rule: Rule<'a>,
}

impl<'a> Model for Passes<'a> {
    ghost use Rattle.std.specs.Coded.{codes};
    ghost use Rattle.filt_meaning.specs.contracts.tree.TStmt as trees;
    ghost use Rattle.conf_system.specs.Seen.{IsRuleNeverStuck, Judging};

    ghost Value = { Judging };

    ghost coded = { Prim.hlevel (codes, trees.the_row.coded) };

    ghost view = { λ p. record {
      functions = p.code.now.functions.items;
      names = p.names.now;
      rule = p.rule;
    } };

    ghost invariant = { λ p. IsRuleNeverStuck p.code.now.functions.items p.rule };
}

impl<'a> Passes<'a> {
    /// The judge by a rule, over the code of the functions, with the names of the protocols.
    pub(crate) fn new(
        alloc: Global,
        code: &'a Code<'a>,
        names: &'a Names,
        rule: Rule<'a>,
    ) -> Passes<'a>
        requires { IsRuleNeverStuck code.now.functions.items rule }
        ensures { ⟦<Passes<'a> as Judge>⟧.verdict result
            ≡ rule_says code.now.functions.items names.now rule.entry }
    {
        Passes {
            alloc,
            code,
            names,
            rule,
        }
    }
}

impl Judge for Passes<'_> {
    ghost use Rattle.conf_system.specs.Seen.{rule_says};

    ghost verdict = { λ p net route. rule_says p.functions p.names p.rule net route };

    fn judge(&self, net: &Prefix, route: &Route) -> Result<Verdict, OutOfMemory> {
        let functions = self.code.functions.as_slice();
        match &self.rule {
            Rule::All => Ok(Verdict::Accept(route.attrs.share()?)),
            Rule::None => Ok(Verdict::Reject(None)),
            Rule::Filter(draft) => run(self.alloc, draft, functions, self.names, net, route),
            Rule::Own(draft) => run(self.alloc, draft, functions, self.names, net, route),
        }
    }
}
