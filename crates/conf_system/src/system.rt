ghost use Rattle.std.specs.Prelude.{◌≡◌, ◌<◌, ◌^◌, Some, length, map, slice_get, IfOk, IfSome, MatchOption};
ghost use Rattle.std.specs.String.{string_bytes};
ghost use Rattle.conf_system.specs.Coded.{AllCanRun, HasCode, CanRunOver, PolicyCanRun};
ghost use Rattle.conf_system.specs.Conditions.{IsCondition, RefusesCondition};
ghost use Rattle.conf_system.specs.Seen.{IsRuleNeverStuck, filter_says, numbered, policy_says, rule_says};
ghost use Rattle.conf_system.specs.Seen.{system_of};

use crate::code::{Code, constants, drafts, functions, rule_at};
use crate::condition::{answered, expression};
use crate::passes::{Passes, Rule};
use attrs::{Judge, Names};
use bits_ip::OutOfMemory;
use conf_check::{Checked, PolicyDef, ProtocolDef};
use filt_compile::{compile, library};
use filt_meaning::TFilter;
use std::alloc::Global;

/// An accepted configuration with the names of its protocols.
#[derive(Drop)]
pub struct System {
    /// Its tables, filters and protocols, by their numbers.
    pub checked: Checked,
    /// The names of its protocols, by their numbers.
    pub names: Names,
}

impl System {
    /// The code of the configuration's functions, and of its filters by name.
    ///
    /// `OutOfMemory` comes where memory is refused.
    pub fn code<'a>(&'a self, alloc: Global) -> Result<Code<'a>, OutOfMemory>
        requires { AllCanRun self.now }
        ensures { IfOk result (HasCode self.now) }
    {
        let constants = constants(&self.checked.declared.scope);
        let trees = functions(&self.checked.declared.scope);
        let functions = library(alloc, constants, trees)?;
        let filters = drafts(alloc, constants, &functions, &self.checked.filters)?;
        Ok(Code { functions, filters })
    }

    /// What a policy of the configuration says of routes. A filter of its own is compiled.
    pub fn passes<'a>(
        &'a self,
        alloc: Global,
        code: &'a Code<'a>,
        policy: &'a PolicyDef,
    ) -> Result<Passes<'a>, OutOfMemory>
        requires code { HasCode self.now code.now }
        requires before { PolicyCanRun self.now policy.now }
        ensures { IfOk result (λ passes. ⟦<Passes<'a> as Judge>⟧.verdict passes
            ≡ policy_says self.now.checked.declared.scope self.now.checked.filters.items
            self.now.names policy.now) }
    {
        let rule = self.rule(alloc, code, policy)?;
        Ok(Passes::new(alloc, code, &self.names, rule))
    }

    /// The rule of a policy.
    fn rule<'a>(
        &'a self,
        alloc: Global,
        code: &'a Code<'a>,
        policy: &'a PolicyDef,
    ) -> Result<Rule<'a>, OutOfMemory>
        requires code { HasCode self.now code.now }
        requires before { PolicyCanRun self.now policy.now }
        ensures says { IfOk result (λ rule. rule_says code.now.functions.items self.now.names rule
            ≡ policy_says self.now.checked.declared.scope self.now.checked.filters.items
            self.now.names policy.now) }
        ensures never_stuck { IfOk result (IsRuleNeverStuck code.now.functions.items) }
    {
        match policy {
            PolicyDef::All => Ok(Rule::All),
            PolicyDef::None => Ok(Rule::None),
            PolicyDef::Filter(number) => Ok(rule_at(&code.filters, *number)),
            PolicyDef::Own(filter) => self.own(alloc, code, filter),
        }
    }

    /// The rule of a filter, which is compiled.
    fn own<'a>(
        &'a self,
        alloc: Global,
        code: &'a Code<'a>,
        filter: &'a TFilter,
    ) -> Result<Rule<'a>, OutOfMemory>
        requires code { HasCode self.now code.now }
        requires before { CanRunOver self.now filter.now }
        ensures says { IfOk result (λ rule. rule_says code.now.functions.items self.now.names rule
            ≡ filter_says self.now filter.now) }
        ensures never_stuck { IfOk result (IsRuleNeverStuck code.now.functions.items) }
    {
        let constants = constants(&self.checked.declared.scope);
        let draft = compile(alloc, constants, code.functions.as_slice(), filter)?;
        Ok(Rule::Own(draft))
    }

    /// What a filter or a condition, checked behind the configuration, says of routes. It is
    /// compiled.
    pub fn filter<'a>(
        &'a self,
        alloc: Global,
        code: &'a Code<'a>,
        filter: &'a TFilter,
    ) -> Result<Passes<'a>, OutOfMemory>
        requires code { HasCode self.now code.now }
        requires before { CanRunOver self.now filter.now }
        ensures { IfOk result (λ passes. ⟦<Passes<'a> as Judge>⟧.verdict passes
            ≡ filter_says self.now filter.now) }
    {
        let rule = self.own(alloc, code, filter)?;
        Ok(Passes::new(alloc, code, &self.names, rule))
    }

    /// The filter of this number, as one that judges routes; behind the last one none is accepted.
    fn by_number<'a>(&'a self, alloc: Global, code: &'a Code<'a>, number: usize) -> Passes<'a>
        requires { HasCode self.now code.now }
        ensures { ⟦<Passes<'a> as Judge>⟧.verdict result
            ≡ numbered self.now.checked.declared.scope self.now.checked.filters.items
            self.now.names (slice_get self.now.checked.filters.items number) }
    {
        let rule = rule_at(&code.filters, number);
        Passes::new(alloc, code, &self.names, rule)
    }

    /// How many filters have names.
    pub fn filter_count(&self) -> usize
        ensures { result ≡ length (system_of self.now).filters }
    {
        let names = self.checked.declared.filters.len();
        names.min(self.checked.filters.len())
    }

    /// The name of the filter of this number.
    pub fn filter_name(&self, number: usize) -> &[u8]
        requires { number < length (system_of self.now).filters }
        ensures { slice_get (map (λ filter. filter.0) (system_of self.now).filters) number
            ≡ Some result.now }
    {
        match self.checked.declared.filters.get_index(number) {
            Some(name) => name.as_slice(),
            None => unreachable!(),
        }
    }

    /// The filter of this number, as one that judges routes.
    pub fn numbered<'a>(&'a self, alloc: Global, code: &'a Code<'a>, number: usize) -> Passes<'a>
        requires code { HasCode self.now code.now }
        requires number { number < length (system_of self.now).filters }
        ensures { slice_get (map (λ filter. filter.1) (system_of self.now).filters) number
            ≡ Some (⟦<Passes<'a> as Judge>⟧.verdict result) }
    {
        self.by_number(alloc, code, number)
    }

    /// The condition that stands in a text of its own, and nothing where it is refused. It sees
    /// what the whole configuration declares (BIRD User's Guide, "Remote control", `show route`).
    ///
    /// `OutOfMemory` comes where memory is refused.
    pub fn condition(&self, alloc: Global, text: &[u8]) -> Result<Option<TFilter>, OutOfMemory>
        requires short { length text.now < 2 ^ 32 }
        ensures condition { IfOk result (λ answer. MatchOption answer
            (RefusesCondition (system_of self.now) text.now)
            (λ filter. IsCondition (system_of self.now) text.now (filter_says self.now filter))) }
        ensures before { AllCanRun self.now
            → IfOk result (λ answer. IfSome answer (CanRunOver self.now)) }
    {
        let found = expression(alloc, text)?;
        answered(alloc, text, self, &found)
    }
}

/// The names of protocols, by their numbers.
pub(crate) fn names(alloc: Global, protocols: &[ProtocolDef]) -> Result<Names, OutOfMemory>
    ensures { IfOk result (λ names. names ≡ map (λ def. def.name) protocols.now) }
{
    let mut names = Vec::new(alloc);
    for protocol in protocols {
        names.push(text_of(alloc, protocol.name.as_slice())?)?;
    }
    Ok(Names::make(names))
}

/// A name as a text. Names are ASCII, by the grammar: others aren't made.
fn text_of(alloc: Global, name: &[u8]) -> Result<String, OutOfMemory>
    ensures { IfOk result (λ text. string_bytes text ≡ name.now) }
{
    match String::from_utf8(Vec::from_slice(alloc, name)?) {
        Ok(text) => Ok(text),
        Err(_) => Err(OutOfMemory),
    }
}
