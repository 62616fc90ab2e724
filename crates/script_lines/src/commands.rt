//! Commands: what somebody says.
ghost use Rattle.std.specs.Prelude.{◌≡◌, ◌∷◌, ◌<◌, ◌^◌, ℕ, List, [], codes, IsTrue, ◌↔◌};
ghost use Rattle.std.specs.Prelude.{MatchOption};
ghost use Rattle.bits_ip.specs.Prefix.{Net};
ghost use Rattle.bits_ip.specs.Text.{v4_text};
ghost use Rattle.bits_ip.specs.declared.address.Addr.{Addr};
ghost use Rattle.text.specs.Lines.{behind_word, behind_words, words_of};
ghost use Rattle.script_lines.specs.Grammar.{IsDel, AreName};
ghost use Rattle.script_lines.specs.Kinds.{AreFew};
ghost use Rattle.script_lines.specs.Inside.{Acts, verb_text, IsSessionLine, IsNamedLine};
ghost use Rattle.script_lines.specs.Inside.{IsReload, IsReloadWord, reload_op, are_of_family};
ghost use Rattle.announcements.specs.Reading.{ReadsAdd};
ghost use Rattle.script_lines.specs.declared.commands.Verb.{Verb};
ghost use Rattle.script_lines.specs.declared.commands.Reload.{Reload};

use crate::faults::ScriptKind;
use crate::named::{Name, Named, family_of, is_of_family, protocol_of, session_of};
use crate::refusal::LineFault;
use crate::show::judge_show;
use announcements::{Announcement, read_add};
use bits_ip::{Addr, Family, Prefix, parse_prefix, parse_v4};
use import_core::Op;
use queries::{is_name, read_question};
use show_route::Query;
use std::alloc::Global;
use text::{expect_word, is_end, next_word};

/// What a command comes to, over the protocols of a configuration.
#[derive(Drop)]
pub enum Act {
    /// An operation on the protocol of this number.
    Apply {
        protocol: u32,
        op: Op,
    },
    /// `show route`: what is asked, with the number of the filter if that has a name, and the
    /// condition.
    Show {
        query: Query,
        condition: Option<Name>,
    },
}

/// The first word of a command.
#[derive(Clone, Copy)]
enum Verb {
    Open,
    Close,
    Add,
    Del,
    Disable,
    Enable,
    Reload,
    Show,
}

fn verb_of(word: &[u8]) -> Option<Verb>
    ensures { MatchOption result
        ((verb : Verb) → word.now ≡ verb_text verb → ⊥)
        (λ verb. word.now ≡ verb_text verb) }
{
    if word == b"open".as_slice() {
        Some(Verb::Open)
    } else if word == b"close".as_slice() {
        Some(Verb::Close)
    } else if word == b"add".as_slice() {
        Some(Verb::Add)
    } else if word == b"del".as_slice() {
        Some(Verb::Del)
    } else if word == b"disable".as_slice() {
        Some(Verb::Disable)
    } else if word == b"enable".as_slice() {
        Some(Verb::Enable)
    } else if word == b"reload".as_slice() {
        Some(Verb::Reload)
    } else if word == b"show".as_slice() {
        Some(Verb::Show)
    } else {
        None
    }
}

/// What these words come to as a command of this actor.
pub fn read_command(
    alloc: Global,
    named: &Named,
    actor: &[u8],
    words: &[u8],
) -> Result<Act, LineFault>
    requires { AreFew named.now }
    ensures { Acts named.now actor.now (behind_words 2 words.now) (words_of words.now) result }
{
    let Some((word, rest)) = next_word(words) else {
        return Err(LineFault::Refused(ScriptKind::Syntax));
    };
    let Some(verb) = verb_of(word) else {
        return Err(LineFault::Refused(ScriptKind::Syntax));
    };
    read_behind(alloc, named, actor, verb, rest)
}

/// What the command of this first word comes to, which these words go on with.
fn read_behind(
    alloc: Global,
    named: &Named,
    actor: &[u8],
    verb: Verb,
    rest: &[u8],
) -> Result<Act, LineFault>
    requires { AreFew named.now }
    ensures { Acts named.now actor.now (behind_word rest.now) (verb_text verb ∷ words_of rest.now)
        result }
{
    match verb {
        Verb::Open => open_line(named, actor, rest),
        Verb::Close => close_line(named, actor, rest),
        Verb::Add => add_line(alloc, named, actor, rest),
        Verb::Del => del_line(named, actor, rest),
        Verb::Disable => disable_line(named, actor, rest),
        Verb::Enable => enable_line(named, actor, rest),
        Verb::Reload => reload_line(named, actor, rest),
        Verb::Show => show_line(alloc, named, actor, rest),
    }
}

fn open_line(named: &Named, actor: &[u8], rest: &[u8]) -> Result<Act, LineFault>
    requires { AreFew named.now }
    ensures { Acts named.now actor.now (behind_word rest.now) (codes "open" ∷ words_of rest.now)
        result }
{
    match read_open(rest) {
        Some(id) => session_line(named, actor, Op::SessionUp(id)),
        None => Err(LineFault::Refused(ScriptKind::Syntax)),
    }
}

fn close_line(named: &Named, actor: &[u8], rest: &[u8]) -> Result<Act, LineFault>
    requires { AreFew named.now }
    ensures { Acts named.now actor.now (behind_word rest.now) (codes "close" ∷ words_of rest.now)
        result }
{
    if is_end(rest) {
        session_line(named, actor, Op::SessionDown)
    } else {
        Err(LineFault::Refused(ScriptKind::Syntax))
    }
}

/// An operation of the actor's own session.
fn session_line(named: &Named, actor: &[u8], op: Op) -> Result<Act, LineFault>
    requires { AreFew named.now }
    ensures { IsSessionLine named.now actor.now op result }
{
    match session_of(named, actor) {
        Some(protocol) => Ok(Act::Apply { protocol, op }),
        None => Err(LineFault::Refused(ScriptKind::UnknownActor)),
    }
}

fn add_line(alloc: Global, named: &Named, actor: &[u8], rest: &[u8]) -> Result<Act, LineFault>
    requires { AreFew named.now }
    ensures { Acts named.now actor.now (behind_word rest.now) (codes "add" ∷ words_of rest.now)
        result }
{
    let said = read_add(alloc, rest)?;
    judge_add(named, actor, said)
}

/// What an `add` comes to.
fn judge_add(named: &Named, actor: &[u8], said: Announcement) -> Result<Act, LineFault>
    requires { AreFew named.now }
    ensures { (bytes : List ℕ) (words : List (List ℕ)) → ReadsAdd words said
        → Acts named.now actor.now bytes (codes "add" ∷ words) result }
{
    let Announcement {
        net,
        gateway,
        given,
    } = said;
    let Some(protocol) = session_of(named, actor) else {
        return Err(LineFault::Refused(ScriptKind::UnknownActor));
    };
    if !are_of_family(named, actor, &net, &gateway) {
        return Err(LineFault::Refused(ScriptKind::Nettype));
    }
    let Some(given) = given else {
        return Err(LineFault::Refused(ScriptKind::AttrLimit));
    };
    Ok(Act::Apply {
        protocol,
        op: Op::Add(net, given),
    })
}

/// Whether a net and a gateway are of the family of the actor's channel.
fn are_of_family(named: &Named, actor: &[u8], net: &Prefix, gateway: &Addr) -> bool
    ensures { result ≡ are_of_family named.now actor.now net.now gateway.now }
{
    is_of_family(named, actor, net.family()) && is_of_family(named, actor, family_of(gateway))
}

fn del_line(named: &Named, actor: &[u8], rest: &[u8]) -> Result<Act, LineFault>
    requires { AreFew named.now }
    ensures { Acts named.now actor.now (behind_word rest.now) (codes "del" ∷ words_of rest.now)
        result }
{
    let Some(net) = read_del(rest) else {
        return Err(LineFault::Refused(ScriptKind::Syntax));
    };
    let Some(protocol) = session_of(named, actor) else {
        return Err(LineFault::Refused(ScriptKind::UnknownActor));
    };
    if is_of_family(named, actor, net.family()) {
        Ok(Act::Apply {
            protocol,
            op: Op::Del(net),
        })
    } else {
        Err(LineFault::Refused(ScriptKind::Nettype))
    }
}

fn disable_line(named: &Named, actor: &[u8], rest: &[u8]) -> Result<Act, LineFault>
    requires { AreFew named.now }
    ensures { Acts named.now actor.now (behind_word rest.now) (codes "disable" ∷ words_of rest.now)
        result }
{
    match read_name(rest) {
        Some(name) => named_line(named, name, Op::Disable),
        None => Err(LineFault::Refused(ScriptKind::Syntax)),
    }
}

fn enable_line(named: &Named, actor: &[u8], rest: &[u8]) -> Result<Act, LineFault>
    requires { AreFew named.now }
    ensures { Acts named.now actor.now (behind_word rest.now) (codes "enable" ∷ words_of rest.now)
        result }
{
    match read_name(rest) {
        Some(name) => named_line(named, name, Op::Enable),
        None => Err(LineFault::Refused(ScriptKind::Syntax)),
    }
}

fn reload_line(named: &Named, actor: &[u8], rest: &[u8]) -> Result<Act, LineFault>
    requires { AreFew named.now }
    ensures { Acts named.now actor.now (behind_word rest.now) (codes "reload" ∷ words_of rest.now)
        result }
{
    match read_reload(rest) {
        Some((reload, name)) => named_line(named, name, op_of(reload)),
        None => Err(LineFault::Refused(ScriptKind::Syntax)),
    }
}

/// An operation on the protocol of this name.
fn named_line(named: &Named, name: &[u8], op: Op) -> Result<Act, LineFault>
    requires { AreFew named.now }
    ensures { IsNamedLine named.now name.now op result }
{
    match protocol_of(named, name) {
        Some(protocol) => Ok(Act::Apply { protocol, op }),
        None => Err(LineFault::Refused(ScriptKind::UnknownName)),
    }
}

fn show_line(alloc: Global, named: &Named, actor: &[u8], rest: &[u8]) -> Result<Act, LineFault>
    requires { AreFew named.now }
    ensures { Acts named.now actor.now (behind_word rest.now) (codes "show" ∷ words_of rest.now)
        result }
{
    let Some(more) = expect_word(rest, b"route") else {
        return Err(LineFault::Refused(ScriptKind::Syntax));
    };
    match read_question(more) {
        Some(question) => judge_show(alloc, named, &question),
        None => Err(LineFault::Refused(ScriptKind::Syntax)),
    }
}

fn read_open(rest: &[u8]) -> Option<u32>
    ensures { MatchOption result
        ((id : ℕ) → words_of rest.now ≡ v4_text id ∷ [] → id < 2 ^ 32 → ⊥)
        (λ id. (words_of rest.now ≡ v4_text id ∷ []) × (id < 2 ^ 32)) }
{
    let (word, rest) = next_word(rest)?;
    let id = parse_v4(word)?;
    if is_end(rest) { Some(id) } else { None }
}

fn read_del(rest: &[u8]) -> Option<Prefix>
    ensures { MatchOption result
        ((net : Net) → IsDel (words_of rest.now) net → ⊥)
        (λ net. IsDel (words_of rest.now) net) }
{
    let (word, rest) = next_word(rest)?;
    let net = parse_prefix(word)?;
    if is_end(rest) { Some(net) } else { None }
}

/// The name that these words are.
fn read_name(rest: &[u8]) -> Option<&[u8]>
    ensures { MatchOption result
        ((name : List ℕ) → AreName (words_of rest.now) name → ⊥)
        (λ name. AreName (words_of rest.now) name.now) }
{
    let (name, rest) = next_word(rest)?;
    if is_name(name) && is_end(rest) {
        Some(name)
    } else {
        None
    }
}

/// What a protocol has to do anew.
#[derive(Clone, Copy)]
enum Reload {
    Both,
    In,
    Out,
}

fn op_of(reload: Reload) -> Op
    ensures { result ≡ reload_op reload }
{
    match reload {
        Reload::Both => Op::Reload,
        Reload::In => Op::ReloadIn,
        Reload::Out => Op::ReloadOut,
    }
}

/// What stands behind `reload`. With one word that is the protocol's name, whatever it is.
fn read_reload(rest: &[u8]) -> Option<(Reload, &[u8])>
    ensures { MatchOption result
        ((reload : Reload) (name : List ℕ) → IsReload (words_of rest.now) reload name → ⊥)
        (λ found. IsReload (words_of rest.now) found.0 found.1.now) }
{
    if let Some(name) = read_name(rest) {
        return Some((Reload::Both, name));
    }
    let (word, behind) = next_word(rest)?;
    let reload = reload_of(word)?;
    let name = read_name(behind)?;
    Some((reload, name))
}

fn reload_of(word: &[u8]) -> Option<Reload>
    ensures { MatchOption result
        ((word.now ≡ codes "in" → ⊥) × (word.now ≡ codes "out" → ⊥))
        (λ reload. IsReloadWord reload word.now) }
{
    if word == b"in".as_slice() {
        Some(Reload::In)
    } else if word == b"out".as_slice() {
        Some(Reload::Out)
    } else {
        None
    }
}
