// Protocols. `depth_left` is how many more levels may be opened.

ghost use Rattle.std.specs.Prelude.{◌≡◌, ◌∷◌, true};
ghost use Rattle.conf_lex.specs.declared.symbol.Symbol.{Symbol};
ghost use Rattle.conf_lex.specs.declared.symbol.Symbol.TheVariants as sym;
ghost use Rattle.conf_lex.specs.declared.word.Word.{Word};
ghost use Rattle.conf_lex.specs.Symbols.{is_placed};
ghost use Rattle.conf_lex.specs.Kind.{symbol};
ghost use Rattle.conf_lex.specs.Grammar.{Pair};
ghost use Rattle.conf_lex.specs.Reading.{both, word};
ghost use Rattle.conf_lex.specs.Leaves.{symbol_leaf};
ghost use Rattle.conf_lex.specs.Agrees.{Agrees};
ghost use Rattle.expr_syntax.specs.Rows.{nth, beyond};
ghost use Rattle.conf_syntax.specs.Syntax.{static_option, bgp_option, pipe_option};
ghost use Rattle.conf_tree.specs.View.{statement_tree, protocol_tree, of_protocol};
ghost use Rattle.conf_syntax.specs.Readers.{seen_as, optional_name_at, optional_semicolon_at};
ghost use Rattle.conf_tree.specs.Readers.{protocol_at, statement_at};

use crate::options::{ProtocolOption, options};
use conf_ast::configurations::{Protocol, Statement};
use conf_lex::parsing::{after, after_placed, expect};
use conf_lex::{Refusal, Symbol, Word};
use conf_syntax::parts::{optional_name, optional_semicolon};
use std::alloc::Global;

// A protocol of this place, by the words after its kind's word, whichever that is.
fn protocol_of<'a, O: ProtocolOption>(
    alloc: Global,
    at: usize,
    behind: &'a [Word],
    depth_left: u32,
) -> Result<(Protocol<O>, &'a [Word]), Refusal<'a>>
    ensures { (kind : Symbol) → is_placed kind ≡ true
        → Agrees (λ p. protocol_tree kind O.tree p) result
        (protocol_at kind O.form depth_left (Word.Placed at kind ∷ behind.now)) }
{
    let (name, rest) = optional_name(behind);
    let rest = expect(rest, Symbol::OpenBrace)?;
    let (options, rest) = options(alloc, rest, depth_left)?;
    let (semicolon, rest) = optional_semicolon(rest);
    let protocol = Protocol {
        at,
        name,
        options,
        semicolon,
    };
    Ok((protocol, rest))
}

// By the words after `device`, whose own words are taken out.
fn device(words: &[Word]) -> Result<(Statement, &[Word]), Refusal>
    ensures { Agrees statement_tree result
        (seen_as (both (optional_name_at 0) (both (word (symbol sym.OpenBrace))
        (both (word (symbol sym.CloseBrace)) (optional_semicolon_at 0))))
        (λ t. of_protocol (nth 0 (Pair (symbol_leaf sym.Device) t))) words.now) }
{
    let (name, rest) = optional_name(words);
    let rest = expect(rest, Symbol::OpenBrace)?;
    let rest = expect(rest, Symbol::CloseBrace)?;
    let (semicolon, rest) = optional_semicolon(rest);
    Ok((Statement::Device { name, semicolon }, rest))
}

// A static protocol, by the words after its kind's word.
fn static_protocol<'a>(
    alloc: Global,
    at: usize,
    words: &'a [Word],
    depth_left: u32,
) -> Result<(Statement, &'a [Word]), Refusal<'a>>
    ensures { Agrees statement_tree result
        (seen_as (protocol_at sym.Static static_option depth_left) (λ t. of_protocol (nth 1 t))
        (Word.Placed at sym.Static ∷ words.now)) }
{
    let (protocol, rest) = protocol_of(alloc, at, words, depth_left)?;
    Ok((Statement::Static(protocol), rest))
}

// A BGP protocol, by the words after its kind's word.
fn bgp_protocol<'a>(
    alloc: Global,
    at: usize,
    words: &'a [Word],
    depth_left: u32,
) -> Result<(Statement, &'a [Word]), Refusal<'a>>
    ensures { Agrees statement_tree result
        (seen_as (protocol_at sym.Bgp bgp_option depth_left) (λ t. of_protocol (nth 2 t))
        (Word.Placed at sym.Bgp ∷ words.now)) }
{
    let (protocol, rest) = protocol_of(alloc, at, words, depth_left)?;
    Ok((Statement::Bgp(protocol), rest))
}

// A pipe, by the words after its kind's word.
fn pipe_protocol<'a>(
    alloc: Global,
    at: usize,
    words: &'a [Word],
    depth_left: u32,
) -> Result<(Statement, &'a [Word]), Refusal<'a>>
    ensures { Agrees statement_tree result
        (seen_as (protocol_at sym.Pipe pipe_option depth_left) (λ t. of_protocol (beyond 3 t))
        (Word.Placed at sym.Pipe ∷ words.now)) }
{
    let (protocol, rest) = protocol_of(alloc, at, words, depth_left)?;
    Ok((Statement::Pipe(protocol), rest))
}

/// By the words after `protocol`.
pub fn protocol<'a>(
    alloc: Global,
    words: &'a [Word],
    kind: &'a [Word],
    depth_left: u32,
) -> Result<(Statement, &'a [Word]), Refusal<'a>>
    requires { words.now ≡ Word.Symbol sym.Protocol ∷ kind.now }
    ensures { Agrees statement_tree result (statement_at depth_left words.now) }
{
    if let Some(behind) = after(kind, Symbol::Device) {
        return device(behind);
    }
    if let Some((at, behind)) = after_placed(kind, Symbol::Static) {
        return static_protocol(alloc, at, behind, depth_left);
    }
    if let Some((at, behind)) = after_placed(kind, Symbol::Bgp) {
        return bgp_protocol(alloc, at, behind, depth_left);
    }
    match after_placed(kind, Symbol::Pipe) {
        Some((at, behind)) => pipe_protocol(alloc, at, behind, depth_left),
        None => Err(Refusal::Bad(kind)),
    }
}
