// The symbols of expressions, where they come next.

ghost use Rattle.std.specs.Prelude.{◌≡◌, ◌∷◌, ℕ, false, MatchOption};
ghost use Rattle.conf_lex.specs.declared.word.Word.{Word};
ghost use Rattle.conf_lex.specs.declared.symbol.Symbol.{Symbol};
ghost use Rattle.conf_lex.specs.Symbols.{is_placed};
ghost use Rattle.conf_lex.specs.Kind.{kind_of, symbol as is_the_symbol, is_attribute};
ghost use Rattle.conf_lex.specs.Grammar.{begins};
ghost use Rattle.expr_syntax.specs.Finds.{Finds};
ghost use Rattle.expr_syntax.specs.Syntax.{is_atom, is_method, is_property, is_mul_op, is_add_op};
ghost use Rattle.expr_syntax.specs.Syntax.{is_compare_op, is_logical_op};
ghost use Rattle.expr_syntax.specs.View.{atom_word, method_word, method_symbol, property_symbol};
ghost use Rattle.expr_syntax.specs.View.{mul_op_symbol, add_op_symbol, compare_op_symbol};
ghost use Rattle.expr_syntax.specs.View.{logical_op_symbol};

use conf_ast::filters::{
    AddOp, Atom, Attribute, CompareOp, LogicalOp, Method, MethodKind, MulOp, Property,
};
use conf_lex::parsing::next;
use conf_lex::{Symbol, Word};

/// What joins two comparisons, and the words after it.
pub fn next_logical_op(words: &[Word]) -> Option<(LogicalOp, &[Word])>
    ensures { Finds is_logical_op (λ j. Word.Symbol (logical_op_symbol j)) result words.now }
{
    match next_plain(words) {
        Some((symbol, rest)) => logical_op_of(symbol).map(|logical_op| (logical_op, rest)),
        None => None,
    }
}

/// What compares two sums, and the words after it.
pub fn next_compare_op(words: &[Word]) -> Option<(CompareOp, &[Word])>
    ensures { Finds is_compare_op (λ c. Word.Symbol (compare_op_symbol c)) result words.now }
{
    match next_plain(words) {
        Some((symbol, rest)) => compare_op_of(symbol).map(|compare_op| (compare_op, rest)),
        None => None,
    }
}

/// What joins two products, and the words after it.
pub fn next_add_op(words: &[Word]) -> Option<(AddOp, &[Word])>
    ensures { Finds is_add_op (λ t. Word.Symbol (add_op_symbol t)) result words.now }
{
    match next_plain(words) {
        Some((symbol, rest)) => add_op_of(symbol).map(|add_op| (add_op, rest)),
        None => None,
    }
}

/// What joins two operands, and the words after it.
pub fn next_mul_op(words: &[Word]) -> Option<(MulOp, &[Word])>
    ensures { Finds is_mul_op (λ f. Word.Symbol (mul_op_symbol f)) result words.now }
{
    match next_plain(words) {
        Some((symbol, rest)) => mul_op_of(symbol).map(|mul_op| (mul_op, rest)),
        None => None,
    }
}

/// A property, and the words after it.
pub fn next_property(words: &[Word]) -> Option<(Property, &[Word])>
    ensures { Finds is_property (λ p. Word.Symbol (property_symbol p)) result words.now }
{
    match next_plain(words) {
        Some((symbol, rest)) => property_of(symbol).map(|property| (property, rest)),
        None => None,
    }
}

/// A method, and the words after it.
pub fn next_method(words: &[Word]) -> Option<(Method, &[Word])>
    ensures { Finds is_method method_word result words.now }
{
    match next(words) {
        Some((word, rest)) => method_of(word).map(|method| (method, rest)),
        None => None,
    }
}

/// A word that is an expression, and the words after it.
pub fn next_atom(words: &[Word]) -> Option<(Atom, &[Word])>
    ensures { Finds is_atom atom_word result words.now }
{
    match next(words) {
        Some((word, rest)) => atom_of(word).map(|atom| (atom, rest)),
        None => None,
    }
}

/// The place of an attribute and the attribute, and the words after it.
pub fn next_attribute(words: &[Word]) -> Option<((usize, Attribute), &[Word])>
    ensures { Finds is_attribute (λ found. Word.Attribute found.0 found.1) result words.now }
{
    match words {
        [Word::Attribute { at, attribute }, rest @ ..] => Some(((*at as usize, *attribute), rest)),
        _ => None,
    }
}

// A symbol that carries no place, and the words after it.
fn next_plain(words: &[Word]) -> Option<(Symbol, &[Word])>
    ensures { MatchOption result
        ((s : Symbol) → is_placed s ≡ false → begins (is_the_symbol s) words.now ≡ false)
        (λ found. words.now ≡ Word.Symbol found.0 ∷ found.1.now) }
{
    match next(words) {
        Some((word, rest)) => plain_symbol(word).map(|symbol| (symbol, rest)),
        None => None,
    }
}

fn logical_op_of(symbol: Symbol) -> Option<LogicalOp>
    ensures { MatchOption result (is_logical_op (kind_of (Word.Symbol symbol)) ≡ false)
        (λ j. symbol ≡ logical_op_symbol j) }
{
    match symbol {
        Symbol::And => Some(LogicalOp::And),
        Symbol::Or => Some(LogicalOp::Or),
        _ => None,
    }
}

fn compare_op_of(symbol: Symbol) -> Option<CompareOp>
    ensures { MatchOption result (is_compare_op (kind_of (Word.Symbol symbol)) ≡ false)
        (λ c. symbol ≡ compare_op_symbol c) }
{
    match symbol {
        Symbol::Equal => Some(CompareOp::Equal),
        Symbol::NotEqual => Some(CompareOp::NotEqual),
        Symbol::Less => Some(CompareOp::Less),
        Symbol::LessOrEqual => Some(CompareOp::LessOrEqual),
        Symbol::Greater => Some(CompareOp::Greater),
        Symbol::GreaterOrEqual => Some(CompareOp::GreaterOrEqual),
        Symbol::Matches => Some(CompareOp::Matches),
        Symbol::MatchesNot => Some(CompareOp::MatchesNot),
        _ => None,
    }
}

fn add_op_of(symbol: Symbol) -> Option<AddOp>
    ensures { MatchOption result (is_add_op (kind_of (Word.Symbol symbol)) ≡ false)
        (λ t. symbol ≡ add_op_symbol t) }
{
    match symbol {
        Symbol::Plus => Some(AddOp::Plus),
        Symbol::Minus => Some(AddOp::Minus),
        _ => None,
    }
}

fn mul_op_of(symbol: Symbol) -> Option<MulOp>
    ensures { MatchOption result (is_mul_op (kind_of (Word.Symbol symbol)) ≡ false)
        (λ f. symbol ≡ mul_op_symbol f) }
{
    match symbol {
        Symbol::Star => Some(MulOp::Times),
        Symbol::Slash => Some(MulOp::Over),
        _ => None,
    }
}

fn property_of(symbol: Symbol) -> Option<Property>
    ensures { MatchOption result (is_property (kind_of (Word.Symbol symbol)) ≡ false)
        (λ p. symbol ≡ property_symbol p) }
{
    match symbol {
        Symbol::Len => Some(Property::Len),
        Symbol::First => Some(Property::First),
        Symbol::Last => Some(Property::Last),
        Symbol::Ip => Some(Property::Ip),
        _ => None,
    }
}

fn method_of(word: Word) -> Option<Method>
    ensures { MatchOption result (is_method (kind_of word) ≡ false) (λ m. word ≡ method_word m) }
{
    match word {
        Word::Placed { at, symbol } => match method_kind(symbol) {
            Some(kind) => Some(Method {
                at: at as usize,
                kind,
            }),
            None => None,
        },
        _ => None,
    }
}

fn method_kind(symbol: Symbol) -> Option<MethodKind>
    ensures { MatchOption result ((at : ℕ) → is_method (kind_of (Word.Placed at symbol)) ≡ false)
        (λ m. symbol ≡ method_symbol m) }
{
    match symbol {
        Symbol::Prepend => Some(MethodKind::Prepend),
        Symbol::Add => Some(MethodKind::Add),
        Symbol::Delete => Some(MethodKind::Delete),
        Symbol::Filter => Some(MethodKind::Filter),
        _ => None,
    }
}

fn atom_of(word: Word) -> Option<Atom>
    ensures { MatchOption result (is_atom (kind_of word) ≡ false) (λ s. word ≡ atom_word s) }
{
    match word {
        Word::Number { at, value } => Some(Atom::Number {
            at: at as usize,
            value,
        }),
        Word::Text { at, start, len } => Some(Atom::Text {
            at: at as usize,
            start: start as usize,
            len: len as usize,
        }),
        Word::Ip { at, addr } => Some(Atom::Ip {
            at: at as usize,
            addr,
        }),
        Word::Prefix { at, net } => Some(Atom::Prefix {
            at: at as usize,
            net,
        }),
        Word::Attribute { at, attribute } => Some(Atom::Attribute {
            at: at as usize,
            attribute,
        }),
        Word::Constant { at, constant } => Some(Atom::Constant {
            at: at as usize,
            constant,
        }),
        Word::Placed { at, symbol } => atom_symbol(at as usize, symbol),
        _ => None,
    }
}

fn atom_symbol(at: usize, symbol: Symbol) -> Option<Atom>
    ensures { MatchOption result (is_atom (kind_of (Word.Placed at symbol)) ≡ false)
        (λ s. Word.Placed at symbol ≡ atom_word s) }
{
    match symbol {
        Symbol::True => Some(Atom::True { at }),
        Symbol::False => Some(Atom::False { at }),
        Symbol::EmptyPath => Some(Atom::EmptyPath { at }),
        Symbol::EmptyClist => Some(Atom::EmptyClist { at }),
        _ => None,
    }
}

fn plain_symbol(word: Word) -> Option<Symbol>
    ensures { MatchOption result
        ((s : Symbol) → is_placed s ≡ false → is_the_symbol s (kind_of word) ≡ false)
        (λ s. word ≡ Word.Symbol s) }
{
    match word {
        Word::Symbol(symbol) => Some(symbol),
        _ => None,
    }
}
