//! The small functions of a parser (`conf_lex::parsing`), each called once on what it takes and
//! once on what it refuses.
use conf_ast::Attribute;
use conf_lex::parsing::{
    after, after_attribute, after_placed, expect, expect_name, level_below, next,
};
use conf_lex::{Symbol, Word};

const COMMA: Word = Word::Symbol(Symbol::Comma);

const NOT: Word = Word::Placed {
    at: 1,
    symbol: Symbol::Not,
};

const NET: Word = Word::Attribute {
    at: 4,
    attribute: Attribute::Net,
};

const SEVEN: Word = Word::Number { at: 2, value: 7 };

const NAME: Word = Word::Name {
    at: 3,
    start: 9,
    len: 2,
};

#[test]
fn the_next_word_is_taken(rt: HostRuntime) {
    let table = [
        ("next", next(&[COMMA, NOT]).is_some()),
        ("after", after(&[COMMA, NOT], Symbol::Comma).is_some()),
        ("after_placed", after_placed(&[NOT], Symbol::Not).is_some()),
        (
            "after_attribute",
            after_attribute(&[NET], Attribute::Net).is_some(),
        ),
        ("expect", expect(&[COMMA], Symbol::Comma).is_ok()),
        ("expect_name", expect_name(&[NAME]).is_ok()),
        ("level_below", level_below(&[NOT], 1).is_ok()),
    ];
    for (call, is_taken) in table {
        assert!(rt; is_taken, "{call}");
    }
}

#[test]
fn another_word_is_refused(rt: HostRuntime) {
    let table = [
        ("next", next(&[]).is_none()),
        ("after", after(&[COMMA], Symbol::Colon).is_none()),
        (
            "after_placed",
            after_placed(&[COMMA], Symbol::Not).is_none(),
        ),
        (
            "after_attribute",
            after_attribute(&[NET], Attribute::Gw).is_none(),
        ),
        ("expect", expect(&[SEVEN], Symbol::Colon).is_err()),
        ("expect_name", expect_name(&[SEVEN]).is_err()),
        ("level_below", level_below(&[NOT], 0).is_err()),
    ];
    for (call, is_refused) in table {
        assert!(rt; is_refused, "{call}");
    }
}
