//! What is asked, and one option more of it.
ghost use Rattle.std.specs.Prelude.{◌≡◌};
ghost use Rattle.std.specs.Option.{option_map};
ghost use Rattle.queries.specs.Seen.{asked, asked_with, part_said};
ghost use Rattle.attrs.specs.declared.route.Select.{Select};
ghost use Rattle.queries.specs.Inside.{put, put_condition};
ghost use Rattle.queries.specs.Question.{plain, Table, Protocol, Export, Filter};
ghost use Rattle.queries.specs.Question.{Primary, All, Count};

use crate::parts::Part;
use attrs::Select;

/// What is asked, by the words alone. Names and the condition are bytes of the line.
#[derive(Clone, Copy, Debug)]
pub struct Question<'a> {
    /// Which nets are asked for. `for` an address is for the prefix of full length.
    pub pick: Select,
    /// The table's name.
    pub table: Option<&'a [u8]>,
    /// The name of the protocol whose routes alone are shown.
    pub protocol: Option<&'a [u8]>,
    /// The name of the protocol whose exports are shown in place of the table's routes.
    pub export: Option<&'a [u8]>,
    /// The name of the filter that chooses routes.
    pub filter: Option<&'a [u8]>,
    /// The expression that chooses routes: all behind the word `where`, which may be nothing.
    pub condition: Option<&'a [u8]>,
    /// Of each net the best route alone.
    pub primary: bool,
    /// With each route its attributes.
    pub all: bool,
    /// How many there are, in place of the routes.
    pub count: bool,
}

/// The options of a question.
#[derive(Clone, Copy)]
pub struct Options<'a> {
    pub table: Option<&'a [u8]>,
    pub protocol: Option<&'a [u8]>,
    pub export: Option<&'a [u8]>,
    pub filter: Option<&'a [u8]>,
    pub condition: Option<&'a [u8]>,
    pub primary: bool,
    pub all: bool,
    pub count: bool,
}

impl<'a> Options<'a> {
    /// No options.
    pub fn none() -> Options<'a>
        ensures { (pick : Select) → asked_with pick result ≡ plain pick }
    {
        Options {
            table: None,
            protocol: None,
            export: None,
            filter: None,
            condition: None,
            primary: false,
            all: false,
            count: false,
        }
    }

    /// The question for these nets with these options.
    pub fn about(self, pick: Select) -> Question<'a>
        ensures { asked result ≡ asked_with pick self.entry }
    {
        Question {
            pick,
            table: self.table,
            protocol: self.protocol,
            export: self.export,
            filter: self.filter,
            condition: self.condition,
            primary: self.primary,
            all: self.all,
            count: self.count,
        }
    }

    /// With one option more, unless it is there or another one excludes it.
    pub fn with(self, part: Part<'a>) -> Option<Options<'a>>
        ensures { (pick : Select) → option_map (asked_with pick) result
            ≡ put (asked_with pick self.entry) (part_said part.entry) }
    {
        match part {
            Part::Table(name) => self.with_table(name),
            Part::Protocol(name) => self.with_protocol(name),
            Part::Export(name) => self.with_export(name),
            Part::Filter(name) => self.with_filter(name),
            Part::Primary => self.with_primary(),
            Part::All => self.with_all(),
            Part::Count => self.with_count(),
        }
    }

    fn with_table(self, name: &'a [u8]) -> Option<Options<'a>>
        ensures { (pick : Select) → option_map (asked_with pick) result
            ≡ put (asked_with pick self.entry) (Table name.now) }
    {
        if self.table.is_some() || self.export.is_some() {
            return None;
        }
        Some(Options {
            table: Some(name),
            ..self
        })
    }

    fn with_protocol(self, name: &'a [u8]) -> Option<Options<'a>>
        ensures { (pick : Select) → option_map (asked_with pick) result
            ≡ put (asked_with pick self.entry) (Protocol name.now) }
    {
        if self.protocol.is_some() {
            return None;
        }
        Some(Options {
            protocol: Some(name),
            ..self
        })
    }

    fn with_export(self, name: &'a [u8]) -> Option<Options<'a>>
        ensures { (pick : Select) → option_map (asked_with pick) result
            ≡ put (asked_with pick self.entry) (Export name.now) }
    {
        if self.table.is_some() || self.export.is_some() {
            return None;
        }
        Some(Options {
            export: Some(name),
            ..self
        })
    }

    fn with_filter(self, name: &'a [u8]) -> Option<Options<'a>>
        ensures { (pick : Select) → option_map (asked_with pick) result
            ≡ put (asked_with pick self.entry) (Filter name.now) }
    {
        if self.filter.is_some() {
            return None;
        }
        Some(Options {
            filter: Some(name),
            ..self
        })
    }

    fn with_primary(self) -> Option<Options<'a>>
        ensures { (pick : Select) → option_map (asked_with pick) result
            ≡ put (asked_with pick self.entry) Primary }
    {
        if self.primary {
            return None;
        }
        Some(Options {
            primary: true,
            ..self
        })
    }

    fn with_all(self) -> Option<Options<'a>>
        ensures { (pick : Select) → option_map (asked_with pick) result
            ≡ put (asked_with pick self.entry) All }
    {
        if self.all {
            return None;
        }
        Some(Options { all: true, ..self })
    }

    fn with_count(self) -> Option<Options<'a>>
        ensures { (pick : Select) → option_map (asked_with pick) result
            ≡ put (asked_with pick self.entry) Count }
    {
        if self.count {
            return None;
        }
        Some(Options {
            count: true,
            ..self
        })
    }

    /// With an expression behind `where`, unless a filter is named.
    pub fn with_condition(self, text: &'a [u8]) -> Option<Options<'a>>
        ensures { (pick : Select) → option_map (asked_with pick) result
            ≡ put_condition (asked_with pick self.entry) text.now }
    {
        if self.filter.is_some() {
            return None;
        }
        Some(Options {
            condition: Some(text),
            ..self
        })
    }
}
