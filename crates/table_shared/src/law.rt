//! What a table begins with, and what its journal's entries owe.
use bits_ip::Family;
use jour::cursor::Cursor;
use jour::maker::Maker;
use jour::pass::Pass;
use jour::writer::Writer;
use jour_rule::law::Law;
use rib::Rib;
use std::marker::Model;
use std::snapshot::Snapshot;

/// What a table begins with: the family of its nets, the rows that stand in it at first, and for
/// each port the sources whose routes it alone may change. Only contracts read the rows and the
/// sources, which take no room here.
#[derive(Drop)]
pub struct Opening {
    pub(crate) family: Family,
    pub(crate) rows: Snapshot<Rib>,
    pub(crate) ports: Snapshot<Vec<Vec<u32>>>,
}

impl Model for Opening {
    ghost use Rattle.table_shared.specs.Opening.{TableOpening, lists_of};

    ghost Value = { TableOpening };

    ghost view = { λ o. record {
      family = o.family;
      rows = o.rows.value.rows;
      ports = lists_of o.ports.value.items;
    } };
}

/// The law of a table's journal: each entry is the words of a record, which says a real change of a
/// source of its port, and the net's best route behind it.
pub struct RecordLaw;

impl Law<Opening> for RecordLaw {
    ghost use Rattle.std.specs.Prelude.{[]};
    ghost use Rattle.bits_ip.specs.declared.address.Family.TheVariants.{V4};
    ghost use Rattle.table_shared.specs.Records.{IsLawful, front_lawful};

    ghost meets = { IsLawful };

    ghost blank = { record { family = V4; rows = []; ports = [] } };

    ghost empty_meets = { λ opening. ([], tt) };

    ghost front_meets = { front_lawful };
}

/// The one seat of a table's journal that appends.
pub type TableWriter = Writer<Opening, RecordLaw>;

/// The token of one source of a table's entries.
pub type TableMaker = Maker<Opening, RecordLaw>;

/// What somebody has seen of a table's journal.
pub type TablePass = Pass<Opening, RecordLaw>;

/// A reader of a table's journal.
pub type TableCursor = Cursor<Opening, RecordLaw>;
