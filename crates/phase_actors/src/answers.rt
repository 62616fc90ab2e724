//! Who answers queries.
ghost use Rattle.std.specs.Prelude.{IfOk};
ghost use Rattle.attrs.specs.History.{Content};
ghost use Rattle.show_route.specs.Views.{IsView};
ghost use Rattle.core_setup.specs.Setup.{FitsQuery};
ghost use Rattle.phase_actors.specs.Texts.{IsAnswer};

use attrs::Row;
use bits_ip::OutOfMemory;
use show_route::Query;

/// Who can answer queries over rows.
pub trait Answers {
    ghost use Rattle.core_setup.specs.Setup.{Setup};

    /// What is played.
    ghost setup: { Self → Setup };

    /// The answer to a query, over the rows that it asks for of a table of so many routes.
    fn answer(&self, query: &Query, rows: &[Row], total: u64) -> Result<Vec<u8>, OutOfMemory>
        requires fits { FitsQuery (setup self.now).tables (setup self.now).protocols
            (setup self.now).choices query.now }
        requires view { (content : Content) × IsView query.now.pick rows.now total content }
        ensures { IfOk result (λ text. (content : Content)
            → IsView query.now.pick rows.now total content
            → IsAnswer (setup self.now) query.now content text.items) };
}
