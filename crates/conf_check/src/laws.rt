//! What holds of each accepted configuration.
ghost use Rattle.std.specs.Prelude.{◌≡◌, ℕ, List, length};
ghost use Rattle.conf_ast.specs.Configurations.{Declaration};
ghost use Rattle.conf_check.specs.Checked.{IsChecked};
ghost use Rattle.conf_check.specs.declared.checked.Checked.{Checked};

/// Each of its tables has a place, by its number.
pub fn each_table_has_a_place()
    ensures { (text : List ℕ) (statements : List Declaration) (checked : Checked)
        → IsChecked text statements checked
        → length checked.table_places.items ≡ length checked.declared.tables.entries }
{}
