//! What holds of the table as a whole.

ghost use Rattle.std.specs.Prelude.{IsTrue};
ghost use Rattle.std.specs.List.{list_all};
ghost use Rattle.options_table.specs.Sound.{default_is_right, names_are_distinct, HasEach};

use crate::table::{TABLE, VERBS};

// Each default is a value that its option takes.
#[tactic(auto, unfolding(crate::specs::Sound::default_is_right, crate::specs::Table::row, crate::specs::Amounts::amount))]
fn defaults_are_right()
    ensures { IsTrue (list_all default_is_right TABLE) }
{
    let _table = TABLE;
}

// Each command knows its options by their names.
#[tactic(auto, unfolding(crate::specs::Sound::names_are_distinct, crate::specs::Table::row))]
fn names_are_distinct()
    ensures { IsTrue (list_all names_are_distinct VERBS) }
{
    let _verbs = VERBS;
    let _table = TABLE;
}

// No option is left out of the table, so each value in force is looked at.
fn table_has_each()
    ensures { HasEach }
{
    let _table = TABLE;
}
