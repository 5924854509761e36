// Which rules a value's kind alone decides.
ghost use Rattle.std.specs.Prelude.{◌<◌, length};

use cs_flat::Flat;
use cs_instance::Rule;
use cs_rules::Rulebook;
use cs_table::Row;

/// Whether it is decided that a rule refuses values of the kind.
fn is_no(row: &Row<'_>, rule: usize) -> bool {
    let is_known = row.item < row.table.items() && rule < row.table.rules();
    is_known && row.left.binary_search(&rule).is_err() && !row.table.get(row.item, rule)
}

/// Whether a rule may admit some value of an item's kind.
pub(super) fn takes_kind(
    book: &Rulebook<Rule<'_>>,
    flat: &Flat<'_>,
    item: usize,
    rule: usize,
) -> bool {
    if item >= flat.len() {
        return false;
    }
    match book.decided(flat, item) {
        None => true,
        Some(row) => !is_no(&row, rule),
    }
}
