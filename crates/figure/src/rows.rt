// Rows of a table of categories.
ghost use Rattle.std.specs.Prelude.{◌≡◌, ◌<◌, ◌≤◌, length};
ghost use Rattle.std.specs.List.{list_any};
ghost use Rattle.categories.specs.Costs.{is_first_miss, pays_first, pays_later};
ghost use Rattle.figure.specs.Row.{level_at, charged_row, paying_rows};

use categories::category::Category;
use longest::ByRound;

// Whether a fetch with this row pays a penalty each time in a first round of its innermost loop.
fn pays_in_first(row: &[Category; 8]) -> bool
    ensures { result ≡ pays_first (level_at row.now 0) }
{
    row[0] == Category::AlwaysMiss
}

// The same in a later round.
fn pays_in_later(row: &[Category; 8]) -> bool
    ensures { result ≡ pays_later (level_at row.now 0) }
{
    matches!(row[0], Category::FirstHit | Category::AlwaysMiss)
}

// Whether one of these is a first miss.
fn has_first_miss(categories: &[Category]) -> bool
    ensures { result ≡ list_any is_first_miss categories.now }
{
    categories
        .iter()
        .any(|category| *category == Category::FirstMiss)
}

// Whether a fetch with this row is a first miss at the level, and at none further out.
pub(crate) fn is_charged(row: &[Category; 8], level: usize, depth: usize) -> bool
    requires { (level < depth) × (depth ≤ 8) }
    ensures { result ≡ charged_row level depth row.now }
{
    // Level and depth come one by one, and not as a range: the row is read at the level, and then behind it.
    row[level] == Category::FirstMiss && !has_first_miss(&row[level + 1..depth])
}

// How many of these rows pay in a first and in a later round.
pub(crate) fn paying(rows: &[[Category; 8]]) -> ByRound<u32>
    requires { length rows.now ≤ 64 }
    ensures first { result.first ≡ paying_rows pays_first rows.now }
    ensures later { result.later ≡ paying_rows pays_later rows.now }
{
    // Both parts are written out: one function over a closure would need clauses on the closure.
    ByRound {
        first: rows.iter().filter(|row| pays_in_first(*row)).count() as u32,
        later: rows.iter().filter(|row| pays_in_later(*row)).count() as u32,
    }
}
