// The parts of a fetch's line.
ghost use Rattle.std.specs.Prelude.{◌≡◌, ◌<◌, ◌++◌, map, codes};
ghost use Rattle.std.specs.List.{range_with_len};
ghost use Rattle.categories.specs.Letters.{letters_of};
ghost use Rattle.marks.specs.Steps.{place_at};
ghost use Rattle.writer.specs.Lays.{Appends};
ghost use Rattle.listing.specs.Text.{categories_text, field};

use categories::category::Category;
use writer::text::Text;

// Lays a number and a comma.
fn lay_field(text: &mut Text, n: u64)
    ensures { Appends (field n) text.old text.new }
{
    text.lay_number(n);
    text.lay_bytes(b",");
}

// Lays what stands before the categories of a fetch.
pub(crate) fn lay_place(text: &mut Text, b: usize, fetch: u32, line: u32)
    ensures { Appends (codes "fetch=" ++ (field b ++ (field fetch ++ field line))) text.old text.new }
{
    text.lay_bytes(b"fetch=");
    lay_field(text, b as u64);
    lay_field(text, fetch as u64);
    lay_field(text, line as u64);
}

// The category at a place of a row. Past the table's end nothing is known.
pub fn category_at(table: &[[Category; 8]], row: usize, place: usize) -> Category
    ensures { result ≡ place_at table.now row place }
{
    // No Option: `AlwaysMiss` is the category that says that nothing is known.
    table
        .get(row)
        .and_then(|places| places.get(place))
        .copied()
        .unwrap_or(Category::AlwaysMiss)
}

// Lays the letters of the category at a place of a row.
fn lay_category(text: &mut Text, table: &[[Category; 8]], row: usize, place: usize)
    ensures { Appends (letters_of (place_at table.now row place)) text.old text.new }
{
    let category = category_at(table, row, place);
    text.lay_bytes(category.letters().as_bytes());
}

// Lays the categories at the levels of a row, innermost first.
pub(crate) fn lay_categories(text: &mut Text, table: &[[Category; 8]], row: usize, levels: usize)
    requires { 0 < levels }
    ensures { Appends (categories_text (map (place_at table.now row) (range_with_len 0 levels))) text.old text.new }
{
    lay_category(text, table, row, 0);
    // Levels are counted, since a row past the table's end has no places to go over.
    for level in 1..levels {
        text.lay_bytes(b"/");
        lay_category(text, table, row, level);
    }
}
