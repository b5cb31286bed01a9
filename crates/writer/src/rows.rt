// The counted lists of a record.
ghost use Rattle.writer.specs.Lays.{Appends};
ghost use Rattle.writer.specs.Parts.{list_text};

use crate::text::Text;
use records::entry::Entry;

// Lays a line that says how many entries there are, and then theirs.
pub fn lay_list<const N: usize, E: Entry<N>>(text: &mut Text, heading: &[u8], entries: &[E])
    ensures { Appends (list_text heading.now E.tag E.numbers entries.now) text.old text.new }
{
    text.lay_line(heading, &[entries.len() as u64]);
    for entry in entries {
        text.lay_line(E::key(), &entry.fields());
    }
}
