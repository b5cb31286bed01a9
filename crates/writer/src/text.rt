// Laying text into a buffer: it is put there as far as it fits, and where it ends is told in any case. So what writes a
// text also measures it.
ghost use Rattle.std.specs.Prelude.{◌≡◌, [], decimal};
ghost use Rattle.syntax.specs.Line.{line_text};
ghost use Rattle.writer.specs.Lays.{Appends};

// A lent buffer, and where the text that is laid into it ends.
#[derive(Drop)]
pub struct Text<'a> {
    out: &'a mut [u8],
    // Open to the crate, so that the must-fail edit of `lay_list` can lay each entry over the heading.
    pub(crate) end: usize,
}

impl<'a> Text<'a> {
    // No text yet; what is laid begins at this place of the buffer.
    pub fn new(out: &'a mut [u8], at: usize) -> Text<'a>
        ensures buffer { result.out.ghost_name ≡ out.entry.ghost_name }
        ensures bytes { result.out.now ≡ out.old }
        ensures end { result.end ≡ at }
    {
        Text { out, end: at }
    }

    // Where the text ends.
    pub fn end(&self) -> usize
        ensures { result ≡ self.now.end }
    {
        self.end
    }

    // Lays `bytes` behind the text.
    pub fn lay_bytes(&mut self, bytes: &[u8])
        ensures { Appends bytes.now self.old self.new }
    {
        self.end = buffer::put_bytes(self.out, self.end, bytes).unwrap_or(
            self.end.saturating_add(bytes.len()),
        );
    }

    // Lays the digits of `n` behind it.
    pub fn lay_number(&mut self, n: u64)
        ensures { Appends (decimal n) self.old self.new }
    {
        self.end = buffer::put_number(self.out, self.end, n).unwrap_or(
            self.end.saturating_add(buffer::number_length(n)),
        );
    }

    // Lays a line: its key, and its numbers parted by commas.
    pub fn lay_line(&mut self, key: &[u8], fields: &[u64])
        ensures { Appends (line_text key.now fields.now []) self.old self.new }
    {
        self.lay_bytes(key);
        for (i, field) in fields.iter().enumerate() {
            // A count tells the first field from the others: with `split_first`, the line that lays a number stands twice.
            if i > 0 {
                self.lay_bytes(b",");
            }
            self.lay_number(*field);
        }
        self.lay_bytes(b"\n");
    }
}
