// A block of a task, at a loop around it, and the category of each of its fetches there.
ghost use Rattle.std.specs.Prelude.{◌≡◌, ◌<◌, ◌≤◌, length};
ghost use Rattle.task.specs.View.{task_contents};

use crate::alone::is_alone;
use cache_state::CacheState;
use cache_state::lines::program_line;
use categories::category::Category;
use records::parts::*;
use task::Task;

// A place has no fetch: that the block has it is a clause of each method that takes one.
#[derive(Drop)]
pub(crate) struct Place<'a> {
    pub task: &'a Task,
    pub range: Loop,
    pub b: usize,

    ghost order: { range.header ≤ range.last },
    ghost last: { range.last < length (task_contents task.now).blocks },
    ghost block: { b < length (task_contents task.now).blocks },
}

impl Place<'_> {
    ghost use Rattle.std.specs.Option.{option_copied};
    ghost use Rattle.categories.specs.Category.{line_of, fetches_of};
    ghost use Rattle.marks.specs.Steps.{sure_in, sure_in_first, fitting};

    // Whether a fetch of the block is sure in a state of the block's entry.
    fn is_sure<K: CacheState>(&self, fetch: u32, state: &K) -> bool
        requires { fetch < fetches_of (task_contents self.now.task.now) self.now.b }
        ensures { result ≡ sure_in K.kind K.fetched (task_contents self.now.task.now) state.now self.now.b fetch }
    {
        state.sure_fetch(
            &self.task.record.blocks[self.b],
            fetch,
            self.task.record.header.geometry,
        )
    }

    // The program line of a fetch of the block.
    fn line_of(&self, fetch: u32) -> u32
        requires { fetch < fetches_of (task_contents self.now.task.now) self.now.b }
        ensures { result ≡ line_of (task_contents self.now.task.now) self.now.b fetch }
    {
        program_line(
            &self.task.record.blocks[self.b],
            fetch,
            self.task.record.header.geometry,
        )
    }

    // Whether a fetch of the block is sure in a state of the loop's first round, where there is one.
    fn is_sure_first<K: CacheState>(&self, fetch: u32, first: Option<&K>) -> bool
        requires { fetch < fetches_of (task_contents self.now.task.now) self.now.b }
        ensures { result ≡ sure_in_first K.kind K.fetched (task_contents self.now.task.now) (option_copied first.entry) self.now.b fetch }
    {
        // A match: of `is_some_and` the proof that its closure asks this state does not close.
        match first {
            Some(first) => self.is_sure(fetch, first),
            None => false,
        }
    }

    // The first category that fits a fetch of the block at the loop, from the block's settled state and, if all
    // further rounds are behind the block, its state in the loop's first round.
    pub(crate) fn category_of<K: CacheState>(
        &self,
        fetch: u32,
        settled: &K,
        first: Option<&K>,
    ) -> Category
        requires { fetch < fetches_of (task_contents self.now.task.now) self.now.b }
        ensures { result ≡ fitting K.kind K.fetched (task_contents self.now.task.now) self.now.range self.now.b settled.now (option_copied first.entry) fetch }
    {
        if self.is_sure(fetch, settled) {
            Category::AlwaysHit
        } else if is_alone(self, self.line_of(fetch)) {
            Category::FirstMiss
        } else if self.is_sure_first(fetch, first) {
            Category::FirstHit
        } else {
            Category::AlwaysMiss
        }
    }
}
