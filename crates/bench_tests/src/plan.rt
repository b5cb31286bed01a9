// What the text of a record says. The types and `is_around` are the model's own, beside those of `records`: with the crates
// that it is compared with it shares only the number of an empty slot.
use std::alloc::Global;
use std::str::{FromStr, Split};
use std::test::*;

// The next of the numbers in a line.
fn number(numbers: &mut Split<'_, char>) -> Result<usize, Fail> {
    Ok(numbers.next().unwrap_or("").parse()?)
}

#[derive(Clone, Copy)]
pub struct Block {
    pub address: usize,
    pub fetches: usize,
    pub cycles: usize,
}

impl FromStr for Block {
    type Err = Fail;

    fn from_str(numbers: &str) -> Result<Block, Fail> {
        let mut numbers = numbers.split(',');
        Ok(Block {
            address: number(&mut numbers)?,
            fetches: number(&mut numbers)?,
            cycles: number(&mut numbers)?,
        })
    }
}

#[derive(Clone, Copy)]
pub struct Loop {
    pub header: usize,
    pub last: usize,
    pub limit: usize,
}

impl Loop {
    pub fn is_around(&self, block: usize) -> bool {
        self.header <= block && block <= self.last
    }
}

impl FromStr for Loop {
    type Err = Fail;

    fn from_str(numbers: &str) -> Result<Loop, Fail> {
        let mut numbers = numbers.split(',');
        Ok(Loop {
            header: number(&mut numbers)?,
            last: number(&mut numbers)?,
            limit: number(&mut numbers)?,
        })
    }
}

#[derive(Clone, Copy)]
pub struct Edge {
    pub from: usize,
    pub to: usize,
}

impl FromStr for Edge {
    type Err = Fail;

    fn from_str(numbers: &str) -> Result<Edge, Fail> {
        let mut numbers = numbers.split(',');
        Ok(Edge {
            from: number(&mut numbers)?,
            to: number(&mut numbers)?,
        })
    }
}

// The number in the line with this key.
fn value(text: &str, key: &str) -> usize {
    // Not an Option: a missing line reads as 0, so the model has a plan before its first record, of an empty text.
    text.lines()
        .find_map(|line| line.strip_prefix(key)?.parse().ok())
        .unwrap_or(0)
}

// What every line with this key says.
fn rows<T: FromStr<Err = Fail> + Drop>(
    heap: Global,
    text: &str,
    key: &str,
) -> Result<Vec<T>, Fail> {
    let mut all = Vec::new(heap);
    // A loop: a chain that parses as a type parameter gets no proof yet.
    for row in text.lines().filter_map(|line| line.strip_prefix(key)) {
        all.push(row.parse::<T>()?)?;
    }
    Ok(all)
}

// What a record says.
#[derive(Drop)]
pub struct Plan {
    pub line: usize,
    pub slots: usize,
    pub hit: usize,
    pub penalty: usize,
    pub blocks: Vec<Block>,
    pub loops: Vec<Loop>,
    pub edges: Vec<Edge>,
}

impl Plan {
    pub fn read(heap: Global, text: &str) -> Result<Plan, Fail> {
        Ok(Plan {
            line: value(text, "line="),
            slots: value(text, "slots="),
            hit: value(text, "hit="),
            penalty: value(text, "penalty="),
            blocks: rows(heap, text, "block=")?,
            loops: rows(heap, text, "loop=")?,
            edges: rows(heap, text, "edge=")?,
        })
    }

    // The named loops around a block, and the task loop.
    pub fn levels(&self, block: usize) -> usize {
        let named = self.loops.iter().filter(|l| l.is_around(block)).count();
        named.saturating_add(1)
    }
}
