// A line of input as a call on the bench.
use anyhow::anyhow;
use cache_state::lines::EMPTY;
use std::alloc::Global;
use std::str::{FromStr, SplitWhitespace};

// The kinds of cache state. The tests of the bench have an enum of their own: they share nothing with the program.
#[derive(Clone, Copy)]
pub enum Kind {
    Slot,
    Last,
}

impl FromStr for Kind {
    type Err = anyhow::Error;

    fn from_str(word: &str) -> anyhow::Result<Kind> {
        match word {
            "slot" => Ok(Kind::Slot),
            "last" => Ok(Kind::Last),
            _ => Err(anyhow!("the kinds are slot and last")),
        }
    }
}

#[derive(Drop)]
pub enum Command<'a> {
    // The record in a file.
    Load(&'a str),
    Examine(Kind),
    // The line in each slot, if the call tells them: else every slot is empty.
    Start(Option<Vec<u32>>),
    Step(usize),
    Close,
    Write,
    Figure,
    Ask {
        block: usize,
        fetch: u32,
        level: usize,
    },
    List(usize),
    Stand,
}

// What a word says of a slot.
fn slot(word: &str) -> anyhow::Result<u32> {
    match word {
        "-" => Ok(EMPTY),
        line => Ok(line.parse()?),
    }
}

// The next word. One that is missing reads as an empty one, which is no file, kind or number.
fn word<'a>(words: &mut SplitWhitespace<'a>) -> &'a str {
    words.next().unwrap_or("")
}

// The starting cache that the words tell, if there are any.
fn cache(heap: Global, words: SplitWhitespace) -> anyhow::Result<Option<Vec<u32>>> {
    let lines: Vec<u32> = words.map(slot).try_collect(heap)?;
    Ok(if lines.is_empty() { None } else { Some(lines) })
}

impl<'a> Command<'a> {
    // The call that a line names; an empty line is none.
    pub fn read(heap: Global, line: &'a str) -> anyhow::Result<Option<Command<'a>>> {
        let mut words = line.split_whitespace();
        let Some(name) = words.next() else {
            return Ok(None);
        };
        Ok(Some(match name {
            "load" => Command::Load(word(&mut words)),
            "examine" => Command::Examine(word(&mut words).parse()?),
            "start" => Command::Start(cache(heap, words)?),
            "step" => Command::Step(word(&mut words).parse()?),
            "close" => Command::Close,
            "write" => Command::Write,
            "figure" => Command::Figure,
            "ask" => Command::Ask {
                block: word(&mut words).parse()?,
                fetch: word(&mut words).parse()?,
                level: word(&mut words).parse()?,
            },
            "list" => Command::List(word(&mut words).parse()?),
            "stand" => Command::Stand,
            _ => return Err(anyhow!("no such call; try --help")),
        }))
    }
}
