// What a line asks for.
use crate::fault::LineFault;
use crate::lines::Line;
use crate::words::Words;
use session::ValueWord;
use std::alloc::Global;

// A value and no closure, since a line is read whole before anything is done.
#[derive(Drop)]
pub enum Action {
    Insert(Vec<u8>, ValueWord),
    Remove(Vec<u8>),
    Dedup,
    Claim,
    Get(Vec<u8>),
    Dump,
}

impl Action {
    // The word that the line begins with, and its answer too.
    pub fn word(&self) -> &'static [u8] {
        match self {
            Action::Insert(_, _) => b"insert",
            Action::Remove(_) => b"remove",
            Action::Dedup => b"dedup",
            Action::Claim => b"claim",
            Action::Get(_) => b"get",
            Action::Dump => b"dump",
        }
    }
}

// The stock that the first line names. No `Result`, since neither is a failure.
#[derive(Clone, Copy)]
pub enum Choice {
    Pool { bytes: usize },
    Dictionary { bytes: usize, entries: usize },
}

pub fn read_action(heap: Global, line: Line<'_>) -> Result<Action, LineFault<'_>> {
    let mut words = Words::of(heap, line);
    let action = match words.next_word() {
        b"insert" => Action::Insert(words.text()?, words.value()?),
        b"remove" => Action::Remove(words.text()?),
        b"dedup" => Action::Dedup,
        b"claim" => Action::Claim,
        b"get" => Action::Get(words.text()?),
        b"dump" => Action::Dump,
        other => return Err(line.expected("insert, remove, dedup, claim, get or dump", other)),
    };
    words.end()?;
    Ok(action)
}

pub fn read_choice(heap: Global, line: Line<'_>) -> Result<Choice, LineFault<'_>> {
    let mut words = Words::of(heap, line);
    match words.next_word() {
        b"stock" => {}
        other => return Err(line.expected("a stock line", other)),
    }
    let choice = match words.next_word() {
        b"pool" => Choice::Pool {
            bytes: words.number()?,
        },
        b"dictionary" => Choice::Dictionary {
            bytes: words.number()?,
            entries: words.number()?,
        },
        other => return Err(line.expected("pool or dictionary", other)),
    };
    words.end()?;
    Ok(choice)
}
