// Keeps one map over a stock of texts, by lines from standard input, and prints what each line came to.
#![tactic(auto)]

mod action;
mod fault;
mod keeper;
mod lines;
mod report;
mod words;

use action::{Choice, read_action, read_choice};
use anyhow::bail;
use dictionary::Dictionary;
use fault::LineFault;
use keeper::Keeper;
use lines::{Line, Lines};
use pool::Pool;
use report::{write_answer, write_map, write_refusal};
use std::alloc::Global;
use std::io::{Read, Write};
use texts::refusal::Unmade;
use texts::stock::{Stock, StockFault};

fn main(rt: HostRuntime) -> anyhow::Result<()> {
    let heap = rt.alloc();
    let mut input = Vec::new(heap);
    rt.stdin().read_to_end(&mut input)?;
    let mut lines = Lines::of(&input);
    match read_choice(heap, first_action(&rt, &mut lines)?)? {
        Choice::Pool { bytes } => keep(&rt, Pool::new(heap, bytes), lines),
        Choice::Dictionary { bytes, entries } => {
            keep(&rt, Dictionary::new(heap, bytes, entries), lines)
        }
    }
}

// The first line that asks for something, or an empty one at the end. Titles are printed on the way.
fn first_action<'a>(rt: &HostRuntime, lines: &mut Lines<'a>) -> anyhow::Result<Line<'a>> {
    for line in lines.by_ref() {
        if is_title(line.text) {
            print_line(rt, line.text)?;
        } else if asks(line.text) {
            return Ok(line);
        }
    }
    Ok(lines.end())
}

// Whether a line is to be printed as it stands.
fn is_title(line: &[u8]) -> bool {
    matches!(line, [b'#', b'#', ..])
}

// Whether a line asks for something: it has words, and is no remark.
fn asks(line: &[u8]) -> bool {
    !matches!(line, [] | [b'#', ..])
}

fn print_line(rt: &HostRuntime, line: &[u8]) -> anyhow::Result<()> {
    let mut out = rt.stdout();
    out.write_all(line)?;
    out.write_all(b"\n")?;
    Ok(())
}

// Answers each line, where there is a stock, and prints the map at the end.
fn keep<S: Stock + Drop>(
    rt: &HostRuntime,
    made: Result<S, Unmade<StockFault>>,
    lines: Lines<'_>,
) -> anyhow::Result<()> {
    let heap = rt.alloc();
    let mut out = Vec::new(heap);
    let stock = match made {
        Ok(stock) => stock,
        Err(Unmade::Refused(fault)) => {
            out.extend_from_slice(b"stock")?;
            write_refusal(&mut out, &fault)?;
            rt.stdout().write_all(&out)?;
            return Ok(());
        }
        Err(Unmade::Memory) => bail!("no memory for the stock"),
    };
    let Ok(mut keeper) = Keeper::new(heap, stock) else {
        bail!("no memory for a map");
    };
    for line in lines {
        if is_title(line.text) {
            print_line(rt, line.text)?;
        } else if asks(line.text) {
            out.clear();
            answer(heap, &mut keeper, &mut out, line)?;
            rt.stdout().write_all(&out)?;
        }
    }
    out.clear();
    write_map(&mut out, &keeper)?;
    rt.stdout().write_all(&out)?;
    Ok(())
}

// Does what a line asks for, and writes what came of it.
fn answer<'a, S: Stock + Drop>(
    heap: Global,
    keeper: &mut Keeper<S>,
    out: &mut Vec<u8>,
    line: Line<'a>,
) -> Result<(), LineFault<'a>> {
    let action = read_action(heap, line)?;
    out.extend_from_slice(action.word())?;
    match keeper.act(&action) {
        Ok(answer) => write_answer(out, keeper, answer)?,
        Err(fault) => write_refusal(out, &fault)?,
    }
    Ok(())
}
