// The printed lines: a state's name, and what calls on it answered.
use definition::refusal::Refusal;
use definition::{Answer, Stand};
use std::io;

// A line, without the `= ` before it.
pub fn line(rt: &impl Print, line: &[u8]) -> io::Result<()> {
    if let Some(title) = line.get(2..) {
        rt.write_all(title)?;
    }
    end_line(rt)
}

// A name, without the space after it.
pub fn name(rt: &impl Print, name: &[u8]) -> io::Result<()> {
    if let Some((_, name)) = name.split_last() {
        rt.write_all(name)?;
    }
    rt.print(":")
}

pub fn end_line(rt: &impl Print) -> io::Result<()> {
    rt.print("\n")
}

// The table says what cannot be done.
pub fn bad(rt: &impl Print) -> io::Result<()> {
    rt.print(" bad table")
}

pub fn number(rt: &impl Print, number: u32) -> io::Result<()> {
    print!(rt; " {number}")
}

pub fn then(rt: &impl Print, word: u32) -> io::Result<()> {
    print!(rt; ", then {word}")
}

pub fn bytes(rt: &impl Print, buffer: &[u8]) -> io::Result<()> {
    rt.print(", bytes")?;
    for byte in buffer {
        print!(rt; " {byte}")?;
    }
    Ok(())
}

// How a call's answer is printed: not at all, the whole of it, or `ok` or the number that refuses it.
#[derive(Clone, Copy, PartialEq, Eq)]
pub enum Manner {
    Silent,
    Whole,
    Short,
}

pub fn ok(rt: &impl Print) -> io::Result<()> {
    rt.print(" ok")
}

pub fn refused(rt: &impl Print, refusal: Refusal) -> io::Result<()> {
    rt.print(" refused")?;
    number(rt, u32::from(refusal))
}

// A refusal that did not leave all as it was says so where it is short, and one that did where it is whole.
fn refusal(rt: &impl Print, refusal: Refusal, kept: bool, manner: Manner) -> io::Result<()> {
    match manner {
        Manner::Silent => Ok(()),
        Manner::Whole => {
            refused(rt, refusal)?;
            rt.print(if kept { ", as it was" } else { "" })
        }
        Manner::Short => {
            number(rt, u32::from(refusal))?;
            rt.print(if kept { "" } else { " changed" })
        }
    }
}

// `ok`, and the numbers where it is whole.
fn done(rt: &impl Print, manner: Manner, numbers: &[u32]) -> io::Result<()> {
    match manner {
        Manner::Silent => Ok(()),
        Manner::Whole => {
            ok(rt)?;
            for value in numbers {
                number(rt, *value)?;
            }
            Ok(())
        }
        Manner::Short => ok(rt),
    }
}

// What a call answered, and whether all was left as it was.
pub fn answer(
    rt: &impl Print,
    answer: Result<Answer, Refusal>,
    kept: bool,
    manner: Manner,
) -> io::Result<()> {
    match answer {
        Err(cause) => refusal(rt, cause, kept, manner),
        Ok(Answer::Started | Answer::Injected) => done(rt, manner, &[]),
        Ok(Answer::Delivered { undone, cancelled }) => done(rt, manner, &[undone, cancelled]),
        Ok(Answer::Executed { time, read, sent }) => done(rt, manner, &[time, read, sent]),
        Ok(
            Answer::Advanced {
                horizon,
                entries,
                bytes,
            },
        ) => done(rt, manner, &[horizon, entries, bytes]),
    }
}

// Where a process stands.
pub fn stands(rt: &impl Print, stand: Stand) -> io::Result<()> {
    then(rt, stand.mode)?;
    number(rt, stand.tally)
}
