// The lines of the table. One with no bar is a remark; with `=` before it, it is printed. The line `First` is worked before each state, and each
// state has the calls of the line `Each`, one by one, on a memory of its own.
use crate::say;
use crate::words::{after_line, cut, word};
use crate::work::work;
use std::io;

// The statements of the lines `First` and `Each`.
#[derive(Clone, Copy)]
struct Marks<'a> {
    first: &'a [u8],
    each: &'a [u8],
}

// Whether nothing more stands on the line.
fn is_over(text: &[u8]) -> bool {
    let (word, _) = word(text, b" |");
    word.is_empty()
}

// The calls of the line `Each` on a state by its statements.
fn calls(rt: &impl Print, table: &[u8], marks: Marks<'_>, state: &[u8]) -> io::Result<()> {
    let mut call = marks.each;
    while !call.is_empty() {
        let next = work(rt, table, marks.first, state, call)?;
        if call.len() <= next.len() || is_over(next) {
            return Ok(());
        }
        call = next;
    }
    Ok(())
}

// The line at a place.
fn line<'a>(
    rt: &impl Print,
    table: &[u8],
    text: &'a [u8],
    marks: Marks<'a>,
) -> io::Result<Marks<'a>> {
    let (name, statements) = cut(text, b"|\n");
    if !statements.starts_with(b"|") {
        if name.starts_with(b"=") {
            say::line(rt, name)?;
        }
        return Ok(marks);
    }
    match name.first() {
        Some(b'F') => Ok(Marks {
            first: statements,
            ..marks
        }),
        Some(b'E') => Ok(Marks {
            each: statements,
            ..marks
        }),
        _ => {
            say::name(rt, name)?;
            calls(rt, table, marks, statements)?;
            say::end_line(rt)?;
            Ok(marks)
        }
    }
}

// Each line.
pub fn all(rt: &impl Print, table: &[u8]) -> io::Result<()> {
    let mut marks = Marks {
        first: table,
        each: table,
    };
    let mut text = table;
    while !text.is_empty() {
        marks = line(rt, table, text, marks)?;
        text = after_line(text);
    }
    Ok(())
}
