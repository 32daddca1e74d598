// The words of the table: where they begin and end, decimal numbers, and names by their place in a list of names. A place of the table is given by
// what stands from there to the table's end.
ghost use Rattle.std.specs.Prelude.{◌≡◌, ◌++◌, ◌<◌, length};

// What follows the bytes at the beginning that are passed over.
fn skip<'a>(text: &'a [u8], passed: &[u8]) -> &'a [u8] {
    let count = text.iter().take_while(|byte| passed.contains(byte)).count();
    &text[count..]
}

// What stands before the first of these bytes, and what stands from there on.
pub fn cut<'a>(text: &'a [u8], ends: &[u8]) -> (&'a [u8], &'a [u8])
    ensures { result.0.now ++ result.1.now ≡ text.now }
{
    let end = text
        .iter()
        .position(|byte| ends.contains(byte))
        .unwrap_or(text.len());
    text.split_at(end)
}

// The next word, after bytes that are passed over, and what follows it. At the end of a line the word is empty.
pub fn word<'a>(text: &'a [u8], passed: &[u8]) -> (&'a [u8], &'a [u8]) {
    cut(skip(text, passed), b" |\n")
}

// The lines after the first.
pub fn after_line(text: &[u8]) -> &[u8]
    ensures { 0 < length text.now → length result.now < length text.now }
{
    match text.iter().position(|byte| *byte == b'\n') {
        Some(end) => &text[end + 1..],
        None => &[],
    }
}

// The place of a word among those that follow on a line.
pub fn find(names: &[u8], word: &[u8]) -> Option<usize> {
    let (line, _) = cut(names, b"|\n");
    line.split(|byte| *byte == b' ')
        .filter(|name| !name.is_empty())
        .position(|name| name == word)
}

// The number of the line that begins with a word, and what follows the word there.
pub fn find_line<'a>(table: &'a [u8], word: &[u8]) -> Option<(usize, &'a [u8])> {
    table.split(|byte| *byte == b'\n').enumerate().find_map(|(number, line)| {
        let (name, rest) = cut(line, b" |");
        (name == word).then_some((number, rest))
    })
}

// A word of digits as a number.
pub fn decimal(word: &[u8]) -> Option<u32> {
    word.iter().try_fold(0u32, |number, byte| {
        let digit = char::from(*byte).to_digit(10)?;
        number.checked_mul(10)?.checked_add(digit)
    })
}
