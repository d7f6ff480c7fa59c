//! Lines that are read, and answered one by one.
use std::alloc::{AllocError, Global};
use std::io::{self, BufRead, BufReader, BufWriter, Lines, Read, Write};

/// What answers lines of words.
pub trait Answers {
    /// Does what the line says, and tells what is printed for it.
    fn answer(&mut self, alloc: Global, line: &str) -> Result<Vec<u8>, AllocError>;
}

/// Prints what the lines of the input are answered by.
pub fn answer_all<A: Answers, R: Read + Drop, W: Write + Drop>(
    alloc: Global,
    answers: &mut A,
    input: R,
    output: W,
) -> io::Result<()> {
    let mut output = BufWriter::new(alloc, output)?;
    let lines = BufReader::new(alloc, input)?.lines(alloc);
    answer_lines(alloc, answers, lines, &mut output)?;
    output.flush()
}

fn answer_lines<A: Answers, R: BufRead + Drop, W: Write>(
    alloc: Global,
    answers: &mut A,
    lines: Lines<R>,
    output: &mut W,
) -> io::Result<()> {
    for line in lines {
        answer_line(alloc, answers, line, output)?;
    }
    Ok(())
}

fn answer_line<A: Answers, W: Write>(
    alloc: Global,
    answers: &mut A,
    line: io::Result<String>,
    output: &mut W,
) -> io::Result<()> {
    let line = line?;
    let answer = answers.answer(alloc, line.as_str());
    drop(line);
    let answer = answer?;
    let written = output.write_all(answer.as_slice());
    drop(answer);
    written
}
