//! An answer for each row of the input.
use snap_content::Text;
use std::alloc::Global;
use std::io::{BufRead, BufReader, BufWriter, Read, Write};

/// Writes what each row is answered with, and a line's end after it. A line that begins with `# ` is a heading, and is answered by
/// itself; a row that has no answer is answered by `! ` and why.
pub fn answer_rows<
    R: Read + Drop,
    W: Write + Drop,
    A: Fn(Global, &str) -> Result<Text, anyhow::Error>,
>(alloc: Global, input: R, output: W, answer: A) -> Result<(), anyhow::Error>
    requires { A.IsAlwaysCallable answer }
{
    let mut out = BufWriter::new(alloc, output)?;
    let input = BufReader::new(alloc, input)?;
    for line in input.lines(alloc) {
        write_answer(alloc, &mut out, line?.as_str(), &answer)?;
    }
    out.flush()?;
    Ok(())
}

/// Writes what one line is answered with.
fn write_answer<W: Write, A: Fn(Global, &str) -> Result<Text, anyhow::Error>>(
    alloc: Global,
    out: &mut W,
    line: &str,
    answer: &A,
) -> Result<(), anyhow::Error>
    requires { A.IsAlwaysCallable answer.now }
{
    if line.starts_with("# ") {
        writeln!(out, "{}", line)?;
        return Ok(());
    }
    match answer(alloc, line) {
        Ok(told) => write_text(out, &told),
        Err(error) => write_refusal(out, &error),
    }
}

fn write_text<W: Write>(out: &mut W, told: &Text) -> Result<(), anyhow::Error> {
    writeln!(out, "{}", told.as_str())?;
    Ok(())
}

fn write_refusal<W: Write>(out: &mut W, error: &anyhow::Error) -> Result<(), anyhow::Error> {
    writeln!(out, "! {error}")?;
    Ok(())
}
