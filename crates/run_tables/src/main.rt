//! Runs the test cases of tables over memory. Each row is a test case: the words of a run, its
//! files, commands and facts, what the streams of its wire do, and which calls fail; and after `>`
//! the lines that must result. A row without such lines is run for its outcome, which is printed. A
//! row with the word `marks` has a line for each mark of its wire, too.
#![tactic(auto)]

mod answer;
mod facts;
mod marks;
mod play;
mod row;
mod scripted;
mod spelling;
mod table;
mod trouble;

use std::io;
use table::RunTable;
use trouble::Trouble;

fn main(rt: HostRuntime) -> io::Result<()> {
    let mut table = RunTable::new(rt.alloc());
    let played = play_rows(&rt, &mut table);
    drop(table);
    played
}

// Plays all rows of standard input.
fn play_rows(rt: &HostRuntime, table: &mut RunTable) -> io::Result<()> {
    play_lines(rt, table)?;
    let recorded = table.finish();
    report(rt, recorded)?;
    sum_up(rt, table)
}

// Plays the lines of standard input.
fn play_lines(rt: &HostRuntime, table: &mut RunTable) -> io::Result<()> {
    for line in rt.lines(rt.alloc()) {
        let line = line?;
        match table.take(line.as_str()) {
            Err(Trouble::Unread) => println!(rt; "a line isn't read: {line}")?,
            recorded => report(rt, recorded)?,
        }
    }
    Ok(())
}

// How many rows were played, and of how many came what was written.
fn sum_up(rt: &HostRuntime, table: &RunTable) -> io::Result<()> {
    println!(rt;
        "{} rows, {} as written",
        table.rows(),
        table.rows_as_written()
    )
}

// Prints the outcome of a test case, if it isn't what was written.
fn report(rt: &HostRuntime, recorded: Result<Option<String>, Trouble>) -> io::Result<()> {
    match recorded {
        Ok(None) => Ok(()),
        Ok(Some(text)) => print!(rt; "{text}"),
        Err(trouble) => println!(rt; "{trouble}"),
    }
}
