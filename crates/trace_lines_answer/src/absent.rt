// What a line names that is not there: an engine, a program, a table.
use std::io::Stdout;
use trace_grammar::{Command, Editing, Making};
use trace_store_book::THERE;

// The part of a line that names what is not there.
#[derive(Clone, Copy)]
pub struct Part {
    at: usize,
    end: usize,
}

// What is not there.
#[derive(Clone, Copy)]
pub enum Absent {
    // there is no engine yet
    Engine,
    // a name that no program outside an engine has
    Program(Part),
    // the name of the program that is installed, where one outside is asked for
    Outside(Part),
    // a name that no table has
    Table(Part),
}

fn engine(book: &[usize]) -> Result<(), Absent> {
    if trace_store_book::get(book, THERE) == 0 {
        return Err(Absent::Engine);
    }
    Ok(())
}

// the word at a place
fn word(line: &[u8], at: usize) -> Part {
    Part {
        at,
        end: trace_input_session::stop(line, at),
    }
}

// `compile NAME`: no name of the program that is installed
fn compiled(line: &[u8], book: &[usize]) -> Result<(), Absent> {
    let at = trace_input_session::place(line, 1);
    if trace_store_titles::number(book, trace_input_session::word_at(line, at))
        == trace_store_titles::installed(book)
    {
        return Err(Absent::Outside(word(line, at)));
    }
    Ok(())
}

// `swap NAME`: a program outside an engine
fn swapped(line: &[u8], book: &[usize]) -> Result<(), Absent> {
    engine(book)?;
    let at = trace_input_session::place(line, 1);
    let i = trace_store_titles::number(book, trace_input_session::word_at(line, at));
    if trace_store_titles::is_outside(book, i) {
        return Ok(());
    }
    if trace_store_titles::installed(book) == i {
        return Err(Absent::Outside(word(line, at)));
    }
    Err(Absent::Program(word(line, at)))
}

fn made(c: Making, line: &[u8], book: &[usize]) -> Result<(), Absent> {
    match c {
        Making::Compile => compiled(line, book),
        Making::Swap => swapped(line, book),
        Making::Engine => Ok(()),
    }
}

// the table that the word at a place names
fn table(line: &[u8], at: usize, book: &[usize]) -> Result<(), Absent> {
    match trace_setup_preset::named(trace_input_session::word_at(line, at), book) {
        Some(_) => Ok(()),
        None => Err(Absent::Table(word(line, at))),
    }
}

// the two tables of a line `note`
fn tables(line: &[u8], book: &[usize]) -> Result<(), Absent> {
    let at = trace_input_session::place(line, 1);
    table(line, at, book)?;
    table(line, trace_input_session::next(line, at), book)
}

// the table of the field at a place, where it is a curve with one: `sc=TABLE:RISE:FALL`
fn field(line: &[u8], p: usize, book: &[usize]) -> Result<(), Absent> {
    let w = trace_input_session::word_at(line, p);
    if 1 < trace_input_session::index(b"sc ac", trace_input_session::before(w, 61)) {
        return Ok(());
    }
    let v = trace_input_session::after(w, 61);
    if trace_input_session::is(v, b"lin") {
        return Ok(());
    }
    let name = trace_input_session::before(v, 58);
    if trace_setup_preset::named(name, book).is_some() {
        return Ok(());
    }
    let at = trace_store_book::sum(p, 3);
    Err(Absent::Table(Part {
        at,
        end: trace_store_book::sum(at, name.len()),
    }))
}

// the tables of the fields from a place on
fn fields(line: &[u8], from: usize, book: &[usize]) -> Result<(), Absent> {
    let mut p = from;
    // Not a for: the step is a word, not 1.
    while p < line.len() {
        field(line, p, book)?;
        p = trace_input_session::next(line, p);
    }
    Ok(())
}

fn edited(c: Editing, line: &[u8], book: &[usize]) -> Result<(), Absent> {
    match c {
        Editing::Slot => fields(line, trace_input_session::place(line, 2), book),
        Editing::Note => tables(line, book),
        Editing::Table | Editing::Clear | Editing::MatrixPut => Ok(()),
    }
}

// What a line of a command names that is not there.
pub fn of(c: Command, line: &[u8], book: &[usize]) -> Result<(), Absent> {
    match c {
        Command::Editing(e) => edited(e, line, book),
        Command::Making(m) => made(m, line, book),
        Command::Registry(_) | Command::Lending(_) | Command::Standard => Ok(()),
        Command::Setting(_)
        | Command::Process
        | Command::Reading(_)
        | Command::State
        | Command::Memory => engine(book),
    }
}

// a part of the line, between quotes, and what is said of it
fn said_of(
    stdout: Stdout,
    part: Part,
    words: &[u8],
    line: &[u8],
    out: &mut [u8],
    at: usize,
) -> usize {
    let named = trace_input_session::part(line, part.at, part.end);
    let p = trace_output_show::quoted(stdout, out, at, named);
    trace_output_show::put(stdout, out, p, words)
}

// What is said of it.
pub fn put(stdout: Stdout, a: Absent, line: &[u8], out: &mut [u8], at: usize) -> usize {
    match a {
        Absent::Engine => trace_output_show::put(stdout, out, at, b"there is no engine yet\n"),
        Absent::Program(n) => said_of(stdout, n, b" names no program\n", line, out, at),
        Absent::Outside(n) => said_of(stdout, n, b" is installed\n", line, out, at),
        Absent::Table(n) => said_of(stdout, n, b" names no table\n", line, out, at),
    }
}
