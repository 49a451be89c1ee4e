// Programs by name: program 0 is called ~, the names of the others stand in the book.
#![tactic(auto)]

use std::io::Stdout;
use trace_store_book::{BARE, INSTALLED, OUTSIDE, PROGRAMS, TITLE_CELLS, TITLES};

// the number of the program with a name; one more than there are where there is none, which is that of a new one (an
// Option would be no plainer: `made` goes on from there)
pub fn number(book: &[usize], w: &[u8]) -> usize {
    if trace_input_session::is(w, b"~") {
        return 0;
    }
    trace_store_book::sum(
        trace_store_book::name_found(book, TITLE_CELLS, trace_store_book::get(book, TITLES), w),
        1,
    )
}

// the number of the program with a name, which it has from now on; 9 where there is no place, or the name is too long
pub fn made(book: &mut [usize], w: &[u8]) -> usize {
    let i = number(book, w);
    let count = trace_store_book::get(book, TITLES);
    if i <= count {
        return i;
    }
    if PROGRAMS <= i
        || !trace_store_book::set_name(book, trace_store_book::sum(TITLE_CELLS, count), w)
    {
        return PROGRAMS;
    }
    trace_store_book::set(book, TITLES, i);
    i
}

// whether a program of that number is outside an engine
pub fn is_outside(book: &[usize], i: usize) -> bool {
    i < PROGRAMS && trace_store_book::get(book, trace_store_book::sum(OUTSIDE, i)) == 1
}

// the number of the installed program by its name
pub fn installed(book: &[usize]) -> usize {
    match trace_store_book::get(book, INSTALLED) {
        BARE => 0,
        i => i,
    }
}

// whether the program of a number is called ~
fn is_own(i: usize) -> bool {
    i == 0 || PROGRAMS <= i
}

// the name of program i, into the start of a cell; how long it is
pub fn copied(book: &[usize], i: usize, cell: &mut [u8]) -> usize {
    if is_own(i) {
        return own(cell);
    }
    trace_store_book::name_copied(
        book,
        trace_store_book::sum(TITLE_CELLS, trace_store_book::less(i, 1)),
        cell,
    )
}

fn own(cell: &mut [u8]) -> usize {
    if cell.is_empty() {
        return 0;
    }
    cell[0] = b'~';
    1
}

// the name of program i
pub fn put(stdout: Stdout, book: &[usize], i: usize, out: &mut [u8], at: usize) -> usize {
    let mut cell = [0u8; 64];
    let n = copied(book, i, &mut cell);
    let m = trace_store_book::at_most(n, 64);
    trace_output_show::put(stdout, out, at, &cell[0..m])
}
