// The figures of an open file on standard output: J and the closeness, the own weights, the rows of the matrix and the right-hand
// side, one line each.
ghost use Rattle.std.specs.Prelude.{◌≤◌};

use crate::printing::print_refusal;
use chain::arrays::Figures;
use session::answers::Refusal;
use std::fmt::Display;
use std::io;

// A name and numbers.
fn print_numbers<T: Display + Copy>(rt: &HostRuntime, name: &str, numbers: &[T]) -> io::Result<()> {
    print!(rt; "{name}")?;
    for number in numbers {
        print!(rt; " {number}")?;
    }
    println!(rt)
}

// 2J + 1, as no file that is open has J above 15.
fn parts_of(last: usize) -> usize
    ensures { result ≤ 31 }
{
    2 * last.min(15) + 1
}

fn print_system(rt: &HostRuntime, figures: Figures) -> io::Result<()> {
    let last = figures.last;
    let closeness = figures.closeness;
    println!(rt; "figures {last} {closeness}")?;
    let count = parts_of(last);
    print_numbers(rt, "own", &figures.own[..count])?;
    for k in 0..count {
        let start = 31 * k;
        let end = start + count;
        print_numbers(rt, "row", &figures.matrix[start..end])?;
    }
    print_numbers(rt, "right", &figures.right_hand[..count])
}

pub fn print_figures(rt: &HostRuntime, shown: Result<Figures, Refusal>) -> io::Result<()> {
    match shown {
        Ok(figures) => print_system(rt, figures),
        Err(refusal) => print_refusal(rt, refusal),
    }
}
