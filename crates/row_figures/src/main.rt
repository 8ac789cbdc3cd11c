//! Times of rows on pages: `row_figures MODE ROUNDS` does one thing so often, and prints a sum of what it saw. It is timed
//! from outside.
#![tactic(auto)]

mod figures;
mod work;

pub use figures::{Figure, measure};
use std::env;
use std::process::ExitCode;

fn main(rt: HostRuntime) -> ExitCode {
    let words: Vec<String> = match env::args(&rt) {
        Ok(args) => match args.skip(1).collect(rt.alloc()) {
            Ok(words) => words,
            Err(_) => return ExitCode::from(1),
        },
        Err(_) => return ExitCode::from(1),
    };
    let words = words.as_slice();
    if words.len() < 2 {
        return ExitCode::from(2);
    }
    let figure = figures::figure_of(words[0].as_str());
    let rounds = figures::number(words[1].as_str());
    match measure(rt.alloc(), figure, rounds) {
        Ok(sum) => match println!(rt; "{sum}") {
            Ok(()) => ExitCode::from(0),
            Err(_) => ExitCode::from(4),
        },
        Err(_) => ExitCode::from(3),
    }
}
