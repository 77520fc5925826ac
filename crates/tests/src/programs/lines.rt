//! Command lines of nfs3canon, and what is made of them.

use line3::{Job, LineFault, job};
use std::alloc::{AllocError, Global};
use std::test::Fail;

/// Command lines after the program's name, and the name of what is made of each.
const LINES: [(&str, &str); 30] = [
    ("", "usage"),
    ("check", "usage"),
    ("check a", "check a"),
    ("check a b", "usage"),
    ("check -- a", "check a"),
    ("check a --", "check a"),
    ("check --", "usage"),
    ("-- check a", "usage"),
    ("show -- a", "show a"),
    ("canon -- a b", "canon a b"),
    ("canon a -- b", "canon a b"),
    ("canon a -- a", "output names an input"),
    ("same a b --", "same a b"),
    ("pack -- a b c", "pack a"),
    ("pack a b -- c", "pack a"),
    ("pack -- a b", "odd"),
    ("show a", "show a"),
    ("show a b", "usage"),
    ("canon a", "usage"),
    ("canon a b", "canon a b"),
    ("canon a a", "output names an input"),
    ("canon a b c", "usage"),
    ("same a", "usage"),
    ("same a b", "same a b"),
    ("pack a", "usage"),
    ("pack a b", "odd"),
    ("pack a b c", "pack a"),
    ("pack a b a", "output names an input"),
    ("help", "usage"),
    ("--help", "usage"),
];

#[test]
fn command_lines(rt: HostRuntime) -> Result<(), Fail> {
    for (line, wanted) in LINES {
        assert_eq!(rt; answer_to(rt.alloc(), line)?, wanted, "{line}");
    }
    Ok(())
}

fn answer_to(alloc: Global, line: &str) -> Result<&'static str, Fail> {
    let mut words = words_of(alloc, line)?;
    match job(alloc, &mut words) {
        Ok(asked) => Ok(name_of(asked)),
        Err(fault) => Ok(name_of_fault(&fault)),
    }
}

/// The words of a line after the program's name.
fn words_of(alloc: Global, line: &str) -> Result<Vec<String>, AllocError> {
    let mut words = Vec::new(alloc);
    words.push(String::from_str(alloc, "nfs3canon")?)?;
    for word in line.split_whitespace() {
        words.push(String::from_str(alloc, word)?)?;
    }
    Ok(words)
}

fn name_of_fault(fault: &LineFault) -> &'static str {
    match fault {
        LineFault::Usage(text) if !text.is_empty() => "usage",
        LineFault::SameName => "output names an input",
        LineFault::Odd => "odd",
        _ => "another fault",
    }
}

fn name_of(asked: Job<'_>) -> &'static str {
    match asked {
        Job::Check("a") => "check a",
        Job::Show("a") => "show a",
        Job::Canon("a", "b") => "canon a b",
        Job::Same("a", "b") => "same a b",
        Job::Pack("a", [_, _]) => "pack a",
        _ => "another job",
    }
}
