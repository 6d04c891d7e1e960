//! The words of the command line.

use std::env;

/// What the words ask for.
#[derive(Drop)]
pub enum Words {
    Filter { journal: String },
    Replay { journal: String },
    Settle { journal: String, openings: String },
    Help,
    Version,
    Wrong,
}

/// Reads the words.
pub fn read_words(rt: &HostRuntime) -> Words {
    let Ok(mut args) = env::args(rt) else {
        return Words::Wrong;
    };
    let _program = args.next();
    let Some(first) = args.next() else {
        return Words::Wrong;
    };
    let second = args.next();
    let third = args.next();
    if args.next().is_some() {
        return Words::Wrong;
    }
    match second {
        Some(journal) => words_with(first.as_str(), journal, third),
        None if first.as_str() == "--help" => Words::Help,
        None if first.as_str() == "--version" => Words::Version,
        None if first.starts_with("--") => Words::Wrong,
        None => Words::Filter { journal: first },
    }
}

// What an option asks for, of a journal and perhaps of openings.
fn words_with(option: &str, journal: String, openings: Option<String>) -> Words {
    match openings {
        Some(openings) if option == "--settle" => Words::Settle { journal, openings },
        None if option == "--replay" => Words::Replay { journal },
        _ => Words::Wrong,
    }
}
