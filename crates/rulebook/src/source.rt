// Where a script comes from.
use std::error::Error;
use std::{env, fmt, fs, io};

#[derive(Debug, Drop)]
pub enum Source {
    StandardInput,
    File(String),
}

// A source that cannot be read.
#[derive(Debug, Drop)]
pub struct Unreadable {
    source: Source,
    error: io::Error,
}

impl fmt::Display for Source {
    fn fmt<W: fmt::Write>(&self, f: &mut fmt::Formatter<W>) -> fmt::Result {
        match self {
            Source::StandardInput => write!(f, "standard input"),
            Source::File(path) => write!(f, "{path}"),
        }
    }
}

impl fmt::Display for Unreadable {
    fn fmt<W: fmt::Write>(&self, f: &mut fmt::Formatter<W>) -> fmt::Result {
        let source = &self.source;
        let error = &self.error;
        write!(f, "cannot read {source}: {error}")
    }
}

impl Error for Unreadable {}

// The file that is named as first argument, or standard input.
fn choose_source(rt: &HostRuntime) -> io::Result<Source> {
    let path = env::args(rt)?.nth(1);
    Ok(path.map_or(Source::StandardInput, Source::File))
}

fn read_source(rt: &HostRuntime, source: &Source) -> io::Result<String> {
    match source {
        Source::StandardInput => io::read_to_string(rt.alloc(), rt.stdin()),
        Source::File(path) => fs::read_to_string(rt, path.as_str()),
    }
}

// The text of the script.
pub fn read_script(rt: &HostRuntime) -> anyhow::Result<String> {
    let source = choose_source(rt)?;
    Ok(read_source(rt, &source).map_err(|error| Unreadable { source, error })?)
}
