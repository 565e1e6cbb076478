//! Reads the file of examples.

use crate::examples::example::{Connection, Example, Stored};
use crate::examples::problem::Problem;
use crate::examples::words::{Name, push_line};
use rs_server::Served;
use rs_store::TopicLimit;
use std::alloc::Global;
use std::mem;

/// How many topics a store takes if the example does not say it.
const TOPICS: u32 = 10_000;

/// What was read of the connection that has not ended yet.
#[derive(Drop)]
struct Begun {
    moments: Vec<u64>,
    sent: Vec<u8>,
    replies: Vec<u8>,
}

impl Begun {
    fn new(alloc: Global) -> Begun {
        Begun {
            moments: Vec::new(alloc),
            sent: Vec::new(alloc),
            replies: Vec::new(alloc),
        }
    }

    fn ended(self, ended: Served) -> Connection {
        let Begun {
            moments,
            sent,
            replies,
        } = self;
        Connection {
            moments,
            sent,
            replies,
            ended,
        }
    }
}

/// How a connection ended, in the words of a line.
fn ended_as(words: &[&str]) -> Option<Served> {
    match words {
        ["ClientClosed"] => Some(Served::ClientClosed),
        ["EndOfInput"] => Some(Served::EndOfInput),
        ["CutInput"] => Some(Served::CutInput),
        ["Dropped"] => Some(Served::Dropped),
        ["ServerClosed", code] => Some(Served::ServerClosed(u8::from_str_radix(code, 16).ok()?)),
        _ => None,
    }
}

fn limit_of(word: &str) -> Option<TopicLimit> {
    TopicLimit::new(word.parse::<u32>().ok()?)
}

fn stored_of(version: &str, topics: &str) -> Option<Stored> {
    Some(Stored {
        version: version.parse::<u64>().ok()?,
        topics: topics.parse::<u32>().ok()?,
    })
}

#[derive(Drop)]
struct Reader {
    alloc: Global,
    names: Vec<Name>,
    examples: Vec<Example>,
    begun: Begun,
}

impl Reader {
    fn new(alloc: Global) -> Reader {
        Reader {
            alloc,
            names: Vec::new(alloc),
            examples: Vec::new(alloc),
            begun: Begun::new(alloc),
        }
    }

    /// Begins the example that this line names.
    fn begin(&mut self, line: u64) -> Result<(), Problem> {
        let limit = TopicLimit::new(TOPICS).ok_or(Problem::Word)?;
        self.examples.push(Example {
            line,
            limit,
            connections: Vec::new(self.alloc),
            stored: None,
        })?;
        Ok(())
    }

    fn last(&mut self) -> Result<&mut Example, Problem> {
        self.examples.last_mut().ok_or(Problem::Word)
    }

    fn define(&mut self, name: &str, words: &[&str]) -> Result<(), Problem> {
        let mut bytes = Vec::new(self.alloc);
        push_line(self.alloc, self.names.as_slice(), &mut bytes, words)?;
        let name = String::from_str(self.alloc, name)?;
        self.names.push(Name { name, bytes })?;
        Ok(())
    }

    /// Adds the moments of the connection that begins.
    fn add_moments(&mut self, words: &[&str]) -> Result<(), Problem> {
        for word in words {
            let moment = word.parse::<u64>().ok().ok_or(Problem::Word)?;
            self.begun.moments.push(moment)?;
        }
        Ok(())
    }

    /// Ends the connection.
    fn end(&mut self, words: &[&str]) -> Result<(), Problem> {
        let ended = ended_as(words).ok_or(Problem::Word)?;
        let begun = mem::replace(&mut self.begun, Begun::new(self.alloc));
        self.last()?.connections.push(begun.ended(ended))?;
        Ok(())
    }

    fn set_limit(&mut self, word: &str) -> Result<(), Problem> {
        let limit = limit_of(word).ok_or(Problem::Word)?;
        self.last()?.limit = limit;
        Ok(())
    }

    fn set_stored(&mut self, version: &str, topics: &str) -> Result<(), Problem> {
        let stored = stored_of(version, topics).ok_or(Problem::Word)?;
        self.last()?.stored = Some(stored);
        Ok(())
    }

    /// A line that says something of the example.
    fn take_note(&mut self, words: &[&str]) -> Result<(), Problem> {
        match words {
            ["at", moments @ ..] => self.add_moments(moments),
            ["ends", how @ ..] => self.end(how),
            ["topics", limit] => self.set_limit(limit),
            ["stored", version, topics] => self.set_stored(version, topics),
            _ => Err(Problem::Word),
        }
    }

    fn take_words(&mut self, words: &[&str], line: u64) -> Result<(), Problem> {
        let names = self.names.as_slice();
        match words {
            [] => Ok(()),
            ["example", ..] => self.begin(line),
            [">", bytes @ ..] => push_line(self.alloc, names, &mut self.begun.sent, bytes),
            ["<", bytes @ ..] => push_line(self.alloc, names, &mut self.begun.replies, bytes),
            [name, "=", bytes @ ..] => self.define(name, bytes),
            _ => self.take_note(words),
        }
    }

    fn take_line(&mut self, text: &str, line: u64) -> Result<(), Problem> {
        if text.starts_with('#') {
            return Ok(());
        }
        let words = text.split_whitespace().collect::<Vec<&str>>(self.alloc)?;
        match self.take_words(words.as_slice(), line) {
            Err(Problem::Word) => Err(Problem::Line(line)),
            other => other,
        }
    }
}

/// The examples of a file.
pub fn read_examples(alloc: Global, text: &str) -> Result<Vec<Example>, Problem> {
    let mut reader = Reader::new(alloc);
    let mut line = 0u64;
    for text in text.lines() {
        line = line.saturating_add(1);
        reader.take_line(text, line)?;
    }
    let Reader { examples, .. } = reader;
    Ok(examples)
}
