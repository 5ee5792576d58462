//! A session that is written, line by line. A call stands only where a caller's program could make
//! it; suite and key stand before every call.
ghost use Rattle.std.specs.Prelude.{◌≡◌, Ok};
ghost use Rattle.replay.specs.Lines as lines;
ghost use Rattle.replay.specs.Scripts as scripts;
ghost use Rattle.replay.specs.Sessions as sessions;
ghost use Rattle.replay.specs.Utf8.{Utf8Law};

use crate::lines::{Line, Piece, Rule, Unread};
use std::alloc::Global;

/// What follows the header calls once the body has started.
#[derive(Drop)]
pub enum Body {
    Seal {
        pieces: Vec<Piece>,
        finish: bool,
    },
    Open {
        pieces: Vec<Piece>,
        tag: Option<Vec<u8>>,
    },
}

/// What the lines so far have written.
#[derive(Drop)]
pub struct Script {
    pub suite: u8,
    pub key: Vec<u8>,
    pub headers: Vec<Vec<u8>>,
    pub body: Option<Body>,
}

impl Script {
    /// No line yet.
    pub(crate) fn new(heap: Global) -> Script
        ensures { scripts.written_in result ≡ scripts.unwritten }
    {
        Script {
            suite: 0,
            key: Vec::new(heap),
            headers: Vec::new(heap),
            body: None,
        }
    }

    /// Takes one line.
    ///
    /// # Errors
    ///
    /// The rule that the line breaks, or that memory ran out. What the script is then is not said.
    pub(crate) fn add(&mut self, heap: Global, text: &str) -> Result<(), Unread>
        ensures { lines.Reads (λ _. scripts.written_in self.new) result
            (scripts.after_line (scripts.written_in self.old) text.now) }
    {
        let line = Line::read(heap, text)?;
        self.take(heap, line)
    }

    fn take(&mut self, heap: Global, line: Line) -> Result<(), Unread>
        ensures { lines.Reads (λ _. scripts.written_in self.new) result
            (scripts.after (scripts.written_in self.old) (lines.said_in line)) }
    {
        match line {
            Line::Suite(number) => self.set_suite(number),
            Line::Key(key) => self.set_key(key),
            Line::Header(bytes) => self.header(bytes),
            Line::Seal => self.start(Body::Seal {
                pieces: Vec::new(heap),
                finish: false,
            }),
            Line::Open => self.start(Body::Open {
                pieces: Vec::new(heap),
                tag: None,
            }),
            Line::Body(piece) => self.call(piece),
            Line::Finish(bytes) => self.finish(bytes),
        }
    }

    // Whether no call was read yet.
    fn is_new(&self) -> bool
        ensures { result ≡ scripts.may_set (scripts.written_in self.now).headers
            (scripts.written_in self.now).course }
    {
        self.headers.is_empty() && self.body.is_none()
    }

    fn set_suite(&mut self, number: u8) -> Result<(), Unread>
        ensures { lines.Reads (λ _. scripts.written_in self.new) result
            (scripts.after (scripts.written_in self.old) (lines.SuiteIs number)) }
    {
        if !self.is_new() {
            return Err(Unread::Broken(Rule::Late));
        }
        self.suite = number;
        Ok(())
    }

    fn set_key(&mut self, key: Vec<u8>) -> Result<(), Unread>
        ensures { lines.Reads (λ _. scripts.written_in self.new) result
            (scripts.after (scripts.written_in self.old) (lines.KeyIs key.items)) }
    {
        if !self.is_new() {
            return Err(Unread::Broken(Rule::Late));
        }
        self.key = key;
        Ok(())
    }

    fn header(&mut self, bytes: Vec<u8>) -> Result<(), Unread>
        ensures { lines.Reads (λ _. scripts.written_in self.new) result
            (scripts.after (scripts.written_in self.old) (lines.HeaderCall bytes.items)) }
    {
        if self.body.is_some() {
            return Err(Unread::Broken(Rule::Started));
        }
        self.headers.push(bytes)?;
        Ok(())
    }

    fn start(&mut self, body: Body) -> Result<(), Unread>
        ensures { lines.Reads (λ _. scripts.written_in self.new) result
            (scripts.started (scripts.written_in self.old) (scripts.course_in body)) }
    {
        if self.body.is_some() {
            return Err(Unread::Broken(Rule::Started));
        }
        self.body = Some(body);
        Ok(())
    }

    fn call(&mut self, piece: Piece) -> Result<(), Unread>
        ensures { lines.Reads (λ _. scripts.written_in self.new) result
            (scripts.after (scripts.written_in self.old)
            (lines.BodyCall (lines.brought_in piece))) }
    {
        match &mut self.body {
            Some(
                Body::Seal {
                    pieces,
                    finish: false,
                },
            ) => pieces.push(piece)?,
            Some(Body::Open { pieces, tag: None }) => pieces.push(piece)?,
            _ => return Err(Unread::Broken(Rule::NoBody)),
        }
        Ok(())
    }

    fn finish(&mut self, bytes: Vec<u8>) -> Result<(), Unread>
        ensures { lines.Reads (λ _. scripts.written_in self.new) result
            (scripts.after (scripts.written_in self.old) (lines.FinishCall bytes.items)) }
    {
        match &mut self.body {
            Some(Body::Seal { finish, .. }) if !*finish => {
                if !bytes.is_empty() {
                    return Err(Unread::Broken(Rule::Tag));
                }
                *finish = true;
            }
            Some(Body::Open { tag, .. }) if tag.is_none() => *tag = Some(bytes),
            _ => return Err(Unread::Broken(Rule::NoBody)),
        }
        Ok(())
    }
}

/// Every session has lines that are read as that session: nothing that a caller's program could do
/// is left out.
pub(crate) fn sessions_stand()
    ensures { sessions.WrittenLaw }
{}

/// An input that is UTF-8 is judged by the rules alone, and no other input is played.
pub(crate) fn utf8_stands()
    ensures { Utf8Law }
{}
