//! What came of a written session, as it is kept while the session is played.
ghost use Rattle.std.specs.Prelude.{◌≡◌, ◌≤◌, [], length, IfOk, OnOk};
ghost use Rattle.script.specs.Logs.{BodyKept, FinishKept, HeaderKept};

use fault::{Placed, SessionFault};
use std::alloc::{AllocError, Global};

/// What one call answered: of each kind of call, exactly what the session's call of that name does.
#[derive(Debug, PartialEq, Eq, Clone, Copy)]
pub enum Answer {
    Header(Result<(), Placed<SessionFault>>),
    Body(Result<(usize, usize), Placed<SessionFault>>),
    Finish(Result<usize, Placed<SessionFault>>),
}

/// What a finish wrote into its places.
#[derive(Debug, PartialEq, Eq, Clone, Copy)]
pub enum End {
    Unfinished,
    Sealed { last: [u8; 16], tag: [u8; 16] },
    Opened { last: [u8; 16] },
}

/// What a session took and handed out, and what its calls answered.
#[derive(Drop)]
pub struct Played {
    /// The header bytes taken.
    pub header: Vec<u8>,
    /// The body bytes taken.
    pub body: Vec<u8>,
    /// The bytes handed out.
    pub out: Vec<u8>,
    /// What each call answered, in order.
    pub answers: Vec<Answer>,
}

impl Played {
    pub(crate) fn new(heap: Global) -> Played
        ensures { (result.header.items ≡ []) × (result.body.items ≡ [])
            × (result.out.items ≡ []) × (result.answers.items ≡ []) }
    {
        Played {
            header: Vec::new(heap),
            body: Vec::new(heap),
            out: Vec::new(heap),
            answers: Vec::new(heap),
        }
    }

    // Keeps a header call that brought these bytes.
    pub(crate) fn keep_header(
        &mut self,
        bytes: &[u8],
        answer: Result<(), Placed<SessionFault>>,
    ) -> Result<(), AllocError>
        ensures { OnOk result (HeaderKept answer bytes.now self.old self.new) }
    {
        if answer.is_ok() {
            self.header.extend_from_slice(bytes)?;
        }
        self.answers.push(Answer::Header(answer))?;
        Ok(())
    }

    // Keeps a body call that brought these bytes and wrote to the front of `buffer`.
    pub(crate) fn keep_body(
        &mut self,
        bytes: &[u8],
        buffer: &[u8],
        answer: Result<(usize, usize), Placed<SessionFault>>,
    ) -> Result<(), AllocError>
        requires { IfOk answer (λ n. n.0 ≤ length buffer.now) }
        ensures { OnOk result (BodyKept answer bytes.now buffer.now self.old self.new) }
    {
        if let Ok((written, _)) = answer {
            self.body.extend_from_slice(bytes)?;
            self.out.extend_from_slice(&buffer[..written])?;
        }
        self.answers.push(Answer::Body(answer))?;
        Ok(())
    }

    // Keeps a finish that wrote to `last`.
    pub(crate) fn keep_finish(
        &mut self,
        last: &[u8; 16],
        answer: Result<usize, Placed<SessionFault>>,
    ) -> Result<(), AllocError>
        requires { IfOk answer (λ n. n ≤ 16) }
        ensures { OnOk result (FinishKept answer last.now self.old self.new) }
    {
        if let Ok(len) = answer {
            self.out.extend_from_slice(&last[..len])?;
        }
        self.answers.push(Answer::Finish(answer))?;
        Ok(())
    }
}
