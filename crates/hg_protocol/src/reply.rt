//! What a server answers.

ghost use Rattle.std.specs.Prelude.{◌≡◌, ◌≢◌, ◌∷◌, ℕ, length, IfOk, IfSome, IfNone};
ghost use Rattle.std.specs.List.{list_all};
ghost use Rattle.hg_protocol.specs.declared.reply.Reply.{Reply as ReplyOf};
ghost use Rattle.hg_protocol.specs.Replies.{IsLine, NumberIs, ReplyIs, ShortIs, is_line_byte, refused_text};

use crate::feed::Feed;
use crate::frame::number_of;
use crate::lines::ReportLines;
use crate::message::Message;
use std::alloc::{AllocError, Global};
use std::marker::Model;

/// The most bytes that the body of a reply has.
pub const MOST_REPLY_BYTES: usize = 8192;

/// The most bytes that a line in a reply has: a body is a byte for the kind of the reply, and the line.
pub const MOST_REPLY_LINE: usize = MOST_REPLY_BYTES - 1;

/// A line of text, without its line feed.
#[derive(Drop)]
pub struct Line {
    bytes: Vec<u8>,
}

impl Model for Line {
    ghost use Rattle.std.specs.Prelude.{List, ℕ};

    ghost Value = { List ℕ };

    ghost view = { λ line. line.bytes.items };
}

impl Line {
    /// The line of these bytes.
    pub fn from_vec(bytes: Vec<u8>) -> Self
        ensures { result ≡ bytes.items }
    {
        Line { bytes }
    }

    /// The bytes.
    pub fn as_slice(&self) -> &[u8]
        ensures { result.now ≡ self.now }
    {
        self.bytes.as_slice()
    }
}

/// The answer to a client's frame.
#[derive(Drop)]
pub enum Reply {
    /// To a Hello: the last number that the source has sent.
    Welcome {
        last: u64,
    },
    /// The event of this number was accepted.
    Accepted {
        number: u64,
    },
    /// The event was sent before; `last` is the last number of its source.
    Duplicate {
        last: u64,
    },
    /// The event of this number was refused, for the cause with this code. For a gap, code 1, `expected` is the number that the
    /// source has to send next. Else it is 0.
    Refused {
        number: u64,
        code: u8,
        expected: u64,
    },
    /// To an Ask: the events of the source up to this number are durable.
    Ack {
        number: u64,
    },
    /// One line of the answer to a Reports.
    Line {
        line: Line,
    },
    /// The client broke the conversation's rules: 1 a false frame, 2 no Hello yet, 3 a second Hello, 4 the conversation has ended.
    Fault {
        code: u8,
    },
    /// To a Reports: a line for each kept report, and the end line. A feed never gives this: it gives the lines one by one.
    Lines {
        lines: ReportLines,
    },
    /// To a Bye. It has no bytes.
    Nothing,
}

/// Reads the replies of a stream.
pub type ReplyFeed = Feed<Reply>;

/// The number that the bytes spell.
fn read_number(bytes: &[u8]) -> Option<u64>
    ensures some { IfSome result (NumberIs bytes.now) }
    ensures none { IfNone result ((number : ℕ) → NumberIs bytes.now number → ⊥) }
{
    if bytes.len() != 8 {
        return None;
    }
    Some(number_of(bytes))
}

/// The three fields of a refusal.
fn read_fields(bytes: &[u8]) -> Option<(u64, u8, u64)>
    ensures some { IfSome result (λ r. bytes.now ≡ refused_text r.0 r.1 r.2) }
    ensures none { IfNone result (length bytes.now ≢ 17) }
{
    if bytes.len() != 17 {
        return None;
    }
    let (front, rest) = bytes.split_at(8);
    let [code, back @ ..] = rest else {
        return None;
    };
    Some((number_of(front), *code, number_of(back)))
}

/// The reply of a refusal, read without its kind. Only a gap has an expected number.
fn read_refused(bytes: &[u8]) -> Option<Reply>
    ensures some { IfSome result (ReplyIs (132 ∷ bytes.now)) }
    ensures none { IfNone result ((reply : ReplyOf) → ShortIs (132 ∷ bytes.now) reply → ⊥) }
{
    let Some((number, code, expected)) = read_fields(bytes) else {
        return None;
    };
    if code != 1 && expected != 0 {
        return None;
    }
    Some(Reply::Refused {
        number,
        code,
        expected,
    })
}

/// Whether each byte may stand in a line: ASCII, and no line feed.
fn is_line(bytes: &[u8]) -> bool
    ensures { result ≡ list_all is_line_byte bytes.now }
{
    for byte in bytes {
        if *byte >= 128 || *byte == 10 {
            return false;
        }
    }
    true
}

/// A line of text, copied. `None` says that the bytes are no line.
fn read_line(alloc: Global, bytes: &[u8]) -> Result<Option<Line>, AllocError>
    ensures some { IfOk result (λ read. IfSome read (λ line. IsLine line × (bytes.now ≡ line))) }
    ensures none { IfOk result (λ read. IfNone read (IsLine bytes.now → ⊥)) }
{
    if bytes.is_empty() || bytes.len() > MOST_REPLY_LINE || !is_line(bytes) {
        return Ok(None);
    }
    let mut copy = Vec::new(alloc);
    copy.extend_from_slice(bytes)?;
    Ok(Some(Line::from_vec(copy)))
}

/// The reply that a body spells, unless it is a Line.
fn read_short(body: &[u8]) -> Option<Reply>
    ensures some { IfSome result (ReplyIs body.now) }
    ensures none { IfNone result ((reply : ReplyOf) → ShortIs body.now reply → ⊥) }
{
    match body {
        [129, rest @ ..] => {
            let last = read_number(rest)?;
            Some(Reply::Welcome { last })
        }
        [130, rest @ ..] => {
            let number = read_number(rest)?;
            Some(Reply::Accepted { number })
        }
        [131, rest @ ..] => {
            let last = read_number(rest)?;
            Some(Reply::Duplicate { last })
        }
        [132, rest @ ..] => read_refused(rest),
        [133, rest @ ..] => {
            let number = read_number(rest)?;
            Some(Reply::Ack { number })
        }
        [135, code] => Some(Reply::Fault { code: *code }),
        _ => None,
    }
}

impl Message for Reply {
    ghost use Rattle.hg_protocol.specs.declared.reply.TheConstants.{MOST_REPLY_BYTES};
    ghost use Rattle.hg_protocol.specs.Replies.{ReplyFits, reply_body};
    ghost use Rattle.hg_protocol.specs.ReplyLaws.{narrow_reply, one_reply, reply_within};

    ghost MOST_BYTES = { MOST_REPLY_BYTES };

    ghost body = { reply_body };

    ghost fits = { ReplyFits };

    const MOST_BYTES: usize = MOST_REPLY_BYTES;

    fn read(alloc: Global, bytes: &[u8]) -> Result<Option<Self>, AllocError> {
        match bytes {
            [134, rest @ ..] => match read_line(alloc, rest)? {
                Some(line) => Ok(Some(Reply::Line { line })),
                None => Ok(None),
            },
            _ => Ok(read_short(bytes)),
        }
    }

    ghost narrow = { narrow_reply };

    ghost within = { reply_within };

    ghost one_message = { one_reply };
}
