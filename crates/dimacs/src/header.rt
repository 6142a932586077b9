// The header: comment lines, `p`, `cnf`, V and C, up to the end of its line.
ghost use Rattle.std.specs.Prelude.{◌≡◌, false};
ghost use Rattle.rules.specs.Dimacs.{after_comments, line_end, header_end, header};
ghost use Rattle.dimacs.specs.Rests.{rest_of};
ghost use Rattle.dimacs.specs.Heads.{head_of};

use crate::body::Body;
use crate::decimal::decimal_within;
use crate::scan::{after_spaces, split_front};
use rules::{Inputs, Row, Sheet};

// V with the body over it, and C.
#[derive(Clone, Copy)]
pub struct Header<'a> {
    pub body: Body<'a>,
    pub clauses: usize,
}

// The rest behind the comment lines.
#[tactic(auto, using(crate::proofs::Comments::comments))]
fn after_comments(text: &[u8]) -> Option<&[u8]>
    ensures { rest_of result ≡ after_comments false text.now }
{
    let mut rest = text;
    while let Some(comment) = rest.strip_prefix(b"c") {
        let (_, end) = split_front(comment, |b| b != b'\n');
        rest = end.strip_prefix(b"\n")?;
    }
    Some(rest)
}

// The rest behind a line feed, or the empty rest where the text ends.
#[tactic(auto, using(crate::proofs::Bytes::words))]
fn line_end(text: &[u8]) -> Option<&[u8]>
    ensures { rest_of result ≡ line_end text.now }
{
    if text.is_empty() {
        return Some(text);
    }
    text.strip_prefix(b"\n")
}

// The rest behind the header's line. Inlined, as first_token is.
#[inline(always)]
#[tactic(auto, using(crate::proofs::Bytes::words))]
fn header_end(text: &[u8]) -> Option<&[u8]>
    ensures { rest_of result ≡ header_end text.now }
{
    let (_, rest) = split_front(text, |b| matches!(b, b' ' | b'\t'));
    line_end(rest.strip_prefix(b"\r").unwrap_or(rest))
}

// The header in form, or none.
#[tactic(auto, using(crate::proofs::Bytes::words), unfolding(rules::specs::Dimacs::header, crate::specs::Parts::decimal_within))]
pub fn header_of(text: &[u8]) -> Option<Header<'_>>
    ensures { head_of result ≡ header text.now }
{
    let text = after_comments(text)?;
    let text = after_spaces(text.strip_prefix(b"p")?)?;
    let text = after_spaces(text.strip_prefix(b"cnf")?)?;
    let (digits, text) = split_front(text, |b| b.is_ascii_digit());
    let count = decimal_within(digits, 1, Row::MAX_INPUTS)?;
    let text = after_spaces(text)?;
    let (digits, text) = split_front(text, |b| b.is_ascii_digit());
    // Neither of u32 and usize is From the other; the casts are proved to lose nothing.
    let clauses = decimal_within(digits, 0, Sheet::MAX_CLAUSES as u32)? as usize;
    let text = header_end(text)?;
    let inputs = Inputs { count };
    Some(Header {
        body: Body { inputs, text },
        clauses,
    })
}
