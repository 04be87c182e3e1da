//! The lines of a text, as they were read or as comments.

ghost use Rattle.std.specs.Prelude.{◌≡◌, ◌++◌, ◌-◌, ◌==◌, ◌&&◌, length, take, OnOk, OnErr};
ghost use Rattle.net_text.specs.Lexing.{lines_of};
ghost use Rattle.net_text.specs.Layout.{ends_in_return, whole_line, network_text};
ghost use Rattle.net_text.specs.Comments.{comment_line, comments_text};

use crate::lexing::next_line;
use std::alloc::AllocError;

fn ends_in_return(line: &[u8]) -> bool
    ensures { result ≡ ends_in_return line.now }
{
    let end = line.len();
    end > 0 && line[end - 1] == b'\r'
}

// Appends a line with its end. A CR at its end stands twice, since the reader takes one away.
fn put_line(line: &[u8], out: &mut Vec<u8>) -> Result<(), AllocError>
    ensures kept { take (length out.old.items) out.new.items ≡ out.old.items }
    ensures ok { OnOk result (out.new.items ≡ out.old.items ++ whole_line line.now) }
{
    out.extend_from_slice(line)?;
    if ends_in_return(line) {
        return out.extend_from_slice(b"\r\n");
    }
    out.extend_from_slice(b"\n")
}

/// Appends the lines of a text, each as it is read. It is refused only for want of memory, and then leaves what the
/// buffer had.
pub fn put_network(text: &[u8], out: &mut Vec<u8>) -> Result<(), AllocError>
    ensures ok { OnOk result (out.new.items ≡ out.old.items ++ network_text (lines_of text.now)) }
    ensures err { OnErr result (out.new.items ≡ out.old.items) }
{
    let start = out.len();
    let mut left = text;
    'lines: while !left.is_empty() {
        let (line, rest) = next_line(left);
        if put_line(line, out).is_err() {
            out.truncate(start);
            return Err(AllocError);
        }
        left = rest;
    }
    Ok(())
}

// Appends a line as a comment. If memory is refused, a beginning of it stands behind what the buffer had.
fn put_comment(line: &[u8], out: &mut Vec<u8>) -> Result<(), AllocError>
    ensures kept { take (length out.old.items) out.new.items ≡ out.old.items }
    ensures ok { OnOk result (out.new.items ≡ out.old.items ++ comment_line line.now) }
{
    out.extend_from_slice(b"# ")?;
    out.extend_from_slice(line)?;
    out.extend_from_slice(b"\n")
}

/// Appends each line of a text as a comment. It is refused only for want of memory, and then leaves what the buffer
/// had.
pub fn put_comments(text: &[u8], out: &mut Vec<u8>) -> Result<(), AllocError>
    ensures ok { OnOk result (out.new.items ≡ out.old.items ++ comments_text (lines_of text.now)) }
    ensures err { OnErr result (out.new.items ≡ out.old.items) }
{
    let start = out.len();
    let mut left = text;
    'lines: while !left.is_empty() {
        let (line, rest) = next_line(left);
        if put_comment(line, out).is_err() {
            out.truncate(start);
            return Err(AllocError);
        }
        left = rest;
    }
    Ok(())
}
