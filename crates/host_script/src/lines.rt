//! The lines of a script, one after the other.
ghost use Rattle.std.specs.Prelude.{◌≡◌, ◌∷◌, [], ◌+◌, ◌<◌, ◌≤◌, ◌==◌, length, MatchOption, IfNone, OnSome, position};
ghost use Rattle.std.specs.Str.Lines.{strip_carriage_return};
ghost use Rattle.host_script.specs.Words.{lines_of};

// The bytes that are still to be read, and the number of the line before them.
#[derive(Drop)]
pub(crate) struct Lines<'a> {
    pub(crate) rest: &'a [u8],
    pub(crate) number: u32,
}

impl<'a> Lines<'a> {
    // The next line, without its line end; none where no byte is left.
    pub(crate) fn next(&mut self) -> Option<&'a [u8]>
        requires { self.old.number + length self.old.rest.now ≤ 4194304 }

        ensures line { MatchOption result (lines_of self.old.rest.now ≡ [])
            (λ line. lines_of self.old.rest.now ≡ line.now ∷ lines_of self.new.rest.now) }
        ensures number { OnSome result (self.new.number ≡ self.old.number + 1) }
        ensures ended { IfNone result ((self.new.number ≡ self.old.number) × (self.new.rest.now ≡ self.old.rest.now)) }
        ensures shorter { OnSome result (length self.new.rest.now < length self.old.rest.now) }
    {
        if self.rest.is_empty() {
            return None;
        }
        let (line, rest) = cut_line(self.rest);
        self.rest = rest;
        self.number += 1;
        Some(line)
    }
}

// Where the first LF is.
fn newline(bytes: &[u8]) -> Option<usize>
    ensures { result ≡ position (λ byte. byte == 10) bytes.now }
{
    bytes.iter().position(|byte| *byte == b'\n')
}

// The first line without its line end, and the bytes after it.
#[tactic(auto, using(crate::proofs::LineLemmas::line_before, crate::proofs::LineLemmas::line_alone))]
fn cut_line(bytes: &[u8]) -> (&[u8], &[u8])
    requires { 0 < length bytes.now }
    ensures lines { lines_of bytes.now ≡ result.0.now ∷ lines_of result.1.now }
    ensures shorter { length result.1.now < length bytes.now }
{
    match newline(bytes) {
        Some(end) => (without_return(&bytes[..end]), &bytes[end + 1..]),
        None => (bytes, &[]),
    }
}

// One CR at the end isn't part of a line that an LF ends.
fn without_return(line: &[u8]) -> &[u8]
    ensures { result.now ≡ strip_carriage_return line.now }
{
    match line {
        [front @ .., b'\r'] => front,
        _ => line,
    }
}
