// The lines of the input, numbered from 1.
ghost use Rattle.std.specs.Prelude.{◌≡◌, ◌<◌, MatchOption};
ghost use Rattle.std.specs.Iterator.{at_most};
ghost use Rattle.collate.specs.Unread.{unread};

use crate::fault::LineFault;
use session::cut_line;

#[derive(Clone, Copy)]
pub struct Line<'a> {
    pub number: u64,
    pub text: &'a [u8],
}

impl<'a> Line<'a> {
    // That the line was to have one thing, and had another there.
    pub fn expected(self, what: &'static str, found: &'a [u8]) -> LineFault<'a> {
        LineFault::Expected {
            line: self.number,
            what,
            found,
        }
    }
}

#[derive(Clone, Copy)]
pub struct Lines<'a> {
    rest: Option<&'a [u8]>,
    number: u64,
}

impl<'a> Lines<'a> {
    pub fn of(text: &'a [u8]) -> Self {
        Lines {
            rest: Some(text),
            number: 0,
        }
    }

    // An empty line, in the place of the one that was read last.
    pub fn end(&self) -> Line<'a> {
        Line {
            number: self.number,
            text: &[],
        }
    }
}

impl<'a> Iterator for Lines<'a> {
    type Item = Line<'a>;

    ghost next_gives = { λ old line new. MatchOption line (unread new.rest ≡ 0) (λ _. unread new.rest < unread old.rest) };

    ghost remaining = { λ lines. at_most (unread lines.rest) };

    fn next(&mut self) -> Option<Line<'a>> {
        let (text, more) = cut_line(self.rest?);
        self.rest = more;
        self.number = self.number.saturating_add(1);
        Some(Line {
            number: self.number,
            text,
        })
    }
}
