// Taking lines off a script.
ghost use Rattle.std.specs.Prelude.{◌≡◌, ◌+◌, ◌<◌, length, drop};
ghost use Rattle.std.specs.Fn.{FnReturnsAt};
ghost use Rattle.script.specs.Next.{Falls, Reader, Reads, ahead_by, left_of, line_of};
ghost use Rattle.script.specs.Parts.{before, from, is_feed};

use crate::cause::Cause;
use crate::cut::cut;
use crate::script::Script;

// What follows a line feed, if there is one.
fn after_feed(rest: &[u8]) -> &[u8]
    ensures { result.now ≡ drop 1 rest.now }
{
    rest.get(1..).unwrap_or(rest)
}

impl<'a> Script<'a> {
    // The next line, without its feed.
    pub(crate) fn take_line(&mut self) -> &'a [u8]
        requires { 0 < length (left_of self.old) }
        ensures text { result.now ≡ before is_feed (left_of self.old) }
        ensures left { left_of self.new ≡ drop 1 (from is_feed (left_of self.old)) }
        ensures line { line_of self.new ≡ line_of self.old + 1 }
    {
        let (text, rest) = cut(self.rest, |byte| byte == b'\n');
        *self = Script {
            rest: after_feed(rest),
            line: self.line + 1,
        };
        text
    }

    // Takes lines up to the next in which a reader finds something, or a fault. At the end there is none.
    pub(crate) fn next_by<T: Drop, F: Fn(&[u8]) -> Result<Option<T>, Cause>>(
        &mut self,
        read: F,
    ) -> Result<Option<T>, Cause>
        requires { F.IsAlwaysCallable read }
        ensures ahead { (reads : Reader T) → Reads (FnReturnsAt F.Fn read) reads →
            ahead_by reads (line_of self.old) (left_of self.old) ≡
            record { answer = result; line = line_of self.new; left = left_of self.new } }
        ensures falls { Falls result (length (left_of self.old)) (length (left_of self.new)) }
    {
        while !self.rest.is_empty() {
            let line = self.take_line();
            if let Some(found) = read(line)? {
                return Ok(Some(found));
            }
        }
        Ok(None)
    }
}
