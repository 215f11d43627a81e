// How many lines of a list there were and how many differ, and what is printed of them.
ghost use Rattle.std.specs.Prelude.{◌≡◌, cond, ◌≤◌, OnOk};
ghost use Rattle.std.specs.Io.KnownBytes.{Appends};
ghost use Rattle.vectors.specs.Tallies.{one_more, report_text};

use std::io;
use std::io::Write;

// How many lines there were, and how many of them differ.
#[derive(Clone, Copy, Default)]
pub struct Tally {
    pub cases: usize,
    pub differ: usize,
}

impl Tally {
    // Counts a line more. The greatest count stays.
    pub fn count(&mut self, agrees: bool)
        ensures cases { self.new.cases ≡ one_more self.old.cases }
        ensures differ { self.new.differ ≡ cond agrees self.old.differ (one_more self.old.differ) }
        ensures few { self.old.differ ≤ self.old.cases → self.new.differ ≤ self.new.cases }
    {
        self.cases = self.cases.saturating_add(1);
        if !agrees {
            self.differ = self.differ.saturating_add(1);
        }
    }
}

// Writes how many lines of a list there are, and how many differ.
pub fn report<W: Write>(out: &mut W, name: &[u8], t: Tally) -> io::Result<()>
    ensures { OnOk result (Appends (W.contents out.old) (W.contents out.new) (report_text name.now t.cases t.differ)) }
{
    out.write_all(name)?;
    writeln!(out, "{}, {} differ", t.cases, t.differ)
}
