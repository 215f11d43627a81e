// A walk over strips that follow one another. No place in the joined strips is ever a number of the machine: joined, the strips of an
// oversized picture may have more bytes than 64 bits can count.
ghost use Rattle.std.specs.Prelude.{◌≡◌, ◌+◌, ◌*◌, ◌<◌, ◌≤◌, MatchOption};
ghost use Rattle.lsm_strips.specs.Strips.{total_in, Reaches};

// Where a walk stands: the strips that are left, and how many bytes past the start of the first of them; these may lead into later ones.
#[derive(Clone, Copy)]
pub struct Cursor<'a> {
    pub strips: &'a [[usize; 2]],
    pub into: usize,
}

impl<'a> Cursor<'a> {
    // The cursor moved on by `rows` rows of `row` bytes; nowhere where the strips end before that.
    pub fn seek(self, rows: usize, row: usize) -> Option<Cursor<'a>>
        ensures { MatchOption result (total_in self.entry.strips.now ≤ rows * row + self.entry.into) (λ c. Reaches self.entry.strips.now (rows * row + self.entry.into) c.strips.now c.into) }
    {
        if row == 0 {
            return self.pass(0, 1); // rows without bytes all begin where the cursor stands
        }
        self.pass(rows, row)
    }

    // The same, where a row has a byte. A strip that ends before the place looked for is passed whole: the rows that begin in it are counted
    // off, and the last of them reaches into the next strip.
    #[tactic(auto, using(crate::proofs::Walking::reaches))]
    fn pass(self, rows: usize, row: usize) -> Option<Cursor<'a>>
        requires { 0 < row }
        ensures { MatchOption result (total_in self.entry.strips.now ≤ rows * row + self.entry.into) (λ c. Reaches self.entry.strips.now (rows * row + self.entry.into) c.strips.now c.into) }
    {
        let mut into = self.into;
        let mut ahead = rows;
        for (i, &[_, count]) in self.strips.iter().enumerate() {
            if count <= into {
                into -= count;
                continue;
            }
            let after = count - into - 1;
            let here = after / row;
            if ahead <= here {
                return Some(Cursor {
                    strips: &self.strips[i..],
                    into: into + ahead * row,
                });
            }
            into = row - 1 - after % row;
            ahead -= here + 1;
        }
        None
    }
}
