// The lines of the calibration: the pixel size and the notes.
ghost use Rattle.std.specs.Prelude.{◌≡◌, [], ◌∷◌, ◌++◌};
ghost use Rattle.lsm_format.specs.Printout.{text, size_text, step_text, sizes_text, pixel_line, step_notes, note_lines};
ghost use Rattle.calibration.specs.Calibrated.{step_of, calibration_of, note_text};
ghost use Rattle.lsm_printout.specs.Put.{put};

use crate::page::Page;
use calibration::{Calibration, ZStep, note_figure};

impl<const N: usize> Page<N> {
    // A size's bits. A NaN has no pattern of its own, and is none.
    #[tactic(auto, using(crate::proofs::Notes::size))]
    fn size(&mut self, um: f32)
        ensures { self.new ≡ put N self.old (size_text um) }
    {
        if um.is_nan() {
            return self.byte(b'-');
        }
        self.hex(&um.to_bits().to_be_bytes());
    }

    fn step(&mut self, z: ZStep)
        ensures { self.new ≡ put N self.old (step_text (step_of z)) }
    {
        match z {
            ZStep::Used(um) => self.size(um),
            _ => self.byte(b'-'),
        }
    }

    #[tactic(auto, using(crate::proofs::Puts::after))]
    fn sizes(&mut self, k: Option<Calibration>)
        ensures { self.new ≡ put N self.old (sizes_text (calibration_of k)) }
    {
        let Some(k) = k else {
            return self.bytes(b"- - -");
        };
        self.size(k.x);
        self.byte(b' ');
        self.size(k.y);
        self.byte(b' ');
        self.step(k.z);
    }

    // X Y Z.
    #[tactic(auto, using(crate::proofs::Puts::after), unfolding(lsm_format::specs::Printout::pixel_line, lsm_format::specs::Printout::text))]
    pub(crate) fn pixel(&mut self, k: Option<Calibration>)
        ensures { self.new ≡ put N self.old (text (pixel_line (calibration_of k) ∷ [])) }
    {
        self.bytes(b"pixel ");
        self.sizes(k);
        self.byte(b'\n');
    }

    // What stands before a note's figure, the figure, and the line's end.
    #[tactic(auto, using(crate::proofs::Puts::after))]
    fn note(&mut self, words: &[u8], z: ZStep)
        ensures { self.new ≡ put N self.old (words.now ++ note_text z ++ 10 ∷ []) }
    {
        self.bytes(words);
        if let Some(figure) = note_figure(z) {
            self.bytes(&figure);
        }
        self.byte(b'\n');
    }

    #[tactic(auto, using(crate::proofs::Puts::after), unfolding(lsm_format::specs::Printout::text))]
    fn step_notes(&mut self, z: ZStep)
        ensures { self.new ≡ put N self.old (text (step_notes (step_of z))) }
    {
        match z {
            ZStep::Placeholder(_) => self.note(b"notes 1\nplaceholder ", z),
            ZStep::TooLarge(_) => self.note(b"notes 1\ntoo-large ", z),
            _ => self.bytes(b"notes 0\n"),
        }
    }

    #[tactic(auto, unfolding(lsm_format::specs::Printout::note_lines, lsm_format::specs::Printout::text))]
    pub(crate) fn notes(&mut self, k: Option<Calibration>)
        ensures { self.new ≡ put N self.old (text (note_lines (calibration_of k))) }
    {
        match k {
            Some(k) => self.step_notes(k.z),
            None => self.bytes(b"notes 0\n"),
        }
    }
}
