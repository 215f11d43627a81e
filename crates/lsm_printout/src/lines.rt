// The lines of the scenes, and a refusal's.
ghost use Rattle.std.specs.Prelude.{◌≡◌, [], ◌∷◌, ◌<◌};
ghost use Rattle.lsm_format.specs.Code.{row_of};
ghost use Rattle.lsm_format.specs.Printout.{text, scene_line, each, refused_line};
ghost use Rattle.lsm_printout.specs.Put.{put};

use crate::page::Page;
use lsm_format::error::Refusal;

impl<const N: usize> Page<N> {
    // The name of one scene: a scene alone has no number.
    #[tactic(auto, using(crate::proofs::TextLines::scene), unfolding(lsm_format::specs::Printout::scene_line, lsm_format::specs::Printout::text))]
    fn scene(&mut self, scenes: usize, scene: usize)
        requires { scene < scenes }
        ensures { self.new ≡ put N self.old (text (scene_line scenes scene ∷ [])) }
    {
        if scenes == 1 {
            return self.bytes(b"image\n");
        }
        self.bytes(b"image #");
        self.decimal(scene + 1);
        self.byte(b'\n');
    }

    #[tactic(auto, using(crate::proofs::TextLines::one_more))]
    pub(crate) fn scenes(&mut self, scenes: usize)
        ensures { self.new ≡ put N self.old (text (each scenes (scene_line scenes))) }
    {
        for scene in 0..scenes {
            self.scene(scenes, scene);
        }
    }

    // A refusal's number and values.
    #[tactic(auto, using(crate::proofs::Puts::after), unfolding(lsm_format::specs::Printout::refused_line, lsm_format::specs::Printout::text))]
    pub(crate) fn refused(&mut self, r: Refusal)
        ensures { self.new ≡ put N self.old (text (refused_line (row_of r) ∷ [])) }
    {
        self.line(b"refused", &r.numbers());
    }
}
