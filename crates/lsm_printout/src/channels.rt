// The lines of the channels.
ghost use Rattle.std.specs.Prelude.{◌≡◌, [], ◌∷◌, ◌<◌};
ghost use Rattle.lsm_format.specs.Printout.{text, color_text, name_text, channel_line, channels_of, each};
ghost use Rattle.lsm_channel_colors.specs.Code.{meta_of};
ghost use Rattle.lsm_description.specs.Code.{description_of};
ghost use Rattle.lsm_printout.specs.Channel.{first_of, channel_of};
ghost use Rattle.lsm_printout.specs.Put.{put};

use crate::page::Page;
use lsm_channel_colors::ChannelMeta;
use lsm_description::{Description, channel};

impl<const N: usize> Page<N> {
    fn color(&mut self, color: Option<[u8; 3]>)
        ensures { self.new ≡ put N self.old (color_text color) }
    {
        match color {
            Some(rgb) => self.hex(&rgb),
            None => self.byte(b'-'),
        }
    }

    // The name whose length is given, from the front of `bytes`.
    #[tactic(auto, using(crate::proofs::Names::named))]
    fn name(&mut self, len: Option<usize>, bytes: &[u8])
        ensures { self.new ≡ put N self.old (name_text (first_of len bytes.now)) }
    {
        let Some(len) = len else {
            return self.byte(b'-');
        };
        self.byte(b'=');
        self.hex(&bytes[..len.min(bytes.len())]);
    }

    #[tactic(auto, using(crate::proofs::Puts::after), unfolding(lsm_format::specs::Printout::channel_line, lsm_format::specs::Printout::text))]
    fn meta(&mut self, m: ChannelMeta, bytes: &[u8])
        ensures { self.new ≡ put N self.old (text (channel_line (channel_of (meta_of m) bytes.now) ∷ [])) }
    {
        self.color(m.color);
        self.byte(b' ');
        self.name(m.name, bytes);
        self.byte(b'\n');
    }

    // The line of one channel. No name has more than 3,072 bytes, so that it is never refused.
    #[tactic(auto, using(crate::proofs::Names::found), unfolding(lsm_format::specs::Printout::channel_line, lsm_format::specs::Printout::text))]
    fn channel(&mut self, buf: &[u8], d: Description, c: usize)
        requires { c < (description_of d).dims.c }
        ensures { self.new ≡ put N self.old (text (channel_line (channels_of buf.now (description_of d) c) ∷ [])) }
    {
        let mut name = [0; 3072];
        let Ok(m) = channel(buf, d, c, &mut name) else {
            unreachable!();
        };
        self.meta(m, &name);
    }

    #[tactic(auto, using(crate::proofs::TextLines::one_more))]
    pub(crate) fn channels(&mut self, buf: &[u8], d: Description)
        ensures { self.new ≡ put N self.old (text (each (description_of d).dims.c (λ c. channel_line (channels_of buf.now (description_of d) c)))) }
    {
        for c in 0..d.dims.c {
            self.channel(buf, d, c);
        }
    }
}
